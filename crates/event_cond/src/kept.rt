ghost use Rattle.event_cond.specs.Deletion.{is_fixed};

use crate::Condition;
use mms_types::Memory;
use object_names::{Copied, Deletable};
use std::alloc::Global;
use std::marker::Model;

/// A condition as its table keeps it. What holds of each at any time is a promise of this type.
pub struct Kept {
    pub(crate) condition: Condition,
}

impl Model for Kept {
    ghost use Rattle.event_cond.specs.Kept.{IsCondition};
    ghost use Rattle.event_cond.specs.declared.condition.Condition.{Condition};

    ghost Value = { Condition };

    ghost view = { λ kept. kept.condition };

    ghost invariant = { λ kept. IsCondition kept.condition };
}

impl Copied for Kept {
    fn copied(&self, _alloc: Global) -> Result<Kept, Memory> {
        Ok(Kept {
            condition: self.condition,
        })
    }
}

impl Deletable for Kept {
    ghost is_fixed = { is_fixed };

    fn is_fixed(&self) -> bool {
        false
    }
}

impl Drop for Kept {
    fn drop(self) {
        let Kept {
            condition: _condition,
        } = self;
    }
}
