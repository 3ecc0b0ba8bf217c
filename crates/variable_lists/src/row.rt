ghost use Rattle.variable_lists.specs.Lists.{is_fixed};

use mms_types::{Memory, Specs};
use object_names::{Copied, Deletable};
use std::alloc::Global;

/// A list of variables (ISO 9506-1, named variable list).
#[derive(Drop)]
pub struct VariableList {
    /// Its variables as they were given, in their order.
    pub variables: Specs,
}

impl Copied for VariableList {
    fn copied(&self, alloc: Global) -> Result<VariableList, Memory> {
        Ok(VariableList {
            variables: self.variables.copy(alloc)?,
        })
    }
}

impl Deletable for VariableList {
    ghost is_fixed = { is_fixed };

    fn is_fixed(&self) -> bool {
        false
    }
}
