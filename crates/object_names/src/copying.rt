ghost use Rattle.std.specs.Prelude.{◌≡◌, IfOk};
ghost use Rattle.std.specs.List.{IsDistinct};
ghost use Rattle.std.specs.Map.{keys_of};
ghost use Rattle.mms_types.specs.Order.{key_eq};

use crate::Named;
use crate::table::put_row;
use indexmap::IndexMap;
use mms_types::{Key, Memory};
use std::alloc::Global;

/// A value of which copies are made.
pub trait Copied: Drop + Sized {
    /// A copy. The one refusal is want of memory.
    fn copied(&self, alloc: Global) -> Result<Self, Memory>
        ensures { IfOk result (λ copy. copy ≡ self.now) };
}

/// No name stands twice in a table.
pub fn each_name_stands_once<T: Drop>(table: &Named<T>)
    ensures { IsDistinct key_eq (keys_of table.now) }
{
    let _ = table.len();
}

/// The rows, copied.
#[tactic(auto, using(crate::proofs::Scopes::not_copied))]
fn copied_rows<T: Copied>(
    alloc: Global,
    rows: &IndexMap<Key, T>,
) -> Result<IndexMap<Key, T>, Memory>
    ensures { IfOk result (λ copies. copies.entries ≡ rows.now.entries) }
{
    let _distinct = rows.len();
    let mut copies = IndexMap::new(alloc);
    for (key, value) in rows.iter() {
        let key = key.copy(alloc)?;
        let value = value.copied(alloc)?;
        let Ok(()) = put_row(&mut copies, key, value) else {
            return Err(Memory::wanting());
        };
    }
    Ok(copies)
}

impl<T: Copied> Named<T> {
    /// A copy, with its rows in the same order. The one refusal is want of memory.
    pub fn copy(&self, alloc: Global) -> Result<Named<T>, Memory>
        ensures { IfOk result (λ table. table ≡ self.now) }
    {
        Ok(Named {
            rows: copied_rows(alloc, &self.rows)?,
            places: Vec::from_slice(alloc, &self.places)?,
            ranks: Vec::from_slice(alloc, &self.ranks)?,
        })
    }
}
