//! The rows of a table in order of their names.
ghost use Rattle.std.specs.Prelude.{◌≡◌, ◌<◌, ◌↔◌, IfSome, IsPermutation, IsSome, Some, length, slice_get};
ghost use Rattle.std.specs.List.Sorted.{IsStrictlySortedBy};
ghost use Rattle.std.specs.Map.{keys_of};
ghost use Rattle.mms_types.specs.Order.{key_order};
ghost use Rattle.object_names.specs.Ranked.{by_name};

use crate::Named;
use mms_types::Key;

/// The rows in order of names are the same rows, each once, and each name comes before those behind it.
pub fn rows_stand_in_order<T: Drop>(table: &Named<T>)
    ensures same { IsPermutation table.now (by_name table.now) }
    ensures ascend { IsStrictlySortedBy key_order (keys_of (by_name table.now)) }
{
    let _ = &table.places;
}

impl<T: Drop> Named<T> {
    /// The name and the value of the row at a place in order of names, counted from 0: the VMD's names come first, then
    /// each domain's, then each association's, and names of one scope stand in order of octets. None where there are
    /// not as many rows. It takes no memory, and the time doesn't grow with the table.
    pub fn ranked(&self, rank: usize) -> Option<(&Key, &T)>
        ensures row { IfSome result (λ row. slice_get (by_name self.now) rank
            ≡ Some (row.0.now, row.1.now)) }
        ensures found { IsSome result ↔ (rank < length self.now) }
    {
        match self.places.get(rank) {
            None => None,
            Some(place) => self.rows.get_index(*place),
        }
    }
}
