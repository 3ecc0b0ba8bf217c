// The clauses of these name the rows of `Semaphores` and `SemaphoreRow`, which the files that declare them cannot
// import.
ghost use Rattle.std.specs.Prelude.{◌≡◌, ◌<◌, ◌↔◌, length, slice_get, Contains, IsSome};
ghost use Rattle.std.specs.Borrow.{sem, LendsIf, LendsSo};
ghost use Rattle.std.specs.Option.{option_copied_mut};
ghost use Rattle.std.specs.Map.{lookup, set_value, keys_of, values_of};
ghost use Rattle.indexmap.specs.Layout.{set_value_at};
ghost use Rattle.mms_types.specs.Order.{key_eq, key_of};
ghost use Rattle.mms_time.specs.contracts.row.SemaphoreRow.{the_row as row_of_one};
ghost use Rattle.mms_time.specs.contracts.table.Semaphores.{the_row};

use crate::table::UNKNOWN;
use crate::{SemaphoreRow, Semaphores};
use mms_types::{Key, ObjectName};

impl Semaphores {
    /// The semaphore of a name, to write: the table has what was written under it, and is else as before. None where
    /// there is none of that name. The time does not grow with the table.
    pub(crate) fn get_mut(&mut self, key: &Key) -> Option<&mut SemaphoreRow>
        ensures* writes_back { sem 𝓛 (LendsSo the_row row_of_one self.entry result
            (λ after written. after ≡ set_value (key_eq key.now) self.old written)
            (λ after. after ≡ self.old)) }
        ensures value { option_copied_mut result ≡ lookup (key_eq key.now) self.old }
        ensures found { IsSome result ↔ Contains (keys_of self.old) key.now }
    {
        self.soonest = UNKNOWN;
        self.known = false;
        self.rows.get_mut(key)
    }

    /// The semaphore that a client names so, to write, as `get_mut` of that key, of which no copy is made.
    pub fn named_mut(&mut self, client: u32, name: &ObjectName) -> Option<&mut SemaphoreRow>
        ensures* writes_back { sem 𝓛 (LendsSo the_row row_of_one self.entry result
            (λ after written. after
            ≡ set_value (key_eq (key_of client name.now)) self.old written)
            (λ after. after ≡ self.old)) }
        ensures value { option_copied_mut result
            ≡ lookup (key_eq (key_of client name.now)) self.old }
        ensures found { IsSome result ↔ Contains (keys_of self.old) (key_of client name.now) }
    {
        self.soonest = UNKNOWN;
        self.known = false;
        self.rows.named_mut(client, name)
    }

    /// The semaphore at a place, counted from 0, to write: it is what was written, and the table is else as before. None
    /// where there are not as many.
    pub fn at_mut(&mut self, place: usize) -> Option<&mut SemaphoreRow>
        ensures* writes_back { sem 𝓛 (LendsIf the_row row_of_one self.entry result
            (set_value_at self.old place) self.old) }
        ensures value { option_copied_mut result ≡ slice_get (values_of self.old) place }
        ensures found { IsSome result ↔ (place < length self.old) }
    {
        self.soonest = UNKNOWN;
        self.known = false;
        self.rows.at_mut(place)
    }
}
