// The clauses of these name the row of `Named`, which the file that declares it cannot import.
ghost use Rattle.std.specs.Prelude.{◌≡◌, ◌<◌, ◌↔◌, length, slice_get, Contains, IsSome};
ghost use Rattle.std.specs.Borrow.{sem, LendsIf, LendsSo};
ghost use Rattle.std.specs.Option.{option_copied_mut};
ghost use Rattle.std.specs.Map.{lookup, set_value, keys_of, values_of};
ghost use Rattle.indexmap.specs.Layout.{set_value_at};
ghost use Rattle.mms_types.specs.Order.{key_eq, key_of};
ghost use Rattle.object_names.specs.contracts.table.Named.{the_row};

use crate::Named;
use crate::borrowed::KeyRef;
use mms_types::{Key, ObjectName};

impl<T: Drop> Named<T> {
    /// The value under a name, to write: the table has what was written under it, and is else as
    /// before. None where the table does not have the name. The time does not grow with the table.
    #[tactic(auto, using(crate::proofs::Found::found_lent))]
    pub fn get_mut(&mut self, key: &Key) -> Option<&mut T>
        ensures* writes_back { sem 𝓛 (LendsSo (the_row T.row) T.row self.entry result
            (λ after written. after ≡ set_value (key_eq key.now) self.old written)
            (λ after. after ≡ self.old)) }
        ensures value { option_copied_mut result ≡ lookup (key_eq key.now) self.old }
        ensures found { IsSome result ↔ Contains (keys_of self.old) key.now }
    {
        self.rows.get_mut(key)
    }

    /// The value under the name by which a client's PDU names an object, to write, as `get_mut` of that key, of which no
    /// copy is made.
    #[tactic(auto, using(crate::proofs::Found::found_lent))]
    pub fn named_mut(&mut self, client: u32, name: &ObjectName) -> Option<&mut T>
        ensures* writes_back { sem 𝓛 (LendsSo (the_row T.row) T.row self.entry result
            (λ after written. after
            ≡ set_value (key_eq (key_of client name.now)) self.old written)
            (λ after. after ≡ self.old)) }
        ensures value { option_copied_mut result
            ≡ lookup (key_eq (key_of client name.now)) self.old }
        ensures found { IsSome result ↔ Contains (keys_of self.old) (key_of client name.now) }
    {
        self.rows.get_mut(KeyRef::of(client, name))
    }
}

impl<T: Drop> Named<T> {
    /// The value at a place, counted from 0, to write: the row has what was written, and the table is
    /// else as before. None where there are not as many rows.
    pub fn at_mut(&mut self, place: usize) -> Option<&mut T>
        ensures* writes_back { sem 𝓛 (LendsIf (the_row T.row) T.row self.entry result
            (set_value_at self.old place) self.old) }
        ensures value { option_copied_mut result ≡ slice_get (values_of self.old) place }
        ensures found { IsSome result ↔ (place < length self.old) }
    {
        self.rows.get_index_mut(place)
    }
}
