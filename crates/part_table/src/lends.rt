// The clauses of these calls name the rows of `Hand` and `Pass`, which the files that declare them
// cannot import.
ghost use Rattle.std.specs.Prelude.{◌≡◌, Some, slice_set};
ghost use Rattle.std.specs.Borrow.{sem, Lends, LendsIf};
ghost use Rattle.std.specs.Option.{option_copied_mut};
ghost use Rattle.part_table.specs.Held.{held_at};
ghost use Rattle.part_table.specs.contracts.hand.Hand.{the_row};
ghost use Rattle.part_table.specs.contracts.pass.Pass.{the_row as pass_row};

use crate::{Hand, Object, Pass};

impl<O: Object> Hand<O> {
    /// The part, to write, and None exactly where it is not held. What is written changes that part
    /// alone.
    pub fn get_mut(&mut self, part: u32) -> Option<&mut O::Part>
        ensures* writes_back { sem 𝓛 (LendsIf
            (the_row O.row O.Part.row O.Event.row O.Object) O.Part.row self.entry result
            (λ value. slice_set self.old part (Some value)) self.old) }
        ensures value { option_copied_mut result ≡ held_at self.old part }
    {
        if !self.holds(part) {
            return None;
        }
        match &mut self.places[part as usize] {
            Some(held) => Some(&mut **held),
            None => None,
        }
    }
}

impl<O: Object> Pass<O> {
    /// The parts that the caller holds, to change as it likes.
    pub fn hand_mut(&mut self) -> &mut Hand<O>
        ensures* writes_back { sem 𝓛 (Lends (pass_row O.row O.Part.row O.Event.row O.Object)
            (the_row O.row O.Part.row O.Event.row O.Object) self.entry result
            (λ hand. record self.old { hand = hand })) }
        ensures value { result.now ≡ self.old.hand }
    {
        &mut self.hand
    }
}
