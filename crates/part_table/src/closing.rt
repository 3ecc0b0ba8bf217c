ghost use Rattle.std.specs.Prelude.{◌≡◌, ◌<◌, ◌≤◌, [], ◌∷◌, ℕ, List, None, Some, IfOk, IfErr, false, length, map, slice_get, slice_index_or, vec_capacity};
ghost use Rattle.std.specs.Box.{box_value};
ghost use Rattle.std.specs.Mem.Slots.{IsFull, slots_filled, slots_items, slots_len};
ghost use Rattle.std.specs.Mem.Slots.Ownership.{Filled};
ghost use Rattle.part_table.specs.Closing.{AreAllIdle, AreFull, AreOfSlots, HasJoined, IsLongest, IsSeatOf};
ghost use Rattle.part_table.specs.Held.{held_at};
ghost use Rattle.part_table.specs.History.{replayed};
ghost use Rattle.part_table.specs.Known.{Known};
ghost use Rattle.part_table.specs.Lines.{slot_of};

use crate::lines::{SLOTS_APART, slot_at};
use crate::object::Object;
use crate::pass::{PartSeat, Pass};
use crate::steps::{Slots, take_in};
use crate::table::PartTable;
use atomic_table::Closed;
use std::alloc::Global;

/// There was not enough memory to close a table. The table and its passes come back.
#[derive(Drop)]
pub struct Unclosed<O: Object> {
    /// The table.
    pub table: PartTable<O>,
    /// The passes.
    pub passes: Vec<Pass<O>>,
}

/// The seat of a pass that holds nothing.
fn seat_of<O: Object>(pass: Pass<O>) -> PartSeat<O>
    requires idle { (part : ℕ) → held_at pass.taken part ≡ None }
    ensures table { result.table_id ≡ pass.table.id }
    ensures seat { IsSeatOf pass result.me }
{
    let Pass { seat, .. } = pass;
    seat
}

/// One seat into which those of all passes are joined.
fn join_all<O: Object>(table: &Slots<O>, mut passes: Vec<Pass<O>>) -> PartSeat<O>
    requires words { 0 < table.now.shared.table_id.words }
    requires some { 0 < length passes.items }
    requires idle { (i : ℕ) (p : Known O.Part O.Event) → slice_get passes.items i ≡ Some p
        → (p.table.id ≡ table.now.shared.table_id) × ((part : ℕ) → held_at p.taken part ≡ None) }
    ensures table { result.table_id ≡ table.now.shared.table_id }
    ensures joined { HasJoined result.me passes.items }
{
    let Some(last) = passes.pop() else {
        unreachable!()
    };
    let mut seat = seat_of(last);
    while let Some(pass) = passes.pop() {
        take_in::<O>(table, &mut seat, seat_of(pass));
    }
    seat
}

/// Empties the slots from one on and below another, where those before are empty already.
fn empty_slots<T: Drop>(closed: &mut Closed<Option<Box<T>>, Global>, from: usize, to: usize)
    requires within { (from ≤ to) × (to ≤ slots_len closed.old.slots) }
    requires filled { Filled (slots_filled closed.old.slots) from (slots_len closed.old.slots) }
    requires emptied { (k : ℕ) → k < from
        → slice_index_or (slots_filled closed.old.slots) k false ≡ false }
    ensures filled { Filled (slots_filled closed.new.slots) to (slots_len closed.old.slots) }
    ensures emptied { (k : ℕ) → k < to
        → slice_index_or (slots_filled closed.new.slots) k false ≡ false }
    ensures same { (slots_items closed.new.slots ≡ slots_items closed.old.slots)
        × (slots_len closed.new.slots ≡ slots_len closed.old.slots) }
{
    for slot in from..to {
        drop(closed.take(slot));
    }
}

/// The parts of a table that was closed, in order.
fn take_parts<T: Drop>(
    mut closed: Closed<Option<Box<T>>, Global>,
    count: usize,
    mut parts: Vec<Box<T>>,
) -> Vec<Box<T>>
    requires few { count ≤ 256 }
    requires size { slots_len closed.slots ≡ slot_of count }
    requires filled { IsFull closed.slots }
    requires full { AreFull count (slots_items closed.slots) }
    requires none { parts.items ≡ [] }
    requires room { count ≤ vec_capacity parts }
    ensures { AreOfSlots count (slots_items closed.slots) result.items }
{
    for place in 0..count {
        let slot = slot_at(place);
        let Some(part) = closed.take(slot) else {
            unreachable!()
        };
        parts.push_reserved(part);
        empty_slots(&mut closed, slot + 1, slot + SLOTS_APART);
    }
    closed.free();
    parts
}

impl<O: Object> PartTable<O> {
    /// The parts of the table, once all passes are there and none holds a part. They are those after
    /// the longest history that the passes know, of which each place is an own place of one pass.
    ///
    /// The error is want of memory, and has the table and the passes.
    pub fn close(
        self,
        alloc: Global,
        passes: Vec<Pass<O>>,
    ) -> Result<Vec<Box<O::Part>>, Unclosed<O>>
        requires all { AreAllIdle self passes.items }
        ensures parts { IfOk result (λ parts. (history : List (ℕ × O.Event))
            × IsLongest O.may_make self.callers passes.items history
            × (map box_value parts.items ≡ replayed O.step self.opening history)) }
        ensures back { IfErr result (λ back. (back.table ≡ self)
            × (back.passes.items ≡ passes.items)) }
    {
        let count = self.table.slot_count() / SLOTS_APART;
        let Ok(parts) = Vec::with_capacity(alloc, count) else {
            return Err(Unclosed {
                table: self,
                passes,
            });
        };
        let PartTable { table } = self;
        let seat = join_all::<O>(&table, passes);
        Ok(take_parts(table.close_with(seat), count, parts))
    }
}
