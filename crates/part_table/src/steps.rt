//! The steps of a seat at the table.
ghost use Rattle.std.specs.Prelude.{◌≡◌, ◌≢◌, ◌+◌, ◌<◌, ◌≤◌, [], ◌∷◌, ℕ, List, Option, Some, None, length, IfOk, IfErr, slice_set};
ghost use Rattle.atomic_table.specs.Table.{rest};
ghost use Rattle.part_table.specs.Held.{held_at};
ghost use Rattle.part_table.specs.History.{BeginsEach};
ghost use Rattle.part_table.specs.Known.{IsTrueOf};
ghost use Rattle.part_table.specs.Lines.{slot_of};
ghost use Rattle.part_table.specs.Passes.{IsAlone, IsAloneAs, known, number_of, left_of};
ghost use Rattle.part_table.specs.Plays.{Informed, SeesTo, committed, joined, note_of, with_loss};
ghost use Rattle.part_table.specs.Rule.{setting_of};
ghost use Rattle.part_table.specs.Tables.{IsTable};
ghost use Rattle.atomic_table.specs.Seated.{TableId};

use crate::lines::{owner_word_at, slot_at};
use crate::memory::Held;
use crate::object::Object;
use crate::pass::PartSeat;
use crate::plays::{Chosen, Claim, Commit, Give, Law, Notes, See};
use crate::view::{Key, View};
use atomic_table::Table;
use std::alloc::Global;
use std::marker::Brand;

/// Parts in slots, under the rule. Word 0 is the commit word, and each part has an owner word.
pub(crate) type Slots<O> = Table<
    Option<Box<<O as Object>::Part>>,
    View<<O as Object>::Part, <O as Object>::Event>,
    Key<<O as Object>::Part>,
    Law<O>,
    Global,
>;

/// Claims a part, and takes it out of its slot, unless its word shows another owner.
pub(crate) fn claim<O: Object>(
    table: &Slots<O>,
    seat: &mut PartSeat<O>,
    by: u32,
    part: u32,
) -> Result<Box<O::Part>, Held>
    requires table { seat.old.table_id ≡ table.now.shared.table_id }
    requires sizes { IsTable table.now.shared.table_id table.now.shared.key }
    requires part { part < length (setting_of table.now.shared.key).opening }
    requires number { IsAloneAs by seat.old.me.0.callers }
    requires few { seat.old.me.0.setting.callers ≤ 65 }
    requires by { by < seat.old.me.0.setting.callers }
    requires free { held_at seat.old.me.0.held part ≡ None }
    ensures same { (seat.new.table_id ≡ seat.old.table_id) × (seat.new.id ≡ seat.old.id) }
    ensures taken { IfOk result (λ held. seat.new.me
        ≡ (
          record seat.old.me.0 { held = slice_set seat.old.me.0.held part (Some held.value) },
          (slot_of part, None) ∷ seat.old.me.1,
        )) }
    ensures lost { IfErr result (λ held. (held.by ≢ by) × (held.by < seat.old.me.0.setting.callers)
        × (seat.new.me ≡ (with_loss part held.by seat.old.me.0, seat.old.me.1))) }
{
    let shared = &table.shared;
    let word = owner_word_at(part as usize);
    let slot = slot_at(part as usize);
    let owner = u64::from(by) + 1;
    let found = shared.compare_exchange::<Claim>(seat, word, 0, owner);
    if found != 0 {
        let by = (found - 1) as u32;
        return Err(Held { by });
    }
    let Some(held) = shared.exchange(seat, slot, None) else {
        unreachable!()
    };
    Ok(held)
}

/// Puts a part back into its slot, which was taken last, and then releases it.
pub(crate) fn release<O: Object>(
    table: &Slots<O>,
    seat: &mut PartSeat<O>,
    part: u32,
    held: Box<O::Part>,
)
    requires table { seat.old.table_id ≡ table.now.shared.table_id }
    requires sizes { IsTable table.now.shared.table_id table.now.shared.key }
    requires part { part < length (setting_of table.now.shared.key).opening }
    requires slot { seat.old.me.1 ≡ (slot_of part, None) ∷ rest seat.old.me.1 }
    requires held { held_at seat.old.me.0.held part ≡ Some held.value }
    ensures same { (seat.new.table_id ≡ seat.old.table_id) × (seat.new.id ≡ seat.old.id) }
    ensures given { seat.new.me ≡ (
      record seat.old.me.0
          { held = slice_set seat.old.me.0.held part None },
      rest seat.old.me.1,
    ) }
{
    let shared = &table.shared;
    let word = owner_word_at(part as usize);
    let slot = slot_at(part as usize);
    drop(shared.exchange(seat, slot, Some(held)));
    shared.store::<Give>(seat, word, 0);
}

/// Sees the history so far, and answers its length.
pub(crate) fn look<O: Object>(table: &Slots<O>, seat: &mut PartSeat<O>) -> u64
    requires table { seat.old.table_id ≡ table.now.shared.table_id }
    requires words { 0 < table.now.shared.table_id.words }
    requires number { IsAlone seat.old.me.0.callers }
    ensures same { (seat.new.table_id ≡ seat.old.table_id) × (seat.new.id ≡ seat.old.id) }
    ensures seen { (h : List (ℕ × O.Event))
        × (seat.new.me ≡ (record seat.old.me.0 { seen = h }, seat.old.me.1)) × (result ≡ length h)
        × SeesTo O.step O.may_make h seat.old.me.0 × BeginsEach h seat.old.me.0.told }
{
    table.shared.load::<See<O>>(seat, 0)
}

fn add_chosen<O: Object, C: Chosen<O::Event>>(
    table: &Slots<O>,
    seat: &mut PartSeat<O>,
    event: &O::Event,
) -> u64
    requires chosen { C.chosen ≡ event.now ∷ [] }
    requires table { seat.old.table_id ≡ table.now.shared.table_id }
    requires words { 0 < table.now.shared.table_id.words }
    requires number { IsAlone seat.old.me.0.callers }
    requires left { 0 < left_of seat.old.me.0.callers }
    requires enough { O.suffices event.now seat.old.me.0.held }
    requires may { O.may_make (number_of seat.old.me.0.callers) event.now }
    ensures same { (seat.new.table_id ≡ seat.old.table_id) × (seat.new.id ≡ seat.old.id) }
    ensures added { (h : List (ℕ × O.Event))
        × (seat.new.me ≡ (committed O.after event.now h seat.old.me.0, seat.old.me.1))
        × (result ≡ length h) × SeesTo O.step O.may_make h seat.old.me.0
        × ((id : TableId) (hand : List (Option O.Part))
        → IsTrueOf O.may_make (known id (committed O.after event.now h seat.old.me.0) hand)) }
{
    let _ = event;
    table.shared.fetch_add::<Commit<O, C>>(seat, 0, 1)
}

/// Adds an event to the history so far, and answers the length of that.
pub(crate) fn add<O: Object>(table: &Slots<O>, seat: &mut PartSeat<O>, event: &O::Event) -> u64
    requires table { seat.old.table_id ≡ table.now.shared.table_id }
    requires words { 0 < table.now.shared.table_id.words }
    requires number { IsAlone seat.old.me.0.callers }
    requires left { 0 < left_of seat.old.me.0.callers }
    requires enough { O.suffices event.now seat.old.me.0.held }
    requires may { O.may_make (number_of seat.old.me.0.callers) event.now }
    ensures same { (seat.new.table_id ≡ seat.old.table_id) × (seat.new.id ≡ seat.old.id) }
    ensures added { (h : List (ℕ × O.Event))
        × (seat.new.me ≡ (committed O.after event.now h seat.old.me.0, seat.old.me.1))
        × (result ≡ length h) × SeesTo O.step O.may_make h seat.old.me.0
        × ((id : TableId) (hand : List (Option O.Part))
        → IsTrueOf O.may_make (known id (committed O.after event.now h seat.old.me.0) hand)) }
{
    add_chosen::<O, Brand>(table, seat, event)
}

/// A note of what a seat has seen.
pub(crate) fn note<O: Object>(table: &Slots<O>, seat: &mut PartSeat<O>) -> PartSeat<O>
    requires table { seat.old.table_id ≡ table.now.shared.table_id }
    requires words { 0 < table.now.shared.table_id.words }
    ensures same { (seat.new.table_id ≡ seat.old.table_id) × (seat.new.id ≡ seat.old.id)
        × (seat.new.me ≡ seat.old.me) }
    ensures note { (result.table_id ≡ seat.old.table_id)
        × (result.me ≡ (note_of seat.old.me.0, [])) }
{
    table.shared.split_seat::<Notes>(seat)
}

/// Takes in a seat that holds nothing.
pub(crate) fn take_in<O: Object>(table: &Slots<O>, seat: &mut PartSeat<O>, other: PartSeat<O>)
    requires tables { (seat.old.table_id ≡ table.now.shared.table_id)
        × (other.table_id ≡ table.now.shared.table_id) }
    requires words { 0 < table.now.shared.table_id.words }
    requires number { 0 < length seat.old.me.0.callers }
    requires empty { (other.me.1 ≡ []) × ((part : ℕ) → held_at other.me.0.held part ≡ None) }
    ensures same { (seat.new.table_id ≡ seat.old.table_id) × (seat.new.id ≡ seat.old.id) }
    ensures joined { seat.new.me ≡ (joined seat.old.me.0 other.me.0, seat.old.me.1) }
{
    table.shared.join_seat::<Notes>(seat, other);
}

/// Each of two seats then knows a history that begins with what both had seen.
pub(crate) fn inform<O: Object>(table: &Slots<O>, a: &mut PartSeat<O>, b: &mut PartSeat<O>)
    requires tables { (a.old.table_id ≡ table.now.shared.table_id)
        × (b.old.table_id ≡ table.now.shared.table_id) }
    requires words { 0 < table.now.shared.table_id.words }
    requires a_number { IsAlone a.old.me.0.callers }
    requires b_number { IsAlone b.old.me.0.callers }
    ensures same { (a.new.table_id ≡ a.old.table_id) × (b.new.table_id ≡ b.old.table_id) }
    ensures a { Informed O.step O.may_make a.old.me b.old.me.0 a.new.me }
    ensures b { Informed O.step O.may_make b.old.me a.old.me.0 b.new.me }
{
    let of_a = note::<O>(table, a);
    let of_b = note::<O>(table, b);
    take_in::<O>(table, a, of_b);
    take_in::<O>(table, b, of_a);
    look::<O>(table, a);
    look::<O>(table, b);
}
