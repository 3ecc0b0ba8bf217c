ghost use Rattle.std.specs.Prelude.{◌≡◌, ◌≢◌, ◌+◌, ◌-◌, ◌^◌, ◌<◌, ◌≤◌, true, [], ◌++◌, Some, None, IfOk, IfErr, is_some, length, map, replicate, vec_capacity, vec_len};
ghost use Rattle.std.specs.Box.{box_value};
ghost use Rattle.std.specs.List.{range_with_len};
ghost use Rattle.part_table.specs.Held.{held_at};
ghost use Rattle.part_table.specs.Known.{IsInHand, newcomer, with_claim_lost, with_part, without_part};
ghost use Rattle.part_table.specs.Lines.{laid_apart, owner_word};
ghost use Rattle.part_table.specs.Plays.{founder};
ghost use Rattle.part_table.specs.Rule.{setting_of};
ghost use Rattle.part_table.specs.Tables.{opened};

use crate::lines::{SLOTS_APART, owner_word_at, slot_at};
use crate::memory::{Held, Memory};
use crate::object::Object;
use crate::pass::{PartSeat, Pass, bring, place_of, put_first, turn_back};
use crate::plays::First;
use crate::steps::{Slots, claim, release};
use crate::view::Key;
use atomic_table::Table;
use std::alloc::Global;
use std::marker::Model;
use std::snapshot::Snapshot;

/// The parts of an object, which many callers share, each with a pass of its own. Contracts see which
/// table it is, its opening parts, the number of its callers and the quota of each.
#[derive(Drop)]
pub struct PartTable<O: Object> {
    pub(crate) table: Slots<O>,
}

impl<O: Object> Model for PartTable<O> {
    ghost use Rattle.part_table.specs.Known.{Opened};

    ghost Value = { Opened O.Part };

    ghost use Rattle.part_table.specs.Tables.{opened, IsTable};

    ghost view = { λ t. opened t.table.shared.table_id t.table.shared.key };

    ghost invariant = { λ t. IsTable t.table.shared.table_id t.table.shared.key };
}

/// The words of a table: the commit word and an owner word for each part.
fn free_words(alloc: Global, parts: usize) -> Result<Vec<u64>, Memory>
    requires { parts ≤ 256 }
    ensures { IfOk result (λ words. words.items ≡ replicate (owner_word parts) 0) }
{
    Ok(vec![in alloc; 0u64; owner_word_at(parts)]?)
}

/// Puts as many empty slots behind the others as lie between two parts.
fn leave_room<T: Drop>(slots: &mut Vec<Option<Box<T>>>)
    requires room { vec_len slots.old + SLOTS_APART - 1 ≤ vec_capacity slots.old }
    ensures slots { slots.new.items ≡ slots.old.items ++ replicate (SLOTS_APART - 1) None }
    ensures room { vec_capacity slots.new ≡ vec_capacity slots.old }
{
    for _slot in 1..SLOTS_APART {
        slots.push_reserved(None);
    }
}

/// The slots of a table whose parts are all at home.
fn at_home<T: Drop>(alloc: Global, parts: Vec<Box<T>>) -> Result<Vec<Option<Box<T>>>, Memory>
    requires { vec_len parts ≤ 256 }
    ensures { IfOk result (λ slots. slots.items ≡ laid_apart parts.items) }
{
    let mut slots = Vec::with_capacity(alloc, slot_at(parts.len()))?;
    for part in parts {
        slots.push_reserved(Some(part));
        leave_room(&mut slots);
    }
    Ok(slots)
}

/// The passes of all callers, each with its seat. The first seat keeps the last number.
fn seat_callers<O: Object>(
    table: &Slots<O>,
    alloc: Global,
    mut seat: PartSeat<O>,
    parts: usize,
    callers: u32,
    quota: u64,
) -> Result<Vec<Pass<O>>, Memory>
    requires told { (callers ≡ table.now.shared.key.callers) × (quota ≡ table.now.shared.key.quota)
        × (parts ≡ length (setting_of table.now.shared.key).opening) }
    requires few { (parts ≤ 256) × (1 ≤ callers) × (callers ≤ 65) }
    requires words { 0 < table.now.shared.table_id.words }
    requires seat { (seat.table_id ≡ table.now.shared.table_id)
        × (seat.me ≡ (founder table.now.shared.key, [])) }
    ensures { IfOk result (λ passes. passes.items
        ≡ map (newcomer (opened table.now.shared.table_id table.now.shared.key))
        (range_with_len 0 callers)) }
{
    let mut passes = Vec::with_capacity(alloc, callers as usize)?;
    for by in 0..callers - 1 {
        let own = table.shared.split_seat::<First>(&mut seat);
        passes.push_reserved(Pass::of(alloc, own, by, quota, parts)?);
    }
    passes.push_reserved(Pass::of(alloc, seat, callers - 1, quota, parts)?);
    Ok(passes)
}

impl<O: Object> PartTable<O> {
    /// A table of these parts, all at home, and the passes of its callers, in the order of their
    /// numbers, which begin at 0. Each caller has a quota of commits, and all lists begin empty.
    ///
    /// There are 1 to 256 parts and 1 to 65 callers, and the quota is at most 2^40.
    pub fn new(
        alloc: Global,
        parts: Vec<Box<O::Part>>,
        callers: u32,
        quota: u64,
    ) -> Result<(PartTable<O>, Vec<Pass<O>>), Memory>
        requires parts { (1 ≤ vec_len parts) × (vec_len parts ≤ 256) }
        requires callers { (1 ≤ callers) × (callers ≤ 65) }
        requires quota { quota ≤ 2 ^ 40 }
        ensures table { IfOk result (λ made. (made.0.opening ≡ map box_value parts.items)
            × (made.0.callers ≡ callers) × (made.0.quota ≡ quota)) }
        ensures passes { IfOk result (λ made. made.1.items
            ≡ map (newcomer made.0) (range_with_len 0 callers)) }
    {
        let count = parts.len();
        let words = free_words(alloc, count)?;
        let key = Key {
            opening: Snapshot::of(&parts),
            callers,
            quota,
        };
        let slots = at_home(alloc, parts)?;
        let Ok((table, seat)) = Table::new(alloc, &words, slots, &key) else {
            return Err(Memory::wanting());
        };
        let passes = seat_callers(&table, alloc, seat, count, callers, quota)?;
        Ok((PartTable { table }, passes))
    }

    /// Takes a part, unless another caller holds it. Its value comes into the hand of the pass.
    ///
    /// The answer is `Held` only where this call lost a claim: the part's owner word showed another
    /// caller at that step. No other call adds to the claims lost.
    pub fn try_take(&self, pass: &mut Pass<O>, part: u32) -> Result<(), Held>
        requires table { pass.old.table ≡ self.now }
        requires hand { IsInHand pass.old }
        requires part { part < length self.now.opening }
        requires free { held_at pass.old.taken part ≡ None }
        ensures taken { IfOk result (λ _. (value : O.Part)
            × (pass.new ≡ with_part part value pass.old)) }
        ensures lost { IfErr result (λ held. (held.by ≢ pass.old.by) × (held.by < self.now.callers)
            × (pass.new ≡ with_claim_lost part held.by pass.old)) }
    {
        let value = claim::<O>(&self.table, &mut pass.seat, pass.by, part)?;
        pass.hand.put(part, value);
        put_first(&mut pass.order, part);
        Ok(())
    }

    /// Gives back a part that the pass holds, as it was taken or committed. It takes least time where that part was
    /// taken last.
    pub fn give(&self, pass: &mut Pass<O>, part: u32)
        requires table { pass.old.table ≡ self.now }
        requires hand { IsInHand pass.old }
        requires held { is_some (held_at pass.old.taken part) ≡ true }
        requires unchanged { held_at pass.old.hand part ≡ held_at pass.old.taken part }
        ensures given { pass.new ≡ without_part part pass.old }
    {
        let Some(value) = pass.hand.take(part) else {
            unreachable!()
        };
        let place = place_of(pass.order.as_slice(), part);
        bring::<O>(&mut pass.seat, &mut pass.order, place);
        pass.order.remove(0);
        release::<O>(&self.table, &mut pass.seat, part, value);
        turn_back::<O>(&mut pass.seat, &mut pass.order, place);
    }
}
