//! An example of an object in parts, and of callers of its table. The parts are numbers, and an event
//! moves an amount between two parts that it names. A part whose number is odd adds the third part
//! to what the event touches, so that a caller learns what it has to take while it holds parts.
ghost use Rattle.std.specs.Prelude.{◌≡◌, ◌≢◌, ◌+◌, ◌-◌, ◌^◌, ◌<◌, ◌≤◌, ◌++◌, ◌∷◌, ◌⊎◌, [], true, ℕ, List, None, Some, IfOk, IfErr, OnErr, is_some, length, map, slice_get, slice_set};
ghost use Rattle.std.specs.List.{range_with_len};
ghost use Rattle.part_table.specs.Amounts.{IsShown, IsTaking, IsTouched, can_move, holds_touched, moved, with_move, moved_in_hand, target, target_in_hand};
ghost use Rattle.part_table.specs.Held.{held_at};
ghost use Rattle.part_table.specs.History.{StartsWith, replayed};
ghost use Rattle.part_table.specs.Known.{HoldsNothing, newcomer, nothing, with_claim_lost};

use crate::{
    Hand, Held, Memory, Object, PartTable, Pass, a_pass_has_a_place_for_each_part,
    a_pass_has_its_parts_in_order,
};
use std::alloc::Global;

/// An example of an object: numbers of 64 bits, each of them a part. An event moves an amount.
pub struct Amounts;

/// A move of an amount from one part to another, by the caller of that number, who alone may make
/// it. Where one of the two numbers is odd, the amount goes to the third part. It stays where it is
/// if it has nowhere else to go, if it is more than there is, or if there is no room for it.
#[derive(Clone, Copy)]
pub struct Move {
    /// The caller.
    pub by: u32,
    /// The part that the amount leaves.
    pub from: u32,
    /// The part to which it goes, unless it goes to the third.
    pub to: u32,
    /// How much is moved.
    pub amount: u64,
}

impl Object for Amounts {
    ghost use Rattle.std.specs.Prelude.{◌≡◌};
    ghost use Rattle.part_table.specs.Amounts.{holds_touched, moved, moved_in_hand, move_is_laid_over, move_keeps_places};

    type Part = u64;

    type Event = Move;

    ghost step = { moved };

    ghost suffices = { holds_touched };

    ghost after = { moved_in_hand };

    ghost may_make = { λ caller move. caller ≡ move.by };

    ghost same_parts = { λ move hand numbers of touched. move_keeps_places move hand touched };

    ghost stepped = { λ move hand numbers of touched. move_is_laid_over move hand numbers of touched };
}

/// A table of these numbers, and the passes of its callers, in the order of their numbers. Each
/// caller has a quota of commits.
///
/// There are 1 to 256 numbers and 1 to 65 callers, and the quota is at most 2^40. The error is want
/// of memory.
pub fn table_of(
    alloc: Global,
    numbers: &[u64],
    callers: u32,
    quota: u64,
) -> Result<(PartTable<Amounts>, Vec<Pass<Amounts>>), Memory>
    requires numbers { (1 ≤ length numbers.now) × (length numbers.now ≤ 256) }
    requires callers { (1 ≤ callers) × (callers ≤ 65) }
    requires quota { quota ≤ 2 ^ 40 }
    ensures table { IfOk result (λ made. (made.0.opening ≡ numbers.now) × (made.0.callers ≡ callers)
        × (made.0.quota ≡ quota)) }
    ensures passes { IfOk result (λ made. made.1.items
        ≡ map (newcomer made.0) (range_with_len 0 callers)) }
{
    let mut parts = Vec::with_capacity(alloc, numbers.len())?;
    for number in numbers {
        parts.push_reserved(Box::new(alloc, *number)?);
    }
    PartTable::new(alloc, parts, callers, quota)
}

/// Takes a part, reads its number and gives it back. The answer is the number after the history that
/// the pass then knows.
///
/// The error is that another caller holds the part, and is noted among the claims lost. Nothing else
/// of the pass changes.
pub fn visit(table: &PartTable<Amounts>, pass: &mut Pass<Amounts>, part: u32) -> Result<u64, Held>
    requires table { pass.old.table ≡ table.now }
    requires hand { pass.old.hand ≡ pass.old.taken }
    requires part { part < length table.now.opening }
    requires free { held_at pass.old.taken part ≡ None }
    ensures number { IfOk result (λ number. slice_get
        (replayed moved table.now.opening pass.new.seen) part ≡ Some number) }
    ensures seen { IfOk result (λ _. (pass.new ≡ record pass.old { seen = pass.new.seen })
        × StartsWith pass.new.seen pass.old.seen) }
    ensures lost { IfErr result (λ held. (held.by ≢ pass.old.by)
        × (pass.new ≡ with_claim_lost part held.by pass.old)) }
{
    a_pass_has_a_place_for_each_part(pass);
    a_pass_has_its_parts_in_order(pass);
    table.try_take(pass, part)?;
    let Some(number) = pass.hand().get(part).copied() else {
        unreachable!()
    };
    table.see(pass);
    table.give(pass, part);
    Ok(number)
}

/// Takes a part, unless the pass holds it already.
///
/// The error is that another caller holds the part, and is noted among the claims lost. All that the
/// pass held stays held as it was.
pub fn take(table: &PartTable<Amounts>, pass: &mut Pass<Amounts>, part: u32) -> Result<(), Held>
    requires table { pass.old.table ≡ table.now }
    requires hand { pass.old.hand ≡ pass.old.taken }
    requires part { part < length table.now.opening }
    ensures held { IfOk result (λ _. (is_some (held_at pass.new.taken part) ≡ true)
        × (pass.new.lost ≡ pass.old.lost)) }
    ensures lost { IfErr result (λ held. (held.by ≢ pass.old.by)
        × (pass.new ≡ with_claim_lost part held.by pass.old)) }
    ensures others { (i : ℕ) (x : ℕ) → held_at pass.old.taken i ≡ Some x
        → held_at pass.new.taken i ≡ Some x }
    ensures hand { pass.new.hand ≡ pass.new.taken }
    ensures kept { IsTaking pass.old pass.new }
{
    if pass.hand().holds(part) {
        return Ok(());
    }
    a_pass_has_a_place_for_each_part(pass);
    table.try_take(pass, part)
}

/// Gives back all parts that the pass holds, of that many parts of the table. Nothing else of the
/// pass changes.
pub fn give_all(table: &PartTable<Amounts>, pass: &mut Pass<Amounts>, parts: u32)
    requires table { pass.old.table ≡ table.now }
    requires hand { pass.old.hand ≡ pass.old.taken }
    requires parts { parts ≡ length table.now.opening }
    ensures { pass.new ≡ record pass.old
        { taken = nothing parts; hand = nothing parts; order = [] } }
{
    for part in 0..parts {
        if pass.hand().holds(part) {
            table.give(pass, part);
        }
    }
    a_pass_has_a_place_for_each_part(pass);
    a_pass_has_its_parts_in_order(pass);
}

/// Where an amount goes from a part with the number a, that was to go to one with the number b.
fn target_of(a: u64, b: u64, named: u32) -> u32
    ensures { result ≡ target a b named }
{
    if a % 2 == 1 || b % 2 == 1 { 2 } else { named }
}

/// Whether an amount can go from a part with the number a to one with the number b.
fn is_movable(amount: u64, source: u32, a: u64, to: u32, b: u64) -> bool
    ensures { result ≡ can_move amount source a to b }
{
    source != to && (amount <= a && b <= u64::MAX - amount)
}

/// Writes the number of a part that is held.
fn set_number(hand: &mut Hand<Amounts>, part: u32, number: u64)
    requires held { is_some (held_at hand.old part) ≡ true }
    ensures { hand.new ≡ slice_set hand.old part (Some number) }
{
    if let Some(place) = hand.get_mut(part) {
        *place = number;
    }
}

/// The step of a move on the numbers that are held. Nothing is changed where the amount can't go.
pub fn move_amount(hand: &mut Hand<Amounts>, event: &Move)
    requires touched { holds_touched event.now hand.old }
    ensures { hand.new ≡ moved_in_hand event.now hand.old }
{
    let Some(a) = hand.get(event.from).copied() else {
        unreachable!()
    };
    let Some(b) = hand.get(event.to).copied() else {
        unreachable!()
    };
    let to = target_of(a, b, event.to);
    let Some(c) = hand.get(to).copied() else {
        unreachable!()
    };
    if is_movable(event.amount, event.from, a, to, c) {
        set_number(hand, event.from, a - event.amount);
        set_number(hand, to, c + event.amount);
    }
}

/// Takes the part to which the amount goes, which shows while the two that are named are held.
fn take_target(
    table: &PartTable<Amounts>,
    pass: &mut Pass<Amounts>,
    event: &Move,
) -> Result<(), Held>
    requires table { pass.old.table ≡ table.now }
    requires hand { pass.old.hand ≡ pass.old.taken }
    requires parts { (2 < length table.now.opening) × (event.now.to < length table.now.opening) }
    requires source { is_some (held_at pass.old.taken event.now.from) ≡ true }
    requires named { is_some (held_at pass.old.taken event.now.to) ≡ true }
    ensures touched { IfOk result (λ _. holds_touched event.now pass.new.taken
        × (pass.new.lost ≡ pass.old.lost)) }
    ensures lost { IfErr result (λ held. (held.by ≢ pass.old.by)
        × (pass.new ≡ with_claim_lost (target_in_hand event.now pass.old.taken) held.by pass.old)) }
    ensures others { (i : ℕ) (x : ℕ) → held_at pass.old.taken i ≡ Some x
        → held_at pass.new.taken i ≡ Some x }
    ensures hand { pass.new.hand ≡ pass.new.taken }
    ensures kept { IsTaking pass.old pass.new }
{
    let Some(a) = pass.hand().get(event.from).copied() else {
        unreachable!()
    };
    let Some(b) = pass.hand().get(event.to).copied() else {
        unreachable!()
    };
    take(table, pass, target_of(a, b, event.to))
}

/// Takes all parts that an event touches.
///
/// The error is that another caller holds one of them, the first that was met, and is noted among the
/// claims lost. The pass keeps the parts that it took before it. All that the pass held stays held as
/// it was.
pub fn take_touched(
    table: &PartTable<Amounts>,
    pass: &mut Pass<Amounts>,
    event: &Move,
) -> Result<(), Held>
    requires table { pass.old.table ≡ table.now }
    requires hand { pass.old.hand ≡ pass.old.taken }
    requires parts { (2 < length table.now.opening) × (event.now.from < length table.now.opening)
        × (event.now.to < length table.now.opening) }
    ensures touched { IfOk result (λ _. holds_touched event.now pass.new.taken
        × (pass.new.lost ≡ pass.old.lost)) }
    ensures lost { IfErr result (λ held. (held.by ≢ pass.old.by)
        × ((part : ℕ) × IsShown event.now pass.new.taken part
        × (pass.new.lost ≡ pass.old.lost ++ (part, held.by) ∷ []))) }
    ensures others { (i : ℕ) (x : ℕ) → held_at pass.old.taken i ≡ Some x
        → held_at pass.new.taken i ≡ Some x }
    ensures hand { pass.new.hand ≡ pass.new.taken }
    ensures kept { IsTaking pass.old pass.new }
{
    take(table, pass, event.from)?;
    take(table, pass, event.to)?;
    take_target(table, pass, event)
}

/// Makes an event by a pass that holds nothing, of a table of that many parts: takes what it touches,
/// steps, commits and gives all back. The answer is the event's place in the history.
///
/// The error is that another caller holds one of these parts, as the history that the pass then knows
/// tells them, and is noted among the claims lost. Nothing else of the pass changes.
pub fn make(
    table: &PartTable<Amounts>,
    pass: &mut Pass<Amounts>,
    event: &Move,
    parts: u32,
) -> Result<u64, Held>
    requires table { pass.old.table ≡ table.now }
    requires idle { HoldsNothing pass.old }
    requires parts { (parts ≡ length table.now.opening) × (3 ≤ parts) }
    requires event { (event.now.by ≡ pass.old.by) × (event.now.from < parts)
        × (event.now.to < parts) }
    requires left { 0 < pass.old.left }
    ensures made { IfOk result (λ place. (h : List (ℕ × Move))
        × (pass.new ≡ with_move h event.now place pass.old)
        × StartsWith h pass.old.seen × (place ≡ length h + 1)) }
    ensures lost { IfErr result (λ held. (held.by ≢ pass.old.by)
        × ((part : ℕ) × IsTouched event.now (replayed moved table.now.opening pass.new.seen) part
        × (pass.new ≡ record (with_claim_lost part held.by pass.old) { seen = pass.new.seen }))) }
    ensures known { OnErr result (StartsWith pass.new.seen pass.old.seen) }
{
    if let Err(held) = take_touched(table, pass, event) {
        table.see(pass);
        give_all(table, pass, parts);
        return Err(held);
    }
    move_amount(pass.hand_mut(), event);
    let place = table.commit(pass, event);
    give_all(table, pass, parts);
    Ok(place)
}

/// How many tries a caller makes at most.
const TRIES: u32 = 100_000_000;

/// Makes as many events as said by a pass that holds nothing, of a table of that many parts, and
/// answers how many it made. It tries on where another caller holds a part, and makes fewer only where
/// no commit is left or after 100,000,000 tries, of which each made an event or lost a claim.
pub fn serve(
    table: &PartTable<Amounts>,
    mut pass: Pass<Amounts>,
    by: u32,
    parts: u32,
    events: u32,
) -> (Pass<Amounts>, u32)
    requires table { pass.table ≡ table.now }
    requires idle { HoldsNothing pass }
    requires parts { (parts ≡ length table.now.opening) × (3 ≤ parts) }
    requires by { by ≡ pass.by }
    ensures table { (result.0.table ≡ table.now) × (result.0.by ≡ by) }
    ensures idle { HoldsNothing result.0 }
    ensures made { (length result.0.own ≡ length pass.own + result.1)
        × (result.0.left + result.1 ≡ pass.left) × (result.1 ≤ events) }
    ensures tries { (result.1 ≡ events)
        ⊎ ((result.0.left ≡ 0) ⊎ (length result.0.lost + result.1 ≡ length pass.lost + 100000000)) }
{
    let mut made = 0;
    for turn in 0..TRIES {
        if made >= events || pass.left() == 0 {
            break;
        }
        let event = Move {
            by,
            from: turn % parts,
            to: (turn / parts) % parts,
            amount: u64::from(turn % 4),
        };
        if make(table, &mut pass, &event, parts).is_ok() {
            made += 1;
        }
    }
    (pass, made)
}
