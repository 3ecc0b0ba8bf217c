ghost use Rattle.std.specs.Prelude.{◌≡◌, ◌++◌, ◌∷◌, ◌-◌, [], ℕ, true, length, take, drop, is_some, slice_get, None, Some, vec_len, vec_capacity, ◌<◌, ◌≤◌, IfNone, IfOk, IfSome};
ghost use Rattle.part_table.specs.Held.{held_at, unboxed};
ghost use Rattle.part_table.specs.Known.{IsTrueOf, newcomer, nothing};
ghost use Rattle.part_table.specs.Plays.{starting};
ghost use Rattle.part_table.specs.Passes.{empties, one_if_held, table_of, times};

use crate::hand::Hand;
use crate::memory::Memory;
use crate::object::Object;
use crate::view::View;
use atomic_table::Seat;
use std::alloc::Global;
use std::marker::Model;

/// A seat at the table.
pub(crate) type PartSeat<O> = Seat<
    Option<Box<<O as Object>::Part>>,
    View<<O as Object>::Part, <O as Object>::Event>,
>;

/// What a caller of a table knows and holds. Contracts see its table, the caller's number, the
/// history seen, the places of the caller's own events, the commits left, the claims lost, and the
/// parts held, each with its value as taken and its value as it is now, and their numbers, that of the
/// part taken last first.
#[derive(Drop)]
pub struct Pass<O: Object> {
    pub(crate) seat: PartSeat<O>,
    pub(crate) hand: Hand<O>,
    /// The parts held, the one taken last first: the order of the slots that are out with the seat.
    pub(crate) order: Vec<u32>,
    pub(crate) by: u32,
    pub(crate) left: u64,
}

impl<O: Object> Model for Pass<O> {
    ghost use Rattle.std.specs.Prelude.{vec_capacity};
    ghost use Rattle.part_table.specs.Known.{Known};

    ghost Value = { Known O.Part O.Event };

    ghost use Rattle.part_table.specs.Passes.{IsPass, known_with};

    ghost view = { λ p. known_with p.seat.table_id p.seat.me.0 p.hand p.order.items };

    ghost invariant = { λ p. IsPass O.may_make p.seat.table_id p.seat.me p.order.items (vec_capacity p.order) p.by p.left };
}

/// As many places, all empty.
fn empty_places<T: Drop>(alloc: Global, parts: usize) -> Result<Vec<Option<Box<T>>>, Memory>
    ensures { IfOk result (λ places. unboxed places.items ≡ nothing parts) }
{
    let mut places = Vec::with_capacity(alloc, parts)?;
    for _place in 0..parts {
        places.push_reserved(None);
    }
    Ok(places)
}

impl<O: Object> Pass<O> {
    /// The pass of a caller at the start, with its seat.
    pub(crate) fn of(
        alloc: Global,
        seat: PartSeat<O>,
        by: u32,
        quota: u64,
        parts: usize,
    ) -> Result<Pass<O>, Memory>
        requires seat { seat.me ≡ (
          starting seat.me.0.setting
              (record { number = by; own = []; left = quota } ∷ []),
          [],
        ) }
        requires told { (quota ≡ seat.me.0.setting.quota)
            × (parts ≡ length seat.me.0.setting.opening) }
        requires few { (parts ≤ 256) × (by < seat.me.0.setting.callers)
            × (seat.me.0.setting.callers ≤ 65) }
        ensures { IfOk result (λ pass. pass
            ≡ newcomer (table_of seat.table_id seat.me.0.setting) by) }
    {
        let hand = Hand::of(empty_places(alloc, parts)?);
        let order = Vec::with_capacity(alloc, parts)?;
        Ok(Pass {
            seat,
            hand,
            order,
            by,
            left: quota,
        })
    }

    /// The parts that the caller holds, as they are now.
    pub fn hand(&self) -> &Hand<O>
        ensures { result.now ≡ self.now.hand }
    {
        &self.hand
    }

    /// The caller's number.
    pub fn by(&self) -> u32
        ensures { result ≡ self.now.by }
    {
        self.by
    }

    /// The part that the caller took last of those that it holds, and None exactly where it holds none.
    pub fn last_taken(&self) -> Option<u32>
        ensures last { result ≡ slice_get self.now.order 0 }
        ensures held { IfSome result (λ part. is_some (held_at self.now.taken part) ≡ true) }
        ensures none { IfNone result ((part : ℕ) → held_at self.now.taken part ≡ None) }
    {
        self.order.first().copied()
    }

    /// How many commits the caller has left.
    pub fn left(&self) -> u64
        ensures { result ≡ self.now.left }
    {
        self.left
    }
}

/// What is true of each pass: of the history that it knows, the places that name its caller are
/// exactly its own, and each place names a caller of the table who may make its event.
pub fn a_pass_knows_its_own_places<O: Object>(pass: &Pass<O>)
    ensures { IsTrueOf O.may_make pass.now }
{
    let _ = &pass.by;
}

/// What is true of each pass: each part that it holds stands once among those in the order in which they were taken,
/// and no other does.
pub fn a_pass_has_its_parts_in_order<O: Object>(pass: &Pass<O>)
    ensures { (part : ℕ) → times part pass.now.order ≡ one_if_held (held_at pass.now.taken part) }
{
    let _ = &pass.by;
}

/// What is true of each pass: it has a place for each part of its table.
pub fn a_pass_has_a_place_for_each_part<O: Object>(pass: &Pass<O>)
    ensures { length pass.now.taken ≡ length pass.now.table.opening }
{
    let _ = &pass.by;
}

/// Turns the slots that are out until that of a part is the first.
pub(crate) fn bring<O: Object>(seat: &mut PartSeat<O>, order: &mut Vec<u32>, place: usize)
    requires slots { seat.old.me.1 ≡ empties order.old.items }
    requires place { place < length order.old.items }
    ensures seat { (seat.new.table_id ≡ seat.old.table_id) × (seat.new.id ≡ seat.old.id)
        × (seat.new.me.0 ≡ seat.old.me.0) }
    ensures slots { seat.new.me.1 ≡ empties order.new.items }
    ensures order { order.new.items ≡ drop place order.old.items ++ take place order.old.items }
    ensures room { vec_capacity order.new ≡ vec_capacity order.old }
{
    for _turn in 0..place {
        seat.turn();
    }
    order.rotate_left(place);
}

/// Turns the slots that are out as many places back, where they were brought forward by so many.
pub(crate) fn turn_back<O: Object>(seat: &mut PartSeat<O>, order: &mut Vec<u32>, place: usize)
    requires slots { seat.old.me.1 ≡ empties order.old.items }
    requires place { place ≤ length order.old.items }
    ensures seat { (seat.new.table_id ≡ seat.old.table_id) × (seat.new.id ≡ seat.old.id)
        × (seat.new.me.0 ≡ seat.old.me.0) }
    ensures slots { seat.new.me.1 ≡ empties order.new.items }
    ensures order { order.new.items ≡ drop (length order.old.items - place) order.old.items
        ++ take (length order.old.items - place) order.old.items }
    ensures room { vec_capacity order.new ≡ vec_capacity order.old }
{
    if place > 0 {
        let behind = order.len() - place;
        bring::<O>(seat, order, behind);
    }
}

/// Where the part stands in the order.
pub(crate) fn place_of(order: &[u32], part: u32) -> usize
    requires { times part order.now ≡ 1 }
    ensures { slice_get order.now result ≡ Some part }
{
    for (place, held) in order.iter().enumerate() {
        if *held == part {
            return place;
        }
    }
    unreachable!()
}

/// Puts a part before the others.
pub(crate) fn put_first(order: &mut Vec<u32>, part: u32)
    requires room { vec_len order.old < vec_capacity order.old }
    ensures items { order.new.items ≡ part ∷ order.old.items }
    ensures room { vec_capacity order.new ≡ vec_capacity order.old }
{
    let Ok(()) = order.insert(0, part) else {
        unreachable!()
    };
}
