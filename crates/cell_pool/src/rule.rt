//! The rule of the queue.
use crate::given::Given;
use crate::item::Item;
use crate::turn::Turn;
use crossbeam_queue::protocol::{Join, Lesson, Outcome, Protocol, Split};
use crossbeam_queue::{Pass, RuledArrayQueue};
use std::collections::LinkedList;

/// The places that a pass has put and taken, and its parts of the right to know the whole. No value
/// of it is made.
pub struct Hand {
    pub parts: u64,
    pub put: LinkedList<u64>,
    pub taken: LinkedList<u64>,
}

pub(crate) type Queue<T, C> = RuledArrayQueue<Item<T, C>, Hand, Fair>;

pub(crate) type Share<T, C> = Pass<Item<T, C>, Hand>;

pub(crate) struct Fair;

impl<T: Turn, C: Given<T::Job>> Protocol<Item<T, C>, Hand> for Fair {
    ghost use Rattle.std.specs.Prelude.{[]};
    ghost use Rattle.cell_pool.specs.Rule.{Balanced, Waits, hand};

    ghost holds = { Balanced (λ i. i.place) (λ i. Waits i.ended i.short) };

    ghost first = { hand 64 [] [] };
}

pub(crate) struct Cut;

impl Split<Hand> for Cut {
    ghost use Rattle.std.specs.Prelude.{◌-◌, []};
    ghost use Rattle.cell_pool.specs.Rule.{hand};

    ghost left = { λ v. hand (v.parts - 1) v.put v.taken };

    ghost right = { λ v. hand 1 [] [] };
}

impl Join<Hand> for Cut {
    ghost use Rattle.std.specs.Prelude.{◌+◌, ◌++◌, []};
    ghost use Rattle.cell_pool.specs.Rule.{hand};

    ghost both = { λ v w. hand (v.parts + w.parts) (v.put ++ w.put) (v.taken ++ w.taken) };

    ghost spent = { hand 0 [] [] };
}

pub(crate) struct Puts;

impl<T: Turn, C: Given<T::Job>> Outcome<Item<T, C>, Hand> for Puts {
    ghost use Rattle.std.specs.Prelude.{◌≡◌};
    ghost use Rattle.cell_pool.specs.Rule.{put_more};

    ghost then = { λ v x w. w ≡ put_more v x.place };
}

impl<T: Turn, C: Given<T::Job>> Lesson<Item<T, C>, Hand> for Puts {
    ghost use Rattle.std.specs.Prelude.{⊤};

    ghost fact = { λ v items. ⊤ };
}

pub(crate) struct Takes;

impl<T: Turn, C: Given<T::Job>> Outcome<Item<T, C>, Hand> for Takes {
    ghost use Rattle.std.specs.Prelude.{◌≡◌};
    ghost use Rattle.cell_pool.specs.Rule.{Waits, taken_more};

    ghost then = { λ v x w. (w ≡ taken_more v x.place) × Waits x.ended x.short };
}

impl<T: Turn, C: Given<T::Job>> Lesson<Item<T, C>, Hand> for Takes {
    ghost use Rattle.std.specs.Prelude.{⊤};

    ghost fact = { λ v items. ⊤ };
}

/// The steps of who has all parts, which learns from them.
pub(crate) struct All;

impl<T: Turn, C: Given<T::Job>> Outcome<Item<T, C>, Hand> for All {
    ghost use Rattle.std.specs.Prelude.{◌≡◌};
    ghost use Rattle.cell_pool.specs.Rule.{TakesNoMore, Waits, taken_more};

    ghost then = { λ v x w. (w ≡ taken_more v x.place) × TakesNoMore w × Waits x.ended x.short };
}

impl<T: Turn, C: Given<T::Job>> Lesson<Item<T, C>, Hand> for All {
    ghost use Rattle.cell_pool.specs.Rule.{KnowsAll};

    ghost fact = { KnowsAll (λ i. i.place) };
}

/// A push of who has all parts, which learns where it is refused.
pub(crate) struct Fills;

impl<T: Turn, C: Given<T::Job>> Outcome<Item<T, C>, Hand> for Fills {
    ghost use Rattle.std.specs.Prelude.{◌≡◌};
    ghost use Rattle.cell_pool.specs.Rule.{put_more};

    ghost then = { λ v x w. w ≡ put_more v x.place };
}

impl<T: Turn, C: Given<T::Job>> Lesson<Item<T, C>, Hand> for Fills {
    ghost use Rattle.cell_pool.specs.Rule.{KnowsAll};

    ghost fact = { KnowsAll (λ i. i.place) };
}
