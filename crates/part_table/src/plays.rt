//! What steps tell, and how views are cut and joined.
use crate::object::Object;
use crate::view::{Key, View};
use atomic_table::{Join, Play, Split, TableRule};
use std::marker::{Brand, PhantomData};

/// The rule of the table.
pub struct Law<O> {
    marker: PhantomData<O>,
}

impl<O: Object> TableRule<Option<Box<O::Part>>, View<O::Part, O::Event>, Key<O::Part>> for Law<O> {
    ghost use Rattle.std.specs.Box.{box_value};
    ghost use Rattle.part_table.specs.Plays.{founder};
    ghost use Rattle.part_table.specs.Rule.{Kept, setting_of};

    ghost holds = { λ key. Kept box_value O.step O.may_make (setting_of key) };

    ghost first = { founder };
}

/// A part is claimed.
pub(crate) struct Claim;

impl<T, E> Play<Option<Box<T>>, View<T, E>> for Claim {
    ghost use Rattle.std.specs.Box.{box_value};
    ghost use Rattle.part_table.specs.Plays.{Claims};

    ghost then = { Claims box_value };
}

/// A part is given back.
pub(crate) struct Give;

impl<T, E> Play<Option<Box<T>>, View<T, E>> for Give {
    ghost use Rattle.part_table.specs.Plays.{Gives};

    ghost then = { Gives };
}

/// The first number of a view goes to a new one.
pub(crate) struct First;

impl<T, E> Split<View<T, E>> for First {
    ghost use Rattle.part_table.specs.Plays.{with_first, without_first};

    ghost left = { without_first };

    ghost right = { with_first };
}

/// The history so far is seen.
pub(crate) struct See<O> {
    marker: PhantomData<O>,
}

impl<O: Object> Play<Option<Box<O::Part>>, View<O::Part, O::Event>> for See<O> {
    ghost use Rattle.part_table.specs.Plays.{Sees};

    ghost then = { Sees O.step O.may_make };
}

/// Which event a commit adds. Each call picks it, since a step is told nothing of its caller.
pub trait Chosen<E> {
    ghost use Rattle.std.specs.Prelude.{List};

    ghost chosen: { List E };
}

impl<E> Chosen<E> for Brand {
    ghost use Rattle.std.specs.Prelude.{[]};

    ghost chosen = { [] };
}

/// An event is added to the history.
pub(crate) struct Commit<O, C> {
    marker: PhantomData<(O, C)>,
}

impl<O: Object, C: Chosen<O::Event>> Play<Option<Box<O::Part>>, View<O::Part, O::Event>>
    for Commit<O, C> {
    ghost use Rattle.std.specs.Prelude.{◌≡◌, [], ◌∷◌};
    ghost use Rattle.part_table.specs.Plays.{Commits};

    ghost then = { λ st m found w. (e : O.Event) → C.chosen ≡ e ∷ [] → Commits O.step O.may_make O.after e st m found w };
}

/// A note is made of what a seat has seen, or one seat takes in another.
pub(crate) struct Notes;

impl<T, E> Split<View<T, E>> for Notes {
    ghost use Rattle.part_table.specs.Plays.{note_of};

    ghost left = { λ v. v };

    ghost right = { note_of };
}

impl<T, E> Join<View<T, E>> for Notes {
    ghost use Rattle.part_table.specs.Plays.{joined, spent};

    ghost both = { joined };

    ghost spent = { spent };
}
