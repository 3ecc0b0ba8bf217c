//! Tables that are parts: of whichever table, its part in its place.

ghost use Rattle.std.specs.Prelude.{◌≡◌, ◌<◌, is_some, length, refl, slice_set, true, None, Some};
ghost use Rattle.std.specs.Option.{option_map};
ghost use Rattle.part_table.specs.Held.{held_at};
ghost use Rattle.parted_state.specs.Served.{change};
ghost use Rattle.step_parts.specs.Slots.{over, shown_by, Slot};

use crate::{Cell, Part};
use cell_services::Clock;
use mms_journal::Journals;
use mms_time::Semaphores;
use mms_types::Moment;
use part_table::Hand;
use program_inv::Programs;
use serve_domains::DomainTables;
use serve_events::EventTables;
use std::alloc::Global;
use std::mem;
use variable_services::VariableTables;

/// A table as it is shown: that which is held, or an empty one where none is.
pub enum ShownTable<'a, T: Drop> {
    /// It is held.
    Held(&'a T),
    /// It isn't.
    Empty(T),
}

impl<T: Drop> Drop for ShownTable<'_, T> {
    fn drop(self) {
        match self {
            ShownTable::Held(_) => {}
            ShownTable::Empty(_table) => {}
        }
    }
}

impl<T: Drop> ShownTable<'_, T> {
    /// The table.
    pub fn get(&self) -> &T
        ensures { result.now ≡ shown_by self.now }
    {
        match self {
            ShownTable::Held(table) => *table,
            ShownTable::Empty(table) => table,
        }
    }
}

/// A table that is a part.
pub trait InPart: Sized + Drop {
    /// Its part, and what is shown of it.
    ghost slot: { Slot Self };

    /// An empty one.
    fn empty(alloc: Global) -> Self
        ensures { result ≡ slot.none };

    /// The table in a part, where it is one, and else an empty one.
    fn shown(alloc: Global, part: &Part) -> ShownTable<'_, Self>
        ensures { shown_by result ≡ slot.shown_or slot.none (Some part.now) };

    /// Exchanges the table with that in a part, where it is one.
    fn exchange(part: &mut Part, own: &mut Self)
        ensures part { part.new ≡ over (slot.wrap own.old) part.old }
        ensures own { own.new ≡ slot.shown_or own.old (Some part.old) };

    /// Where no part is held nothing is shown of it.
    ghost unheld: { (own : Self) → slot.shown_or own None ≡ own };
}

impl InPart for Clock {
    ghost use Rattle.step_parts.specs.Tabling.{clock_slot};

    ghost slot = { clock_slot };

    fn empty(_alloc: Global) -> Clock {
        Clock::new(Moment(0))
    }

    #[tactic(auto, using(crate::proofs::Tabling::clock_hides, crate::proofs::Tabling::clock_stays))]
    fn shown(alloc: Global, part: &Part) -> ShownTable<'_, Clock> {
        match part {
            Part::Clock(own) => ShownTable::Held(own),
            _ => ShownTable::Empty(Self::empty(alloc)),
        }
    }

    #[tactic(auto, using(crate::proofs::Tabling::clock_hides, crate::proofs::Tabling::clock_stays))]
    fn exchange(part: &mut Part, own: &mut Clock) {
        if let Part::Clock(there) = part {
            mem::swap(there, own);
        }
    }

    ghost unheld = { λ own. refl };
}

impl InPart for VariableTables {
    ghost use Rattle.step_parts.specs.Tabling.{variables_slot};

    ghost slot = { variables_slot };

    fn empty(alloc: Global) -> VariableTables {
        VariableTables::empty(alloc)
    }

    #[tactic(auto, using(crate::proofs::Tabling::variables_hides, crate::proofs::Tabling::variables_stays))]
    fn shown(alloc: Global, part: &Part) -> ShownTable<'_, VariableTables> {
        match part {
            Part::Variables(own) => ShownTable::Held(own),
            _ => ShownTable::Empty(Self::empty(alloc)),
        }
    }

    #[tactic(auto, using(crate::proofs::Tabling::variables_hides, crate::proofs::Tabling::variables_stays))]
    fn exchange(part: &mut Part, own: &mut VariableTables) {
        if let Part::Variables(there) = part {
            mem::swap(there, own);
        }
    }

    ghost unheld = { λ own. refl };
}

impl InPart for DomainTables {
    ghost use Rattle.step_parts.specs.Tabling.{domains_slot};

    ghost slot = { domains_slot };

    fn empty(alloc: Global) -> DomainTables {
        DomainTables::empty(alloc)
    }

    #[tactic(auto, using(crate::proofs::Tabling::domains_hides, crate::proofs::Tabling::domains_stays))]
    fn shown(alloc: Global, part: &Part) -> ShownTable<'_, DomainTables> {
        match part {
            Part::Domains(own) => ShownTable::Held(own),
            _ => ShownTable::Empty(Self::empty(alloc)),
        }
    }

    #[tactic(auto, using(crate::proofs::Tabling::domains_hides, crate::proofs::Tabling::domains_stays))]
    fn exchange(part: &mut Part, own: &mut DomainTables) {
        if let Part::Domains(there) = part {
            mem::swap(there, own);
        }
    }

    ghost unheld = { λ own. refl };
}

impl InPart for Programs {
    ghost use Rattle.step_parts.specs.Tabling.{programs_slot};

    ghost slot = { programs_slot };

    fn empty(alloc: Global) -> Programs {
        Programs::new(alloc)
    }

    #[tactic(auto, using(crate::proofs::Tabling::programs_hides, crate::proofs::Tabling::programs_stays))]
    fn shown(alloc: Global, part: &Part) -> ShownTable<'_, Programs> {
        match part {
            Part::Programs(own) => ShownTable::Held(own),
            _ => ShownTable::Empty(Self::empty(alloc)),
        }
    }

    #[tactic(auto, using(crate::proofs::Tabling::programs_hides, crate::proofs::Tabling::programs_stays))]
    fn exchange(part: &mut Part, own: &mut Programs) {
        if let Part::Programs(there) = part {
            mem::swap(there, own);
        }
    }

    ghost unheld = { λ own. refl };
}

impl InPart for EventTables {
    ghost use Rattle.step_parts.specs.Tabling.{events_slot};

    ghost slot = { events_slot };

    fn empty(alloc: Global) -> EventTables {
        EventTables::empty(alloc)
    }

    #[tactic(auto, using(crate::proofs::Tabling::events_hides, crate::proofs::Tabling::events_stays))]
    fn shown(alloc: Global, part: &Part) -> ShownTable<'_, EventTables> {
        match part {
            Part::Events(own) => ShownTable::Held(own),
            _ => ShownTable::Empty(Self::empty(alloc)),
        }
    }

    #[tactic(auto, using(crate::proofs::Tabling::events_hides, crate::proofs::Tabling::events_stays))]
    fn exchange(part: &mut Part, own: &mut EventTables) {
        if let Part::Events(there) = part {
            mem::swap(there, own);
        }
    }

    ghost unheld = { λ own. refl };
}

impl InPart for Journals {
    ghost use Rattle.step_parts.specs.Tabling.{journals_slot};

    ghost slot = { journals_slot };

    fn empty(alloc: Global) -> Journals {
        Journals::new(alloc)
    }

    #[tactic(auto, using(crate::proofs::Tabling::journals_hides, crate::proofs::Tabling::journals_stays))]
    fn shown(alloc: Global, part: &Part) -> ShownTable<'_, Journals> {
        match part {
            Part::Journals(own) => ShownTable::Held(own),
            _ => ShownTable::Empty(Self::empty(alloc)),
        }
    }

    #[tactic(auto, using(crate::proofs::Tabling::journals_hides, crate::proofs::Tabling::journals_stays))]
    fn exchange(part: &mut Part, own: &mut Journals) {
        if let Part::Journals(there) = part {
            mem::swap(there, own);
        }
    }

    ghost unheld = { λ own. refl };
}

impl InPart for Semaphores {
    ghost use Rattle.step_parts.specs.Tabling.{semaphores_slot};

    ghost slot = { semaphores_slot };

    fn empty(alloc: Global) -> Semaphores {
        Semaphores::new(alloc)
    }

    #[tactic(auto, using(crate::proofs::Tabling::semaphores_hides, crate::proofs::Tabling::semaphores_stays))]
    fn shown(alloc: Global, part: &Part) -> ShownTable<'_, Semaphores> {
        match part {
            Part::Semaphores(own) => ShownTable::Held(own),
            _ => ShownTable::Empty(Self::empty(alloc)),
        }
    }

    #[tactic(auto, using(crate::proofs::Tabling::semaphores_hides, crate::proofs::Tabling::semaphores_stays))]
    fn exchange(part: &mut Part, own: &mut Semaphores) {
        if let Part::Semaphores(there) = part {
            mem::swap(there, own);
        }
    }

    ghost unheld = { λ own. refl };
}

/// Exchanges a table with that of the part in a place, where it is held there.
pub fn exchange<T: InPart>(held: &mut Hand<Cell>, place: u32, own: &mut T)
    ensures part { held.new ≡ change (option_map (over (T.slot.wrap own.old))) held.old place }
    ensures own { own.new ≡ T.slot.shown_or own.old (held_at held.old place) }
{
    let Some(mut part) = held.take(place) else {
        return;
    };
    T::exchange(&mut part, own);
    held.put(place, part);
}

/// The table of the part in a place, where it is held there, and else an empty one.
pub fn shown<T: InPart>(alloc: Global, held: &Hand<Cell>, place: u8) -> ShownTable<'_, T>
    ensures { shown_by result ≡ T.slot.shown_or T.slot.none (held_at held.now place) }
{
    match held.get(u32::from(place)) {
        Some(part) => T::shown(alloc, part),
        None => ShownTable::Empty(T::empty(alloc)),
    }
}

/// Takes a part, which is held, out of its place.
pub fn take(held: &mut Hand<Cell>, place: u32) -> Box<Part>
    requires held { is_some (held_at held.old place) ≡ true }
    ensures part { Some result.value ≡ held_at held.old place }
    ensures left { held.new ≡ slice_set held.old place None }
    ensures place { place < length held.new }
{
    let Some(part) = held.take(place) else {
        unreachable!()
    };
    part
}

/// Puts a part into its place.
pub fn put(held: &mut Hand<Cell>, place: u32, part: Box<Part>)
    requires place { place < length held.old }
    ensures { held.new ≡ slice_set held.old place (Some part.value) }
{
    held.put(place, part);
}
