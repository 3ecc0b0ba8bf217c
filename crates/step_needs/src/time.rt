//! What is needed by time that goes by, once the clock, the event conditions and the semaphores are held.

ghost use Rattle.std.specs.Prelude.{◌≡◌, ◌≢◌, ℕ, ◌+◌, ◌≤◌, ◌++◌, None, IfOk, IfNone, IfSome, OnErr, OnSome, length};
ghost use Rattle.part_table.specs.Held.{held_at};
ghost use Rattle.parted_state.specs.Sets.{IsSetOf};
ghost use Rattle.mms_types.specs.Moments.{IsDated};
ghost use Rattle.event_cond.specs.Skips.{any_due};
ghost use Rattle.sem_ticks.specs.Ticks.{ticked};
ghost use Rattle.cell_ticks.specs.Deadlines.{next_due};
ghost use Rattle.cell_ticks.specs.Meant.{state_of};
ghost use Rattle.cell_ticks.specs.Ticks.{aborted};
ghost use Rattle.cell_services.specs.Serving.{abort_asks, evaluation_asks};
ghost use Rattle.cell_services.specs.Tables.{last_moment};
ghost use Rattle.step_parts.specs.Needs.{placed, time_need};
ghost use Rattle.step_parts.specs.Partition.{clients_among, clock_in, clock_place, events_in, events_place, semaphores_in, semaphores_place};
ghost use Rattle.step_needs.specs.Coming.{AreTold, IsComing, IsDue, comes, says};

use crate::heard::untold;
use cell_services::{CellsOf, happened_to, is_lossy, told_meanwhile};
use cell_ticks::{DeviceTicked, tick_told};
use mms_time::Semaphores;
use mms_types::{Memory, Moment};
use part_table::Hand;
use parted_state::Parts;
use sem_ticks::{Happening, tick};
use serve_events::EventTables;
use std::alloc::Global;
use step_parts::Cell;
use step_parts::held::now_held;
use step_parts::slots::shown;
use step_parts::tables::{DOMAINS, EVENTS, JOURNALS, VARIABLES, semaphores};

/// What a moment that comes is looked at by: the parts that are held, the semaphores and event conditions among them,
/// and the moment.
#[derive(Clone, Copy)]
pub(crate) struct Coming<'a> {
    pub(crate) alloc: Global,
    pub(crate) held: &'a Hand<Cell>,
    pub(crate) semaphores: &'a Semaphores,
    pub(crate) events: &'a EventTables,
    pub(crate) until: Moment,
}

/// The parts of further tables that time uses: those of a client that is lost by what happened to semaphores, and the
/// variables where a condition is evaluated.
fn time_asks(happened: &[Happening], is_due: bool) -> Parts
    ensures { (n : ℕ) → IsSetOf result (placed n
        (evaluation_asks is_due ++ abort_asks (aborted happened.now))) }
{
    if is_lossy(happened) {
        Parts::of(&[VARIABLES, DOMAINS, JOURNALS])
    } else if is_due {
        Parts::of(&[VARIABLES])
    } else {
        Parts::new()
    }
}

impl Coming<'_> {
    /// What happens, where a deadline is due by then, as the variables show it that are held.
    fn met(self) -> Result<Option<DeviceTicked>, Memory>
        requires { IsDated self.until }
        ensures met { IfOk result (λ met. IfSome met (λ t. state_of (says self.entry)
            self.entry.until t self.entry.semaphores.now self.entry.events.now.conditions
            self.entry.events.now.enrolments ≡ comes self.entry)) }
        ensures none { IfOk result (λ met. IfNone met (next_due self.entry.until
            self.entry.semaphores.now self.entry.events.now.conditions ≡ None)) }
        ensures some { IfOk result (λ met. OnSome met (IsDue self.entry)) }
        ensures wants { OnErr result (IsDue self.entry) }
    {
        let variables = shown(self.alloc, self.held, VARIABLES);
        let cells = CellsOf {
            variables: variables.get(),
        };
        tick_told(
            self.alloc,
            self.semaphores,
            &self.events.conditions,
            &self.events.enrolments,
            &cells,
            self.until,
        )
    }

    /// The clients that are told of what happens, where conditions are evaluated.
    fn told_met(self) -> Result<Vec<u32>, Memory>
        requires { IsDated self.until }
        ensures told { IfOk result (λ clients. AreTold self.entry clients.items) }
        ensures wants { OnErr result (IsDue self.entry) }
    {
        match self.met()? {
            None => Ok(Vec::new(self.alloc)),
            Some(ticked) => told_meanwhile(self.alloc, &ticked.happened),
        }
    }

    /// The clients that are told of what happens, by what happened to semaphores and whether any condition is
    /// evaluated: if none is, nobody else is told anything.
    fn told(self, is_due: bool, happened: &[Happening]) -> Result<Vec<u32>, Memory>
        requires dated { IsDated self.until }
        requires due { is_due ≡ any_due self.until self.events.now.conditions }
        requires happened { happened.now ≡ (ticked self.until self.semaphores.now).happened }
        ensures told { IfOk result (λ clients. AreTold self.entry clients.items) }
        ensures wants { OnErr result (IsDue self.entry) }
    {
        if is_due {
            self.told_met()
        } else {
            happened_to(self.alloc, happened)
        }
    }

    /// What happens to semaphores. Where no deadline is due, none is copied.
    #[tactic(auto, using(crate::proofs::Asked::nothing_due, crate::proofs::Asked::due_on_device))]
    fn happening(self) -> Result<Vec<Happening>, Memory>
        requires { IsDated self.until }
        ensures happened { IfOk result (λ happened.
            happened.items ≡ (ticked self.entry.until self.entry.semaphores.now).happened) }
        ensures wants { OnErr result (IsDue self.entry) }
    {
        match tick(self.alloc, self.semaphores, self.until)? {
            None => Ok(Vec::new(self.alloc)),
            Some(ticked) => Ok(ticked.happened),
        }
    }

    /// What is needed.
    fn need(self, clients: u32) -> Result<Parts, Memory>
        requires few { clients ≤ 64 }
        requires dated { IsDated self.until }
        ensures need { IfOk result (λ parts. (ms : ℕ) → IsComing self.entry clients ms
            → IsSetOf parts (time_need clients self.entry.held.now ms)) }
        ensures wants { OnErr result (IsDue self.entry) }
    {
        let is_due = self.events.conditions.is_due(self.until);
        let happened = self.happening()?;
        let missing = time_asks(&happened, is_due).missing(self.held);
        if !missing.is_empty() {
            return Ok(missing);
        }
        let told = self.told(is_due, &happened)?;
        Ok(untold(&told, clients, self.held))
    }
}

/// What is needed by so many milliseconds that go by. The one refusal is want of memory, only where a deadline of what
/// is held is due then.
pub(crate) fn need_time(
    alloc: Global,
    clients: u32,
    held: &Hand<Cell>,
    ms: u32,
) -> Result<Parts, Memory>
    requires many { clients ≡ clients_among (length held.now) }
    requires few { clients ≤ 64 }
    requires time { clock_in (held_at held.now clock_place) + ms ≤ last_moment }
    ensures need { IfOk result (λ parts. IsSetOf parts (time_need clients held.now ms)) }
    ensures wants { OnErr result (next_due
        (record { 0 = clock_in (held_at held.now clock_place) + ms })
        (semaphores_in (held_at held.now (semaphores_place clients)))
        (events_in (held_at held.now events_place)).conditions ≢ None) }
{
    let rows = shown(alloc, held, semaphores(clients));
    let events = shown(alloc, held, EVENTS);
    let coming = Coming {
        alloc,
        held,
        semaphores: rows.get(),
        events: events.get(),
        until: Moment(now_held(held).0 + u64::from(ms)),
    };
    coming.need(clients)
}
