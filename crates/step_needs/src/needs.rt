//! Which parts an event needs.

ghost use Rattle.std.specs.Prelude.{◌≡◌, ℕ, ◌≤◌, [], true, length, IfOk, OnErr};
ghost use Rattle.mms_types.specs.Actors.{IsAmong};
ghost use Rattle.part_table.specs.Held.{held_at, IsHandOf};
ghost use Rattle.parted_state.specs.Cut.{missing};
ghost use Rattle.parted_state.specs.Sets.{IsSetOf};
ghost use Rattle.cell_client.specs.Reads.{IsReadingOf, kept_wants_memory};
ghost use Rattle.step_parts.specs.State.{State, IsSound};
ghost use Rattle.step_parts.specs.Partition.{clients_among, clock_in, clock_place, parts_of};
ghost use Rattle.step_parts.specs.Needs.{footprint, need};
ghost use Rattle.step_parts.specs.Step.{IsInTime};
ghost use Rattle.step_parts.specs.Found.{IsFoundOf, IsFoundWhereRead};

use crate::heard::Sight;
use crate::time::need_time;
use cell_client::{Found, Reading, verdict_of};
use mms_types::{CellEvent, Memory};
use part_table::Hand;
use parted_state::Parts;
use std::alloc::Global;
use step_parts::Cell;
use step_parts::held::{client_held, part_held};
use step_parts::tables::{BEFORE_CLIENTS, CLOCK, EVENTS, PROGRAMS, clients_of, semaphores};

/// The parts that an event's words alone tell, with so many clients.
pub fn footprint(event: &CellEvent, clients: u32) -> Parts
    requires some { 1 ≤ clients }
    requires few { clients ≤ 64 }
    requires among { IsAmong clients event.now }
    ensures { IsSetOf result (footprint clients event.now) }
{
    match event {
        CellEvent::Heard { client, .. }
        | CellEvent::Lost { client }
        | CellEvent::Drain { client } => Parts::of(&[(BEFORE_CLIENTS + *client) as u8]),
        CellEvent::Tick { .. } => Parts::of(&[CLOCK, EVENTS, semaphores(clients)]),
        CellEvent::Ends { .. } => Parts::of(&[PROGRAMS]),
    }
}

/// What the words of an event, once the parts are held that they tell, and these parts need.
fn need_more(
    alloc: Global,
    event: &CellEvent,
    found: &Option<Found<'_>>,
    clients: u32,
    held: &Hand<Cell>,
) -> Result<Parts, Memory>
    requires of { (s : State) × ((count : ℕ) × IsSound count s) × IsHandOf held.now (parts_of s) }
    requires found { IsFoundOf found.now event.now held.now }
    requires clients { clients ≡ clients_among (length held.now) }
    requires among { IsAmong clients event.now }
    requires words { missing held.now (footprint clients event.now) ≡ [] }
    requires time { IsInTime (clock_in (held_at held.now clock_place)) event.now }
    ensures { IfOk result (λ parts. IsSetOf parts (need event.now held.now)) }
{
    match event {
        CellEvent::Heard { client, octets } => {
            let part = client_held(held, *client);
            let sight = Sight {
                alloc,
                clients,
                held,
                part,
            };
            sight.heard_need(octets.as_slice(), found)
        }
        CellEvent::Lost { client } => {
            let part = client_held(held, *client);
            Sight {
                alloc,
                clients,
                held,
                part,
            }
            .lost_need()
        }
        CellEvent::Tick { ms } => need_time(alloc, clients, held, *ms),
        CellEvent::Ends { .. } => Ok(Parts::new()),
        CellEvent::Drain { .. } => Ok(Parts::new()),
    }
}

/// What the octets of an event come to, by the part of its client as it is held: a verdict, which is found once for all
/// that the event needs and for its step. None where the event has no octets, where that part isn't held, and where
/// they were read by another edition than that of the client. The one refusal is that memory was wanting to read them.
pub fn verdict<'a>(
    event: &CellEvent,
    reading: &'a Reading,
    held: &Hand<Cell>,
) -> Result<Option<Found<'a>>, Memory>
    requires reading { IsReadingOf reading.now event.now }
    requires among { IsAmong 64 event.now }
    ensures found { IfOk result (λ found. IsFoundOf found event.now held.now) }
    ensures read { IfOk result (λ found. IsFoundWhereRead found reading.now event.now held.now) }
    ensures wants { OnErr result (kept_wants_memory reading.now ≡ true) }
{
    let CellEvent::Heard { client, .. } = event else {
        return Ok(None);
    };
    let Some(part) = part_held(held, *client) else {
        return Ok(None);
    };
    match reading.by(part.constants().edition) {
        None => Ok(None),
        Some(read) => Ok(Some(verdict_of(part, read)?)),
    }
}

/// The parts that the event's words and the held parts show to be needed, and that are not held. With parts of one
/// state, more held parts show at least as much. `held` are parts of a state of the device, and a client of the event
/// is one of its clients; a tick from a clock that is held ends no later than the last moment. `found` is what the
/// octets of the event come to, by the part of its client that is held; where nothing is found they are read here.
pub fn need_by(
    alloc: Global,
    event: &CellEvent,
    found: &Option<Found<'_>>,
    held: &Hand<Cell>,
) -> Result<Parts, Memory>
    requires of { (s : State) × ((count : ℕ) × IsSound count s) × IsHandOf held.now (parts_of s) }
    requires found { IsFoundOf found.now event.now held.now }
    requires among { IsAmong (clients_among (length held.now)) event.now }
    requires time { IsInTime (clock_in (held_at held.now clock_place)) event.now }
    ensures { IfOk result (λ parts. IsSetOf parts (need event.now held.now)) }
{
    let clients = clients_of(held);
    let missing = footprint(event, clients).missing(held);
    if missing.is_empty() {
        need_more(alloc, event, found, clients, held)
    } else {
        Ok(missing)
    }
}

/// The parts that the event's words and the held parts show to be needed, and that are not held, as `need_by` where
/// nothing is found.
pub fn need(alloc: Global, event: &CellEvent, held: &Hand<Cell>) -> Result<Parts, Memory>
    requires of { (s : State) × ((count : ℕ) × IsSound count s) × IsHandOf held.now (parts_of s) }
    requires among { IsAmong (clients_among (length held.now)) event.now }
    requires time { IsInTime (clock_in (held_at held.now clock_place)) event.now }
    ensures { IfOk result (λ parts. IsSetOf parts (need event.now held.now)) }
{
    need_by(alloc, event, &None, held)
}
