//! The events that were served in a phase, in the order of their places.

ghost use Rattle.std.specs.Prelude.{◌≡◌, ◌<◌, ◌+◌, ◌-◌, ◌^◌, ◌⊎◌, ℕ, List, Option, None, Some, IfOk, length, map, slice_get, slice_set, vec_items};
ghost use Rattle.mms_types.specs.declared.event.CellEvent.{CellEvent as EventOf};
ghost use Rattle.mms_device.specs.Shared.{History, all_events};
ghost use Rattle.cell_record.specs.Report.{placed_from};
ghost use Rattle.cell_run.specs.Laying.{AllStand, IsLaid, IsLogged, IsServedBy, filled};

use cell_record::PlacedEvents;
use mms_device::Tickets;
use mms_types::{CellEvent, Memory};
use std::alloc::Global;

/// So many slots, all empty.
fn empty_slots(alloc: Global, count: usize) -> Result<Vec<Option<CellEvent>>, Memory>
    ensures { IfOk result (λ slots. length slots.items ≡ count) }
{
    let mut slots = Vec::with_capacity(alloc, count)?;
    for _slot in 0..count {
        slots.push(None)?;
    }
    Ok(slots)
}

/// Puts an event into a slot.
fn put(slots: &mut [Option<CellEvent>], index: usize, event: CellEvent)
    requires { index < length slots.old }
    ensures { slots.new ≡ slice_set slots.old index (Some event) }
{
    slots[index] = Some(event);
}

/// Lays each event in the slot of its place, where the first slot is that of the place `first`.
fn lay(slots: &mut [Option<CellEvent>], first: u64, log: Tickets)
    requires { (all : List EventOf) × (length all ≡ length slots.old)
        × AllStand first all log.items }
    ensures count { length slots.new ≡ length slots.old }
    ensures laid { (all : List EventOf) (index : ℕ) → AllStand first all log.items
        → IsLaid slots.old all index ⊎ IsLogged first all log.items index
        → IsLaid slots.new all index }
{
    let mut log = log;
    while let Some(ticket) = log.pop() {
        let (place, event) = ticket;
        let index = (place - first) as usize;
        put(slots, index, event);
    }
}

/// Lays the events of all logs, of a body that begins at the place `first`.
fn lay_all(slots: &mut [Option<CellEvent>], first: u64, logs: Vec<Tickets>)
    requires body { (body : History) × (length body ≡ length slots.old)
        × IsServedBy first (map vec_items logs.items) body }
    ensures count { length slots.new ≡ length slots.old }
    ensures laid { (body : History) → IsServedBy first (map vec_items logs.items) body
        → (index : ℕ) → IsLaid slots.new (all_events body) index }
{
    for log in logs {
        lay(slots, first, log);
    }
}

/// What lies in the slots, in their order.
fn in_order(alloc: Global, slots: Vec<Option<CellEvent>>) -> Result<Vec<CellEvent>, Memory>
    ensures { IfOk result (λ events. events.items ≡ filled slots.items) }
{
    let mut events = Vec::with_capacity(alloc, slots.len())?;
    for slot in slots {
        if let Some(event) = slot {
            events.push(event)?;
        }
    }
    Ok(events)
}

/// The body that the actors were served, of so many events, the first of which has the place `first`.
pub(crate) fn placed(
    alloc: Global,
    first: u64,
    count: usize,
    logs: Vec<Tickets>,
) -> Result<PlacedEvents, Memory>
    requires body { (body : History) × (length body ≡ count)
        × IsServedBy first (map vec_items logs.items) body }
    requires few { first + count < 2 ^ 64 }
    ensures { (body : History) → length body ≡ count
        → IsServedBy first (map vec_items logs.items) body
        → IfOk result (λ served. served ≡ placed_from first (all_events body)) }
{
    let mut slots = empty_slots(alloc, count)?;
    lay_all(slots.as_mut_slice(), first, logs);
    let events = in_order(alloc, slots)?;
    PlacedEvents::consecutive(alloc, first, events)
}
