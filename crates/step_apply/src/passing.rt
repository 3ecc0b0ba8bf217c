//! Time goes by on the parts that are held.

ghost use Rattle.std.specs.Prelude.{◌≡◌, ◌≢◌, ◌+◌, ◌≤◌, [], false, is_some, true, length, None, OnOk, OnErr, Some};
ghost use Rattle.part_table.specs.Held.{held_at, IsHandOf};
ghost use Rattle.parted_state.specs.Lifted.{put_in_place, tables_shown};
ghost use Rattle.mms_time.specs.Deadlines.{next_due};
ghost use Rattle.event_cond.specs.Skips.{any_due};
ghost use Rattle.cell_ticks.specs.Deadlines as device;
ghost use Rattle.cell_services.specs.Serving.{passes};
ghost use Rattle.cell_services.specs.Tables.{last_moment};
ghost use Rattle.step_apply.specs.Lifting.{placed_at};
ghost use Rattle.step_parts.specs.Partition.{cell, clients_among, clock_in, clock_place, events_in, events_place, parts_of, semaphores_in, semaphores_place, IsSemaphores};
ghost use Rattle.step_parts.specs.State.{State};
ghost use Rattle.step_apply.specs.Tasks.{is_clock};

use crate::serving::{Task, serve};
use mms_types::{Memory, Moment};
use part_table::Hand;
use std::alloc::Global;
use step_parts::slots::{put, take};
use step_parts::tables::{EVENTS, semaphores};
use step_parts::{Cell, Part};

/// Whether the semaphores are held.
fn are_held(held: &Hand<Cell>, clients: u32) -> bool
    requires few { clients ≤ 64 }
    ensures held { result ≡ true → IsSemaphores (held_at held.now (semaphores_place clients)) }
    ensures none { result ≡ false
        → semaphores_in (held_at held.now (semaphores_place clients)) ≡ [] }
{
    match held.get(u32::from(semaphores(clients))) {
        Some(Part::Semaphores(_)) => true,
        _ => false,
    }
}

/// Whether a deadline of the semaphores of that part is at most that moment. They may keep what they find, and stay as
/// they are.
fn due_in_part(part: &mut Part, until: Moment) -> bool
    requires { IsSemaphores (Some part.old) }
    ensures due { result ≡ is_some (next_due until (semaphores_in (Some part.old))) }
    ensures same { part.new ≡ part.old }
{
    match part {
        Part::Semaphores(rows) => rows.comes_due(until),
        _ => unreachable!(),
    }
}

/// Whether a deadline of the semaphores that are held is at most that moment. It takes no memory.
fn comes_due(held: &mut Hand<Cell>, clients: u32, until: Moment) -> bool
    requires few { clients ≤ 64 }
    requires held { IsSemaphores (held_at held.old (semaphores_place clients)) }
    ensures due { result
        ≡ is_some (next_due until (semaphores_in (held_at held.old (semaphores_place clients)))) }
    ensures same { held.new ≡ held.old }
{
    let place = u32::from(semaphores(clients));
    let mut table = take(held, place);
    let due = due_in_part(&mut table, until);
    put(held, place, table);
    due
}

/// Whether an event condition that is held is to be evaluated by then. It takes no memory.
fn evaluates(held: &Hand<Cell>, until: Moment) -> bool
    ensures { result ≡ any_due until (events_in (held_at held.now events_place)).conditions }
{
    match held.get(u32::from(EVENTS)) {
        Some(Part::Events(events)) => events.conditions.is_due(until),
        _ => false,
    }
}

/// Whether the clock is held, and no deadline of the semaphores and the event conditions that are held is due once so
/// many milliseconds have gone by. The parts stay as they are. It takes no memory.
fn is_quiet(held: &mut Hand<Cell>, clients: u32, ms: u32) -> bool
    requires few { clients ≤ 64 }
    requires time { clock_in (held_at held.old clock_place) + ms ≤ last_moment }
    ensures clock { result ≡ true → is_clock (held_at held.old clock_place) ≡ true }
    ensures due { result ≡ true
        → device.next_due (record { 0 = clock_in (held_at held.old clock_place) + ms })
        (semaphores_in (held_at held.old (semaphores_place clients)))
        (events_in (held_at held.old events_place)).conditions ≡ None }
    ensures wants { result ≡ false → is_clock (held_at held.old clock_place) ≡ true
        → device.next_due (record { 0 = clock_in (held_at held.old clock_place) + ms })
        (semaphores_in (held_at held.old (semaphores_place clients)))
        (events_in (held_at held.old events_place)).conditions ≢ None }
    ensures same { held.new ≡ held.old }
{
    let Some(Part::Clock(clock)) = held.get(0) else {
        return false;
    };
    let until = Moment(clock.now().0 + u64::from(ms));
    if evaluates(held, until) {
        return false;
    }
    if !are_held(held, clients) {
        return true;
    }
    !comes_due(held, clients, until)
}

/// Lets so many milliseconds go by on the clock alone.
fn advance(held: &mut Hand<Cell>, ms: u32)
    requires clock { is_clock (held_at held.old clock_place) ≡ true }
    requires time { clock_in (held_at held.old clock_place) + ms ≤ last_moment }
    ensures { held.new ≡ placed_at (Part.Clock (clock_in (held_at held.old clock_place) + ms))
        held.old clock_place }
{
    let mut part = take(held, 0);
    match &mut *part {
        Part::Clock(clock) => clock.advance(ms),
        _ => unreachable!(),
    }
    put(held, 0, part);
}

/// Lets so many milliseconds go by. Where no deadline is due the clock's part alone changes, in place, and no memory is
/// taken; else it is served as all that isn't done in place. Without memory the parts are as before.
pub(crate) fn tick(
    alloc: Global,
    held: &mut Hand<Cell>,
    clients: u32,
    ms: u32,
) -> Result<(), Memory>
    requires of { (s : State) × IsHandOf held.old (parts_of s) }
    requires many { clients ≡ clients_among (length held.old) }
    requires few { clients ≤ 64 }
    requires time { clock_in (held_at held.old clock_place) + ms ≤ last_moment }
    ensures put { OnOk result (held.new
        ≡ put_in_place cell (passes ms (tables_shown cell held.old)) held.old) }
    ensures kept { OnErr result (held.new ≡ held.old) }
    ensures wants { OnErr result (is_clock (held_at held.old clock_place) ≡ true
        → device.next_due (record { 0 = clock_in (held_at held.old clock_place) + ms })
        (semaphores_in (held_at held.old (semaphores_place clients)))
        (events_in (held_at held.old events_place)).conditions ≢ None) }
{
    if is_quiet(held, clients, ms) {
        advance(held, ms);
        return Ok(());
    }
    serve(alloc, held, clients, &Task::Time(ms))
}
