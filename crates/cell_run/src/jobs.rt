//! The jobs of a phase: each actor's pass, with its events.

ghost use Rattle.std.specs.Prelude.{◌≡◌, ◌≤◌, ◌<◌, ◌+◌, ◌++◌, [], ◌∷◌, List, IfOk, OnOk, length, map, vec_capacity, vec_items};
ghost use Rattle.mms_types.specs.Actors.{actor_of};
ghost use Rattle.mms_types.specs.declared.event.CellEvent.{CellEvent as EventOf};
ghost use Rattle.mms_device.specs.Shared.{Caller};
ghost use Rattle.cell_run.specs.Jobs.{AreBelow, AreJobsOf};

use mms_device::{CellJob, Tickets};
use mms_step::Cell;
use mms_types::{CellEvent, Events, Memory};
use part_table::Pass;
use std::alloc::Global;

/// The actor of an event: its client, or 0 for the cell itself.
fn actor(event: &CellEvent) -> u32
    ensures { result ≡ actor_of event.now }
{
    match event {
        CellEvent::Heard { client, .. } => *client,
        CellEvent::Lost { client } => *client,
        CellEvent::Drain { client } => *client,
        CellEvent::Tick { .. } => 0,
        CellEvent::Ends { .. } => 0,
    }
}

/// A job for each pass, with no events yet.
pub(crate) fn jobs_of(alloc: Global, passes: Vec<Pass<Cell>>) -> Result<Vec<CellJob>, Memory>
    ensures { IfOk result (λ jobs. AreJobsOf [] passes.items jobs.items) }
{
    let mut jobs = Vec::new(alloc);
    for pass in passes {
        jobs.push(CellJob {
            pass,
            rest: Events::new(alloc),
            log: Vec::new(alloc),
        })?;
    }
    Ok(jobs)
}

/// Leaves one more event to a job, and makes room for the places of all that are left.
fn leave(job: &mut CellJob, event: CellEvent) -> Result<(), Memory>
    ensures pass { job.new.pass ≡ job.old.pass }
    ensures rest { OnOk result (job.new.rest ≡ job.old.rest ++ event ∷ []) }
    ensures log { job.new.log.items ≡ job.old.log.items }
    ensures room { OnOk result
        (length job.new.log.items + length job.new.rest ≤ vec_capacity job.new.log) }
{
    job.rest.push(event)?;
    job.log.reserve(job.rest.len())?;
    Ok(())
}

/// Gives an event to its actor.
fn give(jobs: &mut [CellJob], event: CellEvent) -> Result<(), Memory>
    requires { actor_of event < length jobs.old }
    ensures count { length jobs.new ≡ length jobs.old }
    ensures given { (given : List EventOf) (passes : List Caller) → AreJobsOf given passes jobs.old
        → OnOk result (AreJobsOf (given ++ event ∷ []) passes jobs.new) }
{
    let place = actor(&event) as usize;
    leave(&mut jobs[place], event)
}

/// Gives each event to its actor, in their order.
pub(crate) fn give_out(jobs: &mut [CellJob], events: Vec<CellEvent>) -> Result<(), Memory>
    requires { AreBelow (length jobs.old) events.items }
    ensures { (passes : List Caller) → AreJobsOf [] passes jobs.old
        → OnOk result (AreJobsOf events.items passes jobs.new) }
{
    for event in events {
        give(jobs, event)?;
    }
    Ok(())
}

/// The passes of jobs, and their logs.
pub(crate) fn parted(
    alloc: Global,
    jobs: Vec<CellJob>,
) -> Result<(Vec<Pass<Cell>>, Vec<Tickets>), Memory>
    ensures passes { IfOk result (λ parted. parted.0.items ≡ map (λ job. job.pass) jobs.items) }
    ensures logs { IfOk result (λ parted. map vec_items parted.1.items
        ≡ map (λ job. job.log.items) jobs.items) }
{
    let mut passes = Vec::new(alloc);
    let mut logs = Vec::new(alloc);
    for job in jobs {
        let CellJob { pass, log, .. } = job;
        passes.push(pass)?;
        logs.push(log)?;
    }
    Ok((passes, logs))
}
