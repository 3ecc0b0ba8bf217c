//! Turns of jobs on the device: in each an actor has its next event served.

ghost use Rattle.std.specs.Prelude.{◌≡◌, ◌≢◌, ◌⊎◌, []};
ghost use Rattle.mms_device.specs.Turns.{IsFit, IsTurn, MadeOf, SameWork};
ghost use Rattle.cell_pool.specs.declared.turn.Step.TheVariants as step;

use crate::{Device, Refused};
use cell_io::Gate;
use cell_pool::{Step, Turn};
use mms_types::{CellEvent, Events};
use part_table::Pass;
use std::alloc::Global;
use step_parts::Cell;

/// The places of events that were served, each with its event, in rising order.
pub type Tickets = Vec<(u64, CellEvent)>;

/// What an actor has to have served in a phase: its pass, and its events in their order, those that are left and those
/// that were served. An event goes from `rest` to `log` as it is served.
#[derive(Drop)]
pub struct CellJob {
    /// The actor's pass.
    pub pass: Pass<Cell>,
    /// The events that are left.
    pub rest: Events,
    /// The places of those that were served. It has its room before the phase begins, so that an event that was
    /// committed is never refused.
    pub log: Tickets,
}

/// Turns on a device. In a turn the first event that is left is served, unless a part that it wants is held by another.
#[derive(Drop)]
pub struct CellTurns<'a> {
    /// The device.
    pub device: &'a Device,
    /// Where the memory comes from.
    pub alloc: Global,
}

/// Has the next event served. `Done` is answered exactly where none is left, and `Moved` exactly where the first one
/// was served. `Busy` is answered exactly where a claim was lost, on a part that it wants.
fn serve_next<G: Gate>(device: &Device, alloc: Global, job: &mut CellJob, gate: &G) -> Step
    requires fit { IsFit device.now job.old }
    ensures fit { IsFit device.now job.new }
    ensures made { MadeOf job.old job.new }
    ensures turn { IsTurn device.now job.old job.new result }
    ensures some { result ≡ step.Memory → job.new.rest ≢ [] }
    ensures same { (result ≡ step.Busy) ⊎ (result ≡ step.Memory) → SameWork job.old job.new }
{
    let Some(event) = job.rest.first() else {
        return Step::Done;
    };
    match device.try_serve(alloc, &mut job.pass, event, gate) {
        Ok(served) => {
            let Some(event) = job.rest.take_first() else {
                unreachable!()
            };
            job.log.push_reserved((served.ticket, event));
            Step::Moved
        }
        Err(Refused::Busy(_)) => Step::Busy,
        Err(Refused::Memory) => Step::Memory,
    }
}

impl<'a> Turn for CellTurns<'a> {
    ghost use Rattle.std.specs.Prelude.{◌≡◌, ◌≢◌, []};
    ghost use Rattle.mms_device.specs.Turns.{IsFit, MadeOf, SameWork, made_of_itself, made_of_made};

    type Job = CellJob;

    ghost fit = { λ turns job. IsFit turns.device.now job };

    ghost done = { λ job. job.rest ≡ [] };

    ghost short = { λ job. job.rest ≢ [] };

    ghost same_work = { SameWork };

    ghost made = { MadeOf };

    ghost same = { made_of_itself };

    ghost joins = { made_of_made };

    /// One turn of a job that is fit. `Done` is answered exactly where no event was left, `Moved` exactly where the
    /// first one was served, and `Busy` exactly where a claim was lost on a part that it wants, which another caller
    /// held. `Memory` may be answered where an event is left. After `Busy` and `Memory` the job's work is as before.
    /// After `Memory` the pass is as before too, but for what it knows of others, and after `Done` the whole job is.
    fn turn<G: Gate>(&self, job: &mut CellJob, gate: &G) -> Step
        requires fit { ∥ IsFit self.now.device.now job.old ∥₁ }
        ensures fit { ∥ IsFit self.now.device.now job.new ∥₁ }
        ensures made { ∥ MadeOf job.old job.new ∥₁ }
        ensures done { result ≡ step.Done → ∥ job.new.rest ≡ [] ∥₁ }
        ensures short { result ≡ step.Memory → ∥ job.new.rest ≢ [] ∥₁ }
        ensures same { (result ≡ step.Busy) ⊎ (result ≡ step.Memory)
            → ∥ SameWork job.old job.new ∥₁ }
        ensures turn { IsTurn self.now.device.now job.old job.new result }
    {
        serve_next(self.device, self.alloc, job, gate)
    }
}
