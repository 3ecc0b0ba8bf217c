//! A phase that several workers serve.

ghost use Rattle.std.specs.Prelude.{◌≡◌, ◌≤◌, ◌<◌, ◌∷◌, ℕ, List, Some, IfOk, length, map, slice_get, vec_items};
ghost use Rattle.part_table.specs.History.{StartsWith};
ghost use Rattle.part_table.specs.Known.{IsTrueOf};
ghost use Rattle.mms_device.specs.Making.{MayMake};
ghost use Rattle.step_parts.specs.Step.{said};
ghost use Rattle.mms_device.specs.Shared.{Caller, History};
ghost use Rattle.cell_run.specs.Drained.{DrainAll, IsIdle};
ghost use Rattle.cell_run.specs.Jobs.{AreBelow};
ghost use Rattle.cell_run.specs.Running.{AreReady, AreServed, CanServeAll, HasRun, HaveServed, MayRun};
ghost use Rattle.cell_run.specs.Serving.{TellsPhase};

use crate::crew::Crew;
use crate::draining::drain_each;
use crate::jobs::{give_out, jobs_of, parted};
use crate::laying::placed;
use cell_io::Gate;
use cell_pool::{PhaseStopped, serve_phase};
use cell_record::{ClientOutputs, Phase, Told};
use mms_device::{CellJob, CellTurns, Device, Tickets};
use mms_step::Cell;
use mms_types::{Events, Memory};
use part_table::{Pass, a_pass_knows_its_own_places};
use std::alloc::Global;
use std::mem;
use std::sync::Wait;
use std::thread::Threads;

/// What is true of each pass.
fn know_all(passes: &[Pass<Cell>])
    ensures { (i : ℕ) (p : Caller) → slice_get passes.now i ≡ Some p → IsTrueOf MayMake p }
{
    for pass in passes {
        a_pass_knows_its_own_places(pass);
    }
}

/// Has all jobs served by so many workers.
fn serve_jobs<R: Threads + Wait + Sync, G: Gate + Sync>(
    rt: &R,
    alloc: Global,
    device: &Device,
    jobs: Vec<CellJob>,
    workers: u32,
    gate: &G,
) -> Result<Vec<CellJob>, Memory>
    requires fit { AreReady device.now jobs.items }
    requires workers { (1 ≤ workers) × (workers ≤ 16) }
    ensures count { IfOk result (λ back. length back.items ≡ length jobs.items) }
    ensures whole { IfOk result (λ back. AreServed device.now jobs.items back.items) }
{
    let turns = CellTurns { device, alloc };
    match serve_phase(rt, &turns, jobs, workers, gate) {
        Ok(jobs) => Ok(jobs),
        Err(PhaseStopped { jobs: _jobs }) => Err(Memory::wanting()),
    }
}

/// Has the passes serve events, each those of its caller, by so many workers.
fn serve_all<R: Threads + Wait + Sync, G: Gate + Sync>(
    rt: &R,
    alloc: Global,
    device: &Device,
    passes: Vec<Pass<Cell>>,
    events: Events,
    workers: u32,
    gate: &G,
) -> Result<(Vec<Pass<Cell>>, Vec<Tickets>), Memory>
    requires fit { CanServeAll device.now passes.items events }
    requires below { AreBelow (length passes.items) events }
    requires workers { (1 ≤ workers) × (workers ≤ 16) }
    ensures { IfOk result (λ served. HaveServed device.now passes.items events
        served.0.items (map vec_items served.1.items)) }
{
    let mut jobs = jobs_of(alloc, passes)?;
    give_out(jobs.as_mut_slice(), events.into_vec())?;
    let jobs = serve_jobs(rt, alloc, device, jobs, workers, gate)?;
    parted(alloc, jobs)
}

/// Lets each client take what is to be sent to it, between meetings of all.
fn drain_all<R: Wait, G: Gate>(
    rt: &R,
    alloc: Global,
    device: &Device,
    passes: &mut [Pass<Cell>],
    gate: &G,
) -> Result<ClientOutputs, Memory>
    requires some { 0 < length passes.old }
    requires passes { (i : ℕ) (p : Caller) → slice_get passes.old i ≡ Some p
        → IsIdle device.now.table i p }
    ensures drained { (common : History) (first : Caller) (clients : List Caller)
        → passes.old ≡ first ∷ clients → StartsWith first.seen common
        → IfOk result (DrainAll (said device.now.config) common first clients passes.new) }
{
    let (front, clients) = passes.split_at_mut(1);
    drain_each(rt, alloc, device, &mut front[0], clients, gate)
}

impl Crew {
    /// Serves a phase: what there is to tell of it.
    pub(crate) fn serve<R: Threads + Wait + Sync, G: Gate + Sync>(
        &mut self,
        rt: &R,
        alloc: Global,
        phase: Phase,
        gate: &G,
    ) -> Result<Told, Memory>
        requires next { MayRun self.old phase.events }
        ensures told { TellsPhase (HasRun self.old) phase result (HasRun self.new) }
        ensures workers { self.new.workers ≡ self.old.workers }
    {
        let passes = mem::replace(&mut self.passes, Vec::new(alloc));
        know_all(&passes);
        let (mut passes, logs) = serve_all(
            rt,
            alloc,
            &self.device,
            passes,
            phase.events,
            self.workers,
            gate,
        )?;
        know_all(&passes);
        let count = self.device.gather(passes.as_mut_slice());
        know_all(&passes);
        let served = placed(alloc, self.count + 1, (count - self.count) as usize, logs)?;
        let outputs = drain_all(rt, alloc, &self.device, passes.as_mut_slice(), gate)?;
        self.count = self.device.gather(passes.as_mut_slice());
        self.passes = passes;
        Ok(Told {
            number: phase.number,
            served,
            outputs,
        })
    }
}
