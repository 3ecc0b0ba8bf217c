//! A recording, of which several workers serve each phase.

ghost use denote.Param.Send.{IsSync};
ghost use Rattle.std.specs.Prelude.{◌≡◌, ◌≢◌, ◌≤◌, ◌⊎◌, [], ◌++◌, IfOk, IfSome, OnErr, Some};
ghost use Rattle.std.specs.Io.KnownBytes.{Appends};
ghost use Rattle.cell_io.specs.Faults.{Rose};
ghost use Rattle.cell_io.specs.Held.{IsEndSeen};
ghost use Rattle.cell_io.specs.Prefix.{AppendsPrefix};
ghost use Rattle.cell_words.specs.declared.words.Command.{Command as CommandOf};
ghost use Rattle.cell_run.specs.Ahead.{HasRead, Writes, text_told};
ghost use Rattle.cell_run.specs.Ending.{EndsServing, seen};
ghost use Rattle.cell_run.specs.Outcome.{IsFinal, last_line, status_for};
ghost use Rattle.cell_run.specs.Running.{HasRun, IsRun, MayRun};
ghost use Rattle.cell_run.specs.Serving.{Begins, EndsFrom, TellsPhase};

use crate::crew::Crew;
use crate::engine::PHASES;
use crate::last_line::refuse;
use crate::status::Status;
use cell_io::{Gate, Sink, Source, WriteError};
use cell_record::{Phase, RecordError, Recording, Told, write_phase};
use cell_words::Command;
use mms_types::Memory;
use std::alloc::Global;
use std::sync::Wait;
use std::thread::{Threads, join_mut};

/// Serves a recording phase by phase, each by so many workers, and writes the report of the history that came about. It
/// may wait, and where it waits for ever it never returns.
pub fn run<R: Threads + Wait + Sync, S: Source, K: Sink, G: Gate + Sync>(
    rt: &R,
    alloc: Global,
    workers: u32,
    input: &mut S,
    out: &mut K,
    gate: &G,
) -> Status
    requires workers { (1 ≤ workers) × (workers ≤ 16) }
    ensures ends { EndsServing (Command.Run workers) result
        (seen S.left S.faults input.old) (seen S.left S.faults input.new)
        (seen K.held K.faults out.old) (seen K.held K.faults out.new) }
{
    let mut recording = match Recording::open(alloc, input) {
        Ok(recording) => recording,
        Err(refusal) => return refuse(alloc, out, refusal),
    };
    let Ok(mut crew) = Crew::new(alloc, recording.config(), workers) else {
        return Status::Memory;
    };
    run_phases(rt, alloc, &mut recording, &mut crew, input, out, gate)
}

/// What comes next of a recording.
#[derive(Drop)]
pub(crate) enum Next {
    /// A phase.
    Phase(Phase),
    /// Its end, or why no more of it is served.
    End(Option<RecordError>),
}

/// Reads the next phase of a recording.
fn read_next<S: Source>(alloc: Global, recording: &mut Recording, input: &mut S) -> Next
    ensures { HasRead recording.old (S.left input.old) (S.faults input.old)
        result recording.new (S.left input.new) (S.faults input.new) }
{
    match recording.next_phase(alloc, input) {
        Ok(Some(phase)) => Next::Phase(phase),
        Ok(None) => Next::End(None),
        Err(refusal) => Next::End(Some(refusal)),
    }
}

/// Writes what there is to tell of a phase, if there is one.
fn write_told<K: Sink>(alloc: Global, out: &mut K, told: &Option<Told>) -> Result<(), WriteError>
    ensures written { Writes (text_told told.now)
        (seen K.held K.faults out.old) (seen K.held K.faults out.new) result }
{
    match told {
        Some(told) => write_phase(alloc, out, told),
        None => Ok(()),
    }
}

/// Writes what there is to tell of a phase, drops that, and reads the next one. Where the first is refused, nothing is
/// read.
fn write_and_read<S: Source, K: Sink>(
    alloc: Global,
    recording: &mut Recording,
    input: &mut S,
    out: &mut K,
    told: Option<Told>,
) -> Result<Next, WriteError>
    ensures written { Writes (text_told told)
        (seen K.held K.faults out.old) (seen K.held K.faults out.new) result }
    ensures unread { OnErr result ((recording.new ≡ recording.old) × (input.new ≡ input.old)) }
    ensures read { IfOk result
        (λ next. HasRead recording.old (S.left input.old) (S.faults input.old)
        next recording.new (S.left input.new) (S.faults input.new)) }
{
    write_told(alloc, out, &told)?;
    drop(told);
    Ok(read_next(alloc, recording, input))
}

/// Writes what there is to tell of the last phase, and then why no more are served, where something refuses them.
fn finish<K: Sink>(
    alloc: Global,
    out: &mut K,
    told: &Option<Told>,
    refusal: Option<RecordError>,
) -> Status
    ensures stated { IsFinal result → (result ≡ status_for refusal)
        × Appends (K.held out.old) (K.held out.new) (text_told told.now ++ last_line refusal) }
    ensures partly { AppendsPrefix (K.held out.old) (K.held out.new)
        (text_told told.now ++ last_line refusal) }
    ensures read { result ≡ Status.ReadFault → (refusal ≡ Some RecordError.ReadFault)
        × Appends (K.held out.old) (K.held out.new) (text_told told.now) }
    ensures write { result ≡ Status.WriteFault → Rose (K.faults out.old) (K.faults out.new) }
    ensures accepted { result ≢ Status.WriteFault → K.faults out.new ≡ K.faults out.old }
    ensures known { result ≢ Status.Usage }
{
    match write_told(alloc, out, told) {
        Ok(()) => {}
        Err(WriteError::Fault) => return Status::WriteFault,
        Err(WriteError::Memory) => return Status::Memory,
    }
    match refusal {
        None => Status::Done,
        Some(refusal) => refuse(alloc, out, refusal),
    }
}

/// Has a crew serve a phase, and meanwhile writes what there is to tell of the one before, drops that, and reads the next
/// one.
fn serve_beside<R: Threads + Wait + Sync, S: Source, K: Sink, G: Gate + Sync>(
    rt: &R,
    alloc: Global,
    recording: &mut Recording,
    crew: &mut Crew,
    input: &mut S,
    out: &mut K,
    gate: &G,
    phase: Phase,
    told: Option<Told>,
) -> (Result<Told, Memory>, Result<Next, WriteError>)
    requires next { MayRun crew.old phase.events }
    ensures told { TellsPhase (HasRun crew.old) phase result.0 (HasRun crew.new) }
    ensures written { Writes (text_told told)
        (seen K.held K.faults out.old) (seen K.held K.faults out.new) result.1 }
    ensures unread { OnErr result.1 ((recording.new ≡ recording.old) × (input.new ≡ input.old)) }
    ensures read { IfOk result.1
        (λ next. HasRead recording.old (S.left input.old) (S.faults input.old)
        next recording.new (S.left input.new) (S.faults input.new)) }
{
    let mut phase = Some(phase);
    let mut told = told;
    let mut served = Err(Memory::wanting());
    let mut ahead = Err(WriteError::Memory);
    let mut serving = ||
        requires { IsSync R.row × IsSync G.row × IfSome phase (λ p. MayRun crew.now p.events) }
        ensures { IfSome phase.entry
            (λ p. TellsPhase (HasRun crew.entry.now) p served.exit (HasRun crew.exit.now)) }
    {
        if let Some(phase) = phase.take() {
            served = crew.serve(rt, alloc, phase, gate);
        }
    };
    let mut beside = ||
        ensures written { Writes (text_told told.entry)
            (seen K.held K.faults out.entry.now) (seen K.held K.faults out.exit.now) ahead.exit }
        ensures unread { OnErr ahead.exit ((recording.exit.now ≡ recording.entry.now)
            × (input.exit.now ≡ input.entry.now)) }
        ensures read { IfOk ahead.exit (λ next.
            HasRead recording.entry.now (S.left input.entry.now) (S.faults input.entry.now)
            next recording.exit.now (S.left input.exit.now) (S.faults input.exit.now)) }
    {
        ahead = write_and_read(alloc, recording, input, out, told.take());
    };
    join_mut(rt, &mut serving, &mut beside);
    (served, ahead)
}

/// Has a crew serve the phases of a recording of which only the lines up to `end` were read, and writes their report.
/// While a phase is served, the report of the one before it is written, and the next one is read. What is read ahead of
/// a phase is told once that is: where a phase can't be served or written, a fault of the source that was met ahead of
/// it is told by no status.
fn run_phases<R: Threads + Wait + Sync, S: Source, K: Sink, G: Gate + Sync>(
    rt: &R,
    alloc: Global,
    recording: &mut Recording,
    crew: &mut Crew,
    input: &mut S,
    out: &mut K,
    gate: &G,
) -> Status
    requires begins { Begins recording.old }
    requires seen { IsEndSeen recording.old.held (S.left input.old) }
    requires fresh { HasRun crew.old recording.old.config [] [] }
    ensures ends { (command : CommandOf) → IsRun command → EndsFrom command recording.old result
        (seen S.left S.faults input.old) (seen S.left S.faults input.new)
        (seen K.held K.faults out.old) (seen K.held K.faults out.new) }
    ensures unfailed { IsFinal result → S.faults input.new ≡ S.faults input.old }
    ensures once { (S.faults input.new ≡ S.faults input.old)
        ⊎ Rose (S.faults input.old) (S.faults input.new) }
{
    let mut told = None;
    let mut next = read_next(alloc, recording, input);
    for _turn in 0..PHASES {
        let phase = match next {
            Next::Phase(phase) => phase,
            Next::End(refusal) => return finish(alloc, out, &told, refusal),
        };
        let (served, ahead) = serve_beside(
            rt, alloc, recording, crew, input, out, gate, phase, told,
        );
        next = match ahead {
            Ok(next) => next,
            Err(WriteError::Fault) => return Status::WriteFault,
            Err(WriteError::Memory) => return Status::Memory,
        };
        let Ok(now) = served else {
            return Status::Memory;
        };
        told = Some(now);
    }
    unreachable!()
}
