//! A recording, served phase by phase.

ghost use Rattle.std.specs.Prelude.{◌≡◌, ◌≢◌, []};
ghost use Rattle.cell_io.specs.Held.{IsEndSeen};
ghost use Rattle.cell_run.specs.Ending.{EndsServing, ReportsWhole, seen};
ghost use Rattle.cell_run.specs.Serving.{Begins, EndsFrom};

use crate::last_line::refuse;
use crate::server::Server;
use crate::status::Status;
use cell_io::{Sink, Source, WriteError};
use cell_record::{Recording, write_phase};
use cell_words::Command;
use mms_device::Whole;
use std::alloc::Global;

/// More phases than a recording has.
pub(crate) const PHASES: u64 = 4_294_967_296;

/// Serves a recording phase by phase on one thread, in its own order, writes its report, and tells how it ended: what
/// `run_cell` does for the word `replay`. It takes no runtime: it waits for nobody, and always returns.
pub fn serve_alone<S: Source, K: Sink>(alloc: Global, input: &mut S, out: &mut K) -> Status
    // How it ends, and what was read and written.
    ensures ends { EndsServing Command.Replay result
        (seen S.left S.faults input.old) (seen S.left S.faults input.new)
        (seen K.held K.faults out.old) (seen K.held K.faults out.new) }

    // A recording without a fault is served and reported, unless memory runs out.
    ensures complete { ReportsWhole Command.Replay (result ≡ Status.Done) (result ≡ Status.Memory)
        (seen S.left S.faults input.old) (seen S.left S.faults input.new)
        (seen K.held K.faults out.old) (seen K.held K.faults out.new) }
{
    let mut recording = match Recording::open(alloc, input) {
        Ok(recording) => recording,
        Err(refusal) => return refuse(alloc, out, refusal),
    };
    let Ok(mut device) = Whole::new(alloc, recording.config()) else {
        return Status::Memory;
    };
    serve_phases(alloc, &mut recording, &mut device, input, out)
}

/// Serves the phases of a recording of which only the lines up to `end` were read, and writes their report.
fn serve_phases<V: Server, S: Source, K: Sink>(
    alloc: Global,
    recording: &mut Recording,
    server: &mut V,
    input: &mut S,
    out: &mut K,
) -> Status
    requires begins { Begins recording.old }
    requires seen { IsEndSeen recording.old.held (S.left input.old) }
    requires fresh { V.has_served server.old recording.old.config [] [] }
    ensures ends { EndsFrom V.command recording.old result
        (seen S.left S.faults input.old) (seen S.left S.faults input.new)
        (seen K.held K.faults out.old) (seen K.held K.faults out.new) }
    ensures unfailed { result ≢ Status.ReadFault → S.faults input.new ≡ S.faults input.old }
{
    for _turn in 0..PHASES {
        let phase = match recording.next_phase(alloc, input) {
            Ok(Some(phase)) => phase,
            Ok(None) => return Status::Done,
            Err(refusal) => return refuse(alloc, out, refusal),
        };
        let Ok(told) = server.serve(alloc, phase) else {
            return Status::Memory;
        };
        match write_phase(alloc, out, &told) {
            Ok(()) => {}
            Err(WriteError::Fault) => return Status::WriteFault,
            Err(WriteError::Memory) => return Status::Memory,
        }
    }
    unreachable!()
}
