//! The top call.

ghost use Rattle.std.specs.Prelude.{◌≡◌, ℕ, Some, None};
ghost use Rattle.cell_words.specs.Words.{command_of as command_in, texts};
ghost use Rattle.cell_run.specs.Ending.{CompletesFor, CountsFor, Ends, EndsUsage, EndsWith, seen};

use crate::engine::serve_alone;
use crate::status::Status;
use crate::stressing::stress;
use crate::workers::run;
use cell_io::{Gate, Sink, Source, write_all};
use cell_words::{Command, command_of};
use std::alloc::Global;
use std::sync::Wait;
use std::thread::Threads;

/// Writes how the command is used.
fn usage<K: Sink>(out: &mut K) -> Status
    ensures ends { EndsUsage result
        (seen K.held K.faults out.old) (seen K.held K.faults out.new) }
{
    match write_all(
        out,
        b"usage: mmscell replay | run --workers N | stress --seed N --clients N --rounds N --workers N\n",
    ) {
        Ok(()) => Status::Usage,
        Err(_) => Status::WriteFault,
    }
}

/// Does what the words ask, and tells how it ended.
fn serve<R: Threads + Wait + Sync, S: Source, K: Sink, G: Gate + Sync>(
    rt: &R,
    alloc: Global,
    words: &[String],
    input: &mut S,
    out: &mut K,
    gate: &G,
) -> Status
    ensures ends { Ends (command_in (texts words.now)) result
        (seen S.left S.faults input.old) (seen S.left S.faults input.new)
        (seen K.held K.faults out.old) (seen K.held K.faults out.new) }
    ensures nothing_read { command_in (texts words.now) ≡ None → input.new ≡ input.old }
    ensures unread { (seed clients rounds workers : ℕ)
        → command_in (texts words.now) ≡ Some (Command.Stress seed clients rounds workers)
        → input.new ≡ input.old }
{
    match command_of(alloc, words) {
        None => usage(out),
        Some(Command::Replay) => serve_alone(alloc, input, out),
        Some(Command::Run { workers }) => run(rt, alloc, workers, input, out, gate),
        Some(
            Command::Stress {
                seed,
                clients,
                rounds,
                workers,
            },
        ) => stress(rt, alloc, seed, clients, rounds, workers, out, gate),
    }
}

/// Does what the words after the program's name ask, and answers the exit status.
///
/// The forms of the command are `replay`, `run --workers N`, and `stress --seed N --clients N --rounds N --workers N`,
/// with options in any order, each as `--name N` or `--name=N` with 1 to 20 digits: 1 to 16 workers, 1 to 64 clients, 1
/// to 1,000 rounds, and any seed below 2^64. `replay` and `run` read a recording from `input` to its end, serve it
/// phase by phase, and write the report to `out`. `replay` serves it on one thread in its own order: it is
/// `serve_alone`, which waits for nobody. `run` serves each phase by N workers on threads of their own, and may wait;
/// its report is that of the one history that came about. `stress` makes a recording in which clients contend by the
/// random words of a seed (`cell_stress`), serves it as `run` does, and writes how many phases, events and confirmed
/// requests its history has, and how many PDUs were sent along it. These numbers are the same whatever history came
/// about (`stress_laws`), and any history keeps the clause, so that none tells that they were counted on the workers; a
/// test does. Each caller of the device passes `gate`: that it does, and that there are N workers, tests show as well.
///
/// | status | comes | written |
/// |---|---|---|
/// | 0 | the whole input was read, but by `stress`, and all was served and written | the report, or the four lines of `stress` |
/// | 1 | exactly where the words are no form of the command | the usage line |
/// | 2 | exactly where a line of the recording breaks a rule | the complete phases before it, `bad <line> <word>` |
/// | 3 | want of memory, where the words are a form of the command | a prefix of what was to be written |
/// | 4 | where the source failed, unless `run` had already to end with 3 or 5 | the phases that are complete in what was read |
/// | 5 | exactly where the sink failed: its count of faults rose by one | a prefix of what was to be written |
/// | 6 | exactly where the configuration breaks a rule | `bad config <rule>`, of the least one that it breaks |
/// | 7 | exactly where a phase has its 16,385th event or its 67,108,865th octet of PDUs, or the input its 4,294,967,297th octet | the complete phases before it, `too much <line>` |
///
/// What stands first in the input decides, and each yields to 3, 4 and 5 where these came first. Both counts are as they
/// were, but with 4 that of the source rose by one, with 5 that of the sink, and where `run` ends with 3 or 5 that of
/// the source may have risen by one, by a read ahead of the phase that it served. What failed isn't tried again.
pub fn run_cell<R: Threads + Wait + Sync, S: Source, K: Sink, G: Gate + Sync>(
    rt: &R,
    alloc: Global,
    words: &[String],
    input: &mut S,
    out: &mut K,
    gate: &G,
) -> u8
    // How it ends by the words, with which status, and what was read and written.
    ensures ends { EndsWith (command_in (texts words.now)) result
        (seen S.left S.faults input.old) (seen S.left S.faults input.new)
        (seen K.held K.faults out.old) (seen K.held K.faults out.new) }

    // Words of no command read nothing, nor does `stress`.
    ensures nothing_read { command_in (texts words.now) ≡ None → input.new ≡ input.old }
    ensures unread { (seed clients rounds workers : ℕ)
        → command_in (texts words.now) ≡ Some (Command.Stress seed clients rounds workers)
        → input.new ≡ input.old }

    // A recording without a fault is served and reported, unless memory runs out.
    ensures complete { CompletesFor (command_in (texts words.now)) result
        (seen S.left S.faults input.old) (seen S.left S.faults input.new)
        (seen K.held K.faults out.old) (seen K.held K.faults out.new) }

    // And where the sink doesn't fail, `stress` writes its four lines.
    ensures counted { CountsFor (command_in (texts words.now)) result
        (seen K.held K.faults out.old) (seen K.held K.faults out.new) }
{
    serve(rt, alloc, words, input, out, gate).code()
}
