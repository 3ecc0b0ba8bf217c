//! The program.

ghost use Rattle.std.specs.Prelude.{◌≡◌, ℕ, Some, None};
ghost use Rattle.std.specs.Io.KnownBytes.{Appends};
ghost use Rattle.std.specs.Process.{exit_status};
ghost use Rattle.cell_io.specs.Faults.{Rose};
ghost use Rattle.cell_io.specs.Prefix.{AppendsPrefix};
ghost use Rattle.cell_words.specs.declared.words.Command.{Command};
ghost use Rattle.cell_run.specs.Ending.{CompletesFor, CountsFor, seen};
ghost use Rattle.cell_main.specs.Ends.{EndsFor, IsExit, asked};
ghost use Rattle.cell_main.specs.Failure.{failure_line};

use crate::told::tell;
use crate::words::{Words, words_of};
use cell_io::{Open, Sink, Source, StdSink, StdSource};
use cell_run::run_cell;
use std::alloc::{Alloc, Global};
use std::env::Env;
use std::io;
use std::io::{Input, Print, Write};
use std::process::ExitCode;
use std::sync::Wait;
use std::thread::Threads;

/// The exit status for want of memory.
const MEMORY: u8 = 3;

/// Does what the words ask, as `run_cell` does it, and answers the exit status. A word that isn't UTF-8 is no form of the
/// command, and where there is no memory for the words, nothing is read and written, and the status is 3.
pub fn serve_words<R: Threads + Wait + Sync, S: Source, K: Sink>(
    rt: &R,
    alloc: Global,
    words: &Words,
    input: &mut S,
    out: &mut K,
) -> u8
    // How it ends by the words, with which status, and what was read and written.
    ensures ends { EndsFor words.now result
        (seen S.left S.faults input.old) (seen S.left S.faults input.new)
        (seen K.held K.faults out.old) (seen K.held K.faults out.new) }

    // Words of no command read nothing, nor does `stress`.
    ensures nothing_read { asked words.now ≡ None → input.new ≡ input.old }
    ensures unread { (seed clients rounds workers : ℕ)
        → asked words.now ≡ Some (Command.Stress seed clients rounds workers)
        → input.new ≡ input.old }

    // A recording without a fault is served and reported, unless memory runs out.
    ensures complete { CompletesFor (asked words.now) result
        (seen S.left S.faults input.old) (seen S.left S.faults input.new)
        (seen K.held K.faults out.old) (seen K.held K.faults out.new) }

    // And where the sink doesn't fail, `stress` writes its four lines.
    ensures counted { CountsFor (asked words.now) result
        (seen K.held K.faults out.old) (seen K.held K.faults out.new) }
{
    match words {
        Words::Texts(words) => run_cell(rt, alloc, words, input, out, &Open),
        Words::NotText => run_cell(rt, alloc, &[], input, out, &Open),
        Words::Memory => MEMORY,
    }
}

/// Does what the words ask, tells what failed, and answers how the process is to end.
pub fn run_words<R: Threads + Wait + Sync, S: Source, K: Sink, E: Sink>(
    rt: &R,
    alloc: Global,
    words: &Words,
    input: &mut S,
    out: &mut K,
    err: &mut E,
) -> ExitCode
    // As `serve_words`, by the status with which the process is to end.
    ensures ends { EndsFor words.now (exit_status result)
        (seen S.left S.faults input.old) (seen S.left S.faults input.new)
        (seen K.held K.faults out.old) (seen K.held K.faults out.new) }
    ensures nothing_read { asked words.now ≡ None → input.new ≡ input.old }
    ensures unread { (seed clients rounds workers : ℕ)
        → asked words.now ≡ Some (Command.Stress seed clients rounds workers)
        → input.new ≡ input.old }
    ensures complete { CompletesFor (asked words.now) (exit_status result)
        (seen S.left S.faults input.old) (seen S.left S.faults input.new)
        (seen K.held K.faults out.old) (seen K.held K.faults out.new) }
    ensures counted { CountsFor (asked words.now) (exit_status result)
        (seen K.held K.faults out.old) (seen K.held K.faults out.new) }

    // What failed by that status is told, or a prefix of it where this fails as well.
    ensures told { (Rose (E.faults err.old) (E.faults err.new) → ⊥)
        → Appends (E.held err.old) (E.held err.new) (failure_line (exit_status result)) }
    ensures part { AppendsPrefix (E.held err.old) (E.held err.new)
        (failure_line (exit_status result)) }
{
    let status = serve_words(rt, alloc, words, input, out);
    // Where standard error fails as well, the status alone tells.
    let _told = tell(err, status);
    ExitCode::from(status)
}

/// The program: does what its words ask over standard input and output, and tells on `err` what failed.
pub fn program<R: Env + Alloc<A = Global> + Input + Print + Threads + Wait + Sync, E: Write + Drop>(
    rt: &R,
    err: E,
) -> ExitCode
    ensures exit { IsExit (exit_status result) }
{
    let words = words_of(rt);
    let mut input = StdSource::new(rt.reader());
    let mut out = StdSink::new(io::writer(rt));
    let mut err = StdSink::new(err);
    run_words(rt, rt.alloc(), &words, &mut input, &mut out, &mut err)
}
