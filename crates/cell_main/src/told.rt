//! What is told of a failure.

ghost use Rattle.std.specs.Prelude.{◌≡◌, OnOk, OnErr};
ghost use Rattle.std.specs.Io.KnownBytes.{Appends};
ghost use Rattle.cell_io.specs.Faults.{CountsFault};
ghost use Rattle.cell_io.specs.Prefix.{AppendsPrefix};
ghost use Rattle.cell_main.specs.Failure.{failure_line};

use cell_io::{Failed, Sink, write_all};

/// What failed, as a line, where the status says that something did; nothing where it says none.
pub fn failure(status: u8) -> &'static [u8]
    ensures { result.now ≡ failure_line status }
{
    match status {
        3 => b"mmscell: out of memory\n",
        4 => b"mmscell: standard input can't be read\n",
        5 => b"mmscell: standard output can't be written\n",
        _ => b"",
    }
}

/// Tells what failed, where the status says that something did. Where that can't be written as well, the status alone
/// tells.
pub fn tell<E: Sink>(err: &mut E, status: u8) -> Result<(), Failed>
    ensures whole { OnOk result (Appends (E.held err.old) (E.held err.new) (failure_line status)) }
    ensures part { OnErr result
        (AppendsPrefix (E.held err.old) (E.held err.new) (failure_line status)) }
    ensures cause { CountsFault (E.faults err.old) (E.faults err.new) result }
{
    write_all(err, failure(status))
}
