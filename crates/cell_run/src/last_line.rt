//! Why a recording isn't served to its end.

ghost use Rattle.std.specs.Prelude.{◌≡◌, ◌≢◌, ◌++◌, IfOk, OnOk, Some};
ghost use Rattle.std.specs.Io.KnownBytes.{Appends, Keeps};
ghost use Rattle.cell_io.specs.Faults.{Rose};
ghost use Rattle.cell_io.specs.Prefix.{AppendsPrefix};
ghost use Rattle.cell_record.specs.Progress.{IsStated};
ghost use Rattle.cell_run.specs.Outcome.{IsFinal, last_line, status_for, word_text};

use crate::status::Status;
use cell_io::{Sink, write_all};
use cell_record::{BadWord, RecordError};
use itoa::Buffer;
use mms_types::Memory;
use std::alloc::Global;

/// A word that tells which rule a line breaks.
fn word_text(word: BadWord) -> &'static [u8]
    ensures { result.now ≡ word_text word }
{
    match word {
        BadWord::Header => b"header",
        BadWord::Config => b"config",
        BadWord::Long => b"long",
        BadWord::Event => b"event",
        BadWord::Hex => b"hex",
        BadWord::Client => b"client",
        BadWord::Clock => b"clock",
    }
}

/// The line that tells why no more of a recording is served.
fn last_line(alloc: Global, refusal: RecordError) -> Result<Vec<u8>, Memory>
    ensures { IfOk result (λ line. line.items ≡ last_line (Some refusal)) }
{
    let mut text = Vec::new(alloc);
    match refusal {
        RecordError::Bad { line, word } => {
            text.extend_from_slice(b"bad ")?;
            text.extend_from_slice(Buffer::new().format(line).as_bytes())?;
            text.extend_from_slice(b" ")?;
            text.extend_from_slice(word_text(word))?;
            text.extend_from_slice(b"\n")?;
        }
        RecordError::BadConfig { rule } => {
            text.extend_from_slice(b"bad config ")?;
            text.extend_from_slice(Buffer::new().format(rule).as_bytes())?;
            text.extend_from_slice(b"\n")?;
        }
        RecordError::TooMuch { line } => {
            text.extend_from_slice(b"too much ")?;
            text.extend_from_slice(Buffer::new().format(line).as_bytes())?;
            text.extend_from_slice(b"\n")?;
        }
        RecordError::ReadFault => {}
        RecordError::Memory => {}
    }
    Ok(text)
}

/// Writes why no more of a recording is served. A fault of the source and want of memory have no line: nothing is
/// written then.
pub fn refuse<K: Sink>(alloc: Global, out: &mut K, refusal: RecordError) -> Status
    ensures stated { IsFinal result → (result ≡ status_for (Some refusal))
        × Appends (K.held out.old) (K.held out.new) (last_line (Some refusal)) }
    ensures partly { AppendsPrefix (K.held out.old) (K.held out.new) (last_line (Some refusal)) }
    ensures read { result ≡ Status.ReadFault → (refusal ≡ RecordError.ReadFault)
        × Keeps (K.held out.old) (K.held out.new) }
    ensures write { result ≡ Status.WriteFault → Rose (K.faults out.old) (K.faults out.new) }
    ensures accepted { result ≢ Status.WriteFault → K.faults out.new ≡ K.faults out.old }
    ensures unstated { ¬ (IsStated refusal)
        → (result ≡ status_for (Some refusal)) × (out.new ≡ out.old) }
    ensures known { (result ≢ Status.Done) × (result ≢ Status.Usage) }
{
    let status = match refusal {
        RecordError::ReadFault => return Status::ReadFault,
        RecordError::Memory => return Status::Memory,
        RecordError::Bad { .. } => Status::Bad,
        RecordError::BadConfig { .. } => Status::BadConfig,
        RecordError::TooMuch { .. } => Status::TooMuch,
    };
    let Ok(line) = last_line(alloc, refusal) else {
        return Status::Memory;
    };
    match write_all(out, &line) {
        Ok(()) => status,
        Err(_) => Status::WriteFault,
    }
}
