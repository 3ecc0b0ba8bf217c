ghost use Rattle.std.specs.Prelude.{◌≡◌};
ghost use Rattle.cell_record.specs.declared.refusal.RecordError.TheVariants.{Memory as OutOfMemory};

use std::alloc::{AllocError, AllocFailed};
use thiserror::Error;

/// Which rule of the recording's text a line breaks. Where a line breaks several, the first of
/// these is told.
#[derive(Clone, Copy, Debug, PartialEq, Eq, Drop, Error)]
pub enum BadWord {
    /// Line 1 names no edition: it isn't `mms-recording 1` or `mms-recording 2`.
    #[error("header")]
    Header,
    /// Line 2 isn't `config`, the line `end` is missing, or the configuration's text passes
    /// 1,048,576 octets.
    #[error("config")]
    Config,
    /// The line has more than 196,608 octets, its end not counted.
    #[error("long")]
    Long,
    /// The line begins with no digit, and is of no form.
    #[error("event")]
    Event,
    /// The line begins with a digit, and isn't a client's number and 1 to 65,000 octets in
    /// hexadecimal digits.
    #[error("hex")]
    Hex,
    /// There is no client of that number.
    #[error("client")]
    Client,
    /// The moment would pass the last one that a time names.
    #[error("clock")]
    Clock,
}

/// Why a recording isn't read any further.
#[derive(Clone, Copy, Debug, PartialEq, Eq, Drop, Error)]
pub enum RecordError {
    /// The source failed.
    #[error("the source failed")]
    ReadFault,
    /// The line of that number, from 1, breaks a rule, or is missing.
    #[error("bad {line} {word}")]
    Bad { line: u64, word: BadWord },
    /// The configuration breaks the rule of that number, and no rule of a lesser one.
    #[error("bad config {rule}")]
    BadConfig { rule: u8 },
    /// With the line of that number, from 1, a phase has more than 16,384 events or 67,108,864
    /// octets of PDUs, or the input more than 4,294,967,296 octets.
    #[error("too much {line}")]
    TooMuch { line: u64 },
    /// Want of memory.
    #[error("out of memory")]
    Memory,
}

impl From<cell_io::Memory> for RecordError {
    ghost from_gives = { λ _ e. e ≡ OutOfMemory };

    fn from(_lost: cell_io::Memory) -> RecordError {
        RecordError::Memory
    }
}

impl From<mms_types::Memory> for RecordError {
    ghost from_gives = { λ _ e. e ≡ OutOfMemory };

    fn from(_lost: mms_types::Memory) -> RecordError {
        RecordError::Memory
    }
}

impl From<AllocError> for RecordError {
    ghost from_gives = { λ _ e. e ≡ OutOfMemory };

    fn from(_lost: AllocError) -> RecordError {
        RecordError::Memory
    }
}

impl<T: Drop> From<AllocFailed<T>> for RecordError {
    ghost from_gives = { λ _ e. e ≡ OutOfMemory };

    fn from(_lost: AllocFailed<T>) -> RecordError {
        RecordError::Memory
    }
}
