ghost use Rattle.std.specs.Prelude.{◌≡◌};
ghost use Rattle.cell_record.specs.declared.said.LineError.TheVariants.{Memory as OutOfMemory};

use crate::BadWord;
use mms_types::{CellEvent, Memory};

/// What a line says.
#[derive(Drop)]
pub enum LineMeaning {
    /// Nothing: the line is empty or a comment.
    Nothing,
    /// A phase ends.
    Phase,
    /// This happens.
    Happens(CellEvent),
}

/// Why a line says nothing.
#[derive(Clone, Copy, Drop)]
pub enum LineError {
    /// It breaks this rule.
    Bad(BadWord),
    /// Want of memory.
    Memory,
}

impl From<Memory> for LineError {
    ghost from_gives = { λ _ e. e ≡ OutOfMemory };

    fn from(_lost: Memory) -> LineError {
        LineError::Memory
    }
}
