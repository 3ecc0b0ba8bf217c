ghost use Rattle.std.specs.Prelude.{◌≡◌, ⊤};
ghost use Rattle.cell_io.specs.declared.want.WriteError.TheVariants as write_error;

use crate::Failed;
use std::alloc::{AllocError, AllocFailed};
use thiserror::Error;

/// Want of memory. Its field is private: outside this crate one comes from an allocator's refusal alone, by `?`.
#[derive(Clone, Copy, Debug, PartialEq, Eq, Drop, Error)]
#[error("out of memory")]
pub struct Memory {
    told: (),
}

impl Memory {
    /// Want of memory, where no buffer can be so long.
    pub(crate) fn wanting() -> Memory {
        Memory { told: () }
    }
}

impl From<AllocError> for Memory {
    ghost from_gives = { λ _ _. ⊤ };

    fn from(_error: AllocError) -> Memory {
        Memory::wanting()
    }
}

impl<T: Drop> From<AllocFailed<T>> for Memory {
    ghost from_gives = { λ _ _. ⊤ };

    fn from(_failed: AllocFailed<T>) -> Memory {
        Memory::wanting()
    }
}

/// Why a writer that also takes memory stopped.
#[derive(Clone, Copy, Debug, PartialEq, Eq, Drop, Error)]
pub enum WriteError {
    /// The sink failed.
    #[error("the sink failed")]
    Fault,
    /// Want of memory.
    #[error("out of memory")]
    Memory,
}

impl From<Failed> for WriteError {
    ghost from_gives = { λ _ e. e ≡ write_error.Fault };

    fn from(_failed: Failed) -> WriteError {
        WriteError::Fault
    }
}

impl From<Memory> for WriteError {
    ghost from_gives = { λ _ e. e ≡ write_error.Memory };

    fn from(_memory: Memory) -> WriteError {
        WriteError::Memory
    }
}

impl From<AllocError> for WriteError {
    ghost from_gives = { λ _ e. e ≡ write_error.Memory };

    fn from(_error: AllocError) -> WriteError {
        WriteError::Memory
    }
}

impl<T: Drop> From<AllocFailed<T>> for WriteError {
    ghost from_gives = { λ _ e. e ≡ write_error.Memory };

    fn from(_failed: AllocFailed<T>) -> WriteError {
        WriteError::Memory
    }
}
