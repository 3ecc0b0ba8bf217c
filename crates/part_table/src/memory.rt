ghost use Rattle.std.specs.Prelude.{⊤};

use std::alloc::{AllocError, AllocFailed};

/// There was not enough memory. It is the one answer that no contract ties to a cause. Its field is private: outside
/// this crate one comes from an allocator's refusal alone, by `?`.
#[derive(Clone, Copy)]
pub struct Memory {
    told: (),
}

impl Memory {
    /// Want of memory, where the table that lies below finds none.
    pub(crate) fn wanting() -> Memory {
        Memory { told: () }
    }
}

impl From<AllocError> for Memory {
    ghost from_gives = { λ _ _. ⊤ };

    fn from(_lost: AllocError) -> Memory {
        Memory::wanting()
    }
}

impl<T: Drop> From<AllocFailed<T>> for Memory {
    ghost from_gives = { λ _ _. ⊤ };

    fn from(_lost: AllocFailed<T>) -> Memory {
        Memory::wanting()
    }
}

/// The part is held by another caller.
#[derive(Clone, Copy)]
pub struct Held {
    /// That caller's number.
    pub by: u32,
}
