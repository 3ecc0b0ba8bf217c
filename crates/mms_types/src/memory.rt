ghost use Rattle.std.specs.Prelude.{◌≡◌};
ghost use Rattle.mms_types.specs.Wanting.{wanting};

use std::alloc::{AllocError, AllocFailed};
use thiserror::Error;

/// There was not enough memory. It is the one answer that no contract ties to a cause.
///
/// Its field is private: one comes from an allocator's refusal, by `?`, or from [`Memory::wanting`] and nowhere else.
/// So a search for that name finds each place where want of memory is told that no allocator told there.
#[derive(Clone, Copy, Debug, PartialEq, Eq, Error)]
#[error("out of memory")]
pub struct Memory {
    told: (),
}

impl Memory {
    /// Want of memory, where what refused says so in a type of its own, or where a count has run out.
    pub fn wanting() -> Memory
        ensures { result ≡ wanting }
    {
        Memory { told: () }
    }
}

impl From<AllocError> for Memory {
    ghost from_gives = { λ _ e. e ≡ wanting };

    fn from(_lost: AllocError) -> Memory {
        Memory::wanting()
    }
}

impl<T: Drop> From<AllocFailed<T>> for Memory {
    ghost from_gives = { λ _ e. e ≡ wanting };

    fn from(_lost: AllocFailed<T>) -> Memory {
        Memory::wanting()
    }
}
