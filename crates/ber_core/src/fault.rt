//! Why octets could not be read, and want of memory.

use std::alloc::{AllocError, AllocFailed};
use thiserror::Error;

/// What is wrong with octets that are read.
#[derive(Clone, Copy, Debug, PartialEq, Eq, Error)]
pub enum BerError {
    /// The octets end before the element does.
    #[error("the octets end before the element does")]
    Short = 1,
    /// The number of a tag is spelled too long.
    #[error("the number of a tag is spelled too long")]
    BadTag = 2,
    /// The length is indefinite, or has too many octets.
    #[error("the length is indefinite, or has too many octets")]
    BadLength = 3,
    /// The contents spell no value of the type.
    #[error("the contents spell no value of the type")]
    BadContents = 4,
}

/// Want of memory. Its field is private: one comes from an allocator's refusal alone, by `?`.
#[derive(Clone, Copy, Debug, PartialEq, Eq, Error)]
#[error("out of memory")]
pub struct Memory {
    told: (),
}

impl From<AllocError> for Memory {
    fn from(_e: AllocError) -> Memory {
        Memory { told: () }
    }
}

impl<T: Drop> From<AllocFailed<T>> for Memory {
    fn from(_e: AllocFailed<T>) -> Memory {
        Memory { told: () }
    }
}
