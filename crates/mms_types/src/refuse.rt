ghost use Rattle.std.specs.Prelude.{◌≡◌};
ghost use Rattle.mms_types.specs.declared.refuse.Refuse.TheVariants.{Memory as OutOfMemory};

use crate::{Memory, ServiceError};
use thiserror::Error;

/// Why a service is refused.
#[derive(Clone, Copy, Debug, PartialEq, Eq, Error)]
pub enum Refuse {
    /// A condition holds against it, the first of those that the service has (ISO 9506-2, ServiceError).
    #[error("the service is refused with an error of class {}", .0.class)]
    Service(ServiceError),
    /// There was not enough memory.
    #[error("out of memory")]
    Memory,
}

impl From<Memory> for Refuse {
    ghost from_gives = { λ _ e. e ≡ OutOfMemory };

    fn from(_lost: Memory) -> Refuse {
        Refuse::Memory
    }
}
