//! What became of a variable that was read or written (ISO 9506-2, AccessResult and DataAccessError).

ghost use Rattle.std.specs.Prelude.{◌≡◌, ◌<◌};
ghost use Rattle.mms_types.specs.AccessErrors.{access_error_number};

use crate::{Data, Listed};

/// Why a variable was not read or not written (ISO 9506-2, DataAccessError).
#[derive(Clone, Copy)]
pub enum DataAccessError {
    ObjectInvalidated,
    HardwareFault,
    TemporarilyUnavailable,
    ObjectAccessDenied,
    ObjectUndefined,
    InvalidAddress,
    TypeUnsupported,
    TypeInconsistent,
    ObjectAttributeInconsistent,
    ObjectAccessUnsupported,
    ObjectNonExistent,
    ObjectValueInvalid,
}

impl DataAccessError {
    /// The error of that number, from 0 to 11.
    pub fn numbered(number: u8) -> DataAccessError
        requires { number < 12 }
        ensures { access_error_number result ≡ number }
    {
        match number {
            0 => DataAccessError::ObjectInvalidated,
            1 => DataAccessError::HardwareFault,
            2 => DataAccessError::TemporarilyUnavailable,
            3 => DataAccessError::ObjectAccessDenied,
            4 => DataAccessError::ObjectUndefined,
            5 => DataAccessError::InvalidAddress,
            6 => DataAccessError::TypeUnsupported,
            7 => DataAccessError::TypeInconsistent,
            8 => DataAccessError::ObjectAttributeInconsistent,
            9 => DataAccessError::ObjectAccessUnsupported,
            10 => DataAccessError::ObjectNonExistent,
            _ => DataAccessError::ObjectValueInvalid,
        }
    }

    /// Its number, from 0 to 11.
    pub fn number(self) -> u8
        ensures { result ≡ access_error_number self }
    {
        self as u8
    }
}

/// What was read of a variable (ISO 9506-2, AccessResult).
#[derive(Drop)]
pub enum AccessResult {
    /// Nothing, and why.
    Failure(DataAccessError),
    /// Its data.
    Success(Data),
}

/// What was read of each variable, in order. Contracts see the list of them.
pub type AccessResults = Listed<AccessResult>;

/// Data of each variable, in order. Contracts see the list of them.
pub type DataList = Listed<Data>;

/// What became of a variable that was to be written (ISO 9506-2, Write-Response).
#[derive(Clone, Copy)]
pub enum WriteResult {
    /// It is as before, and why.
    Failure(DataAccessError),
    /// It was written.
    Success,
}

/// What became of each variable that was to be written, in order. Contracts see the list of them.
pub type WriteResults = Listed<WriteResult>;

/// What a write answers (ISO 9506-2, Write-Response).
pub type WriteAnswer = WriteResults;
