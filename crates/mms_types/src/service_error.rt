ghost use Rattle.std.specs.Prelude.{◌≡◌};
ghost use Rattle.mms_types.specs.InvocationStates.{state_refuses};

use crate::InvocationState;

/// The state of the object that a request is refused for (ISO 9506-2, ServiceError,
/// serviceSpecificInformation).
#[derive(Clone, Copy, Debug, PartialEq, Eq)]
pub struct StateInfo {
    /// The number of the choice: the kind of request that is refused.
    pub kind: u8,
    /// The state, by its number.
    pub state: u8,
}

/// Why a request is refused (ISO 9506-2, ServiceError).
#[derive(Clone, Copy, Debug, PartialEq, Eq)]
pub struct ServiceError {
    /// The number of the error class: the choice of errorClass.
    pub class: u8,
    /// The number of the error in its class.
    pub code: u8,
    /// More of the refusal, where the service tells it.
    pub info: Option<StateInfo>,
}

/// A request is refused (ISO 9506-2, Confirmed-ErrorPDU).
#[derive(Clone, Copy)]
pub struct ConfirmedError {
    /// The invokeID of the request.
    pub invoke: u32,
    /// The place of the modifier that is refused, where one is.
    pub modifier: Option<u32>,
    pub error: ServiceError,
}

/// A request is not cancelled (ISO 9506-2, Cancel-ErrorPDU).
#[derive(Clone, Copy)]
pub struct CancelError {
    /// The invokeID of the request.
    pub invoke: u32,
    pub error: ServiceError,
}

/// The errors that the server answers, without more of the refusal; `errors_have_their_numbers` tells class and code
/// of each.
impl ServiceError {
    /// Class vmd-state: the transfer of a domain went wrong.
    pub const DOMAIN_TRANSFER_PROBLEM: ServiceError = ServiceError {
        class: 0,
        code: 3,
        info: None,
    };

    /// Class definition: what the new object would belong to is not there.
    pub const OBJECT_UNDEFINED: ServiceError = ServiceError {
        class: 2,
        code: 1,
        info: None,
    };

    /// Class definition: there is no such address.
    pub const INVALID_ADDRESS: ServiceError = ServiceError {
        class: 2,
        code: 2,
        info: None,
    };

    /// Class definition: the types do not go together.
    pub const TYPE_INCONSISTENT: ServiceError = ServiceError {
        class: 2,
        code: 4,
        info: None,
    };

    /// Class definition: the name is taken.
    pub const OBJECT_EXISTS: ServiceError = ServiceError {
        class: 2,
        code: 5,
        info: None,
    };

    /// Class resource: there is no room for one more.
    pub const CAPABILITY_UNAVAILABLE: ServiceError = ServiceError {
        class: 3,
        code: 4,
        info: None,
    };

    /// Class service: none of its other errors.
    pub const OTHER: ServiceError = ServiceError {
        class: 4,
        code: 0,
        info: None,
    };

    /// Class service: the object's state does not allow it.
    pub const OBJECT_STATE_CONFLICT: ServiceError = ServiceError {
        class: 4,
        code: 2,
        info: None,
    };

    /// Class service: other objects stand against it.
    pub const OBJECT_CONSTRAINT_CONFLICT: ServiceError = ServiceError {
        class: 4,
        code: 5,
        info: None,
    };

    /// Class service-preempt: the time was over.
    pub const TIMEOUT: ServiceError = ServiceError {
        class: 5,
        code: 1,
        info: None,
    };

    /// Class service-preempt: the request was cancelled.
    pub const CANCEL: ServiceError = ServiceError {
        class: 5,
        code: 3,
        info: None,
    };

    /// Class access: the object is not there.
    pub const OBJECT_NON_EXISTENT: ServiceError = ServiceError {
        class: 7,
        code: 2,
        info: None,
    };

    /// Class access: the client may not do it.
    pub const OBJECT_ACCESS_DENIED: ServiceError = ServiceError {
        class: 7,
        code: 3,
        info: None,
    };

    /// Class initiate: the version is not supported.
    pub const VERSION_INCOMPATIBLE: ServiceError = ServiceError {
        class: 8,
        code: 1,
        info: None,
    };

    /// Class initiate: the size of a PDU is too small.
    pub const MAX_SEGMENT_INSUFFICIENT: ServiceError = ServiceError {
        class: 8,
        code: 2,
        info: None,
    };

    /// Class initiate: too few requests may be outstanding on the calling side.
    pub const CALLING_INSUFFICIENT: ServiceError = ServiceError {
        class: 8,
        code: 3,
        info: None,
    };

    /// Class initiate: too few requests may be outstanding on the called side.
    pub const CALLED_INSUFFICIENT: ServiceError = ServiceError {
        class: 8,
        code: 4,
        info: None,
    };

    /// Class initiate: data may not nest deep enough.
    pub const NESTING_INSUFFICIENT: ServiceError = ServiceError {
        class: 8,
        code: 7,
        info: None,
    };

    /// Class conclude: there is more to be done on the association.
    pub const FURTHER_COMMUNICATION_REQUIRED: ServiceError = ServiceError {
        class: 9,
        code: 1,
        info: None,
    };

    /// Class cancel: no request of that invokeID waits.
    pub const INVOKE_ID_UNKNOWN: ServiceError = ServiceError {
        class: 10,
        code: 1,
        info: None,
    };
}

impl ServiceError {
    /// Class service: the state of a program invocation does not allow it, which stands under the number of the kind of
    /// request: Start 1, Stop 2, Resume 3, Reset 4.
    pub fn state_refuses(kind: u8, state: InvocationState) -> ServiceError
        ensures { result ≡ state_refuses kind state }
    {
        ServiceError {
            class: 4,
            code: 2,
            info: Some(StateInfo {
                kind,
                state: state.number(),
            }),
        }
    }
}
