//! Why what a client sends is refused.

ghost use Rattle.std.specs.Prelude.{◌≡◌};
ghost use Rattle.mms_pdu.specs.declared.refusal.Refusal.TheVariants as refusal;
ghost use Rattle.mms_pdu.specs.Rejects.{reject_of};

use mms_types::{Memory, Reject, RejectReason};
use thiserror::Error;

/// Why octets that a client sent are refused, in the order in which the causes are looked for, and want of memory.
#[derive(Clone, Copy, Debug, PartialEq, Eq, Error)]
pub enum Refusal {
    /// They are not one whole element, or one that is not of its PDU's form, or that only a server sends.
    #[error("the PDU is not of its form")]
    InvalidPdu,
    /// The tag is none of a PDU: context 0 to 13.
    #[error("the tag is none of a PDU")]
    UnknownType,
    /// A confirmed request has a list of modifiers. In edition 2 one of exactly one modifier is read, but not before a
    /// service that may not wait.
    #[error("request {invoke} has a list of modifiers")]
    Modifier { invoke: u32 },
    /// The service of a confirmed request is not offered.
    #[error("request {invoke} asks for a service that is not offered")]
    Service { invoke: u32 },
    /// The argument's data or type nests deeper than 10, and all before it is of its form.
    #[error("the argument of request {invoke} nests too deep")]
    Recursion { invoke: u32 },
    /// The argument is not of its form.
    #[error("the argument of request {invoke} is not of its form")]
    Argument { invoke: u32 },
    /// Memory ran out.
    #[error("out of memory")]
    Memory,
}

impl From<Memory> for Refusal {
    ghost from_gives = { λ _ e. e ≡ refusal.Memory };

    fn from(_wanting: Memory) -> Refusal {
        Refusal::Memory
    }
}

/// The reject that tells the refusal to the client (ISO 9506-2, RejectPDU), with the invokeID of a request that is
/// refused. Want of memory is told to nobody, and answered as such.
pub fn reject_for(refusal: Refusal) -> Result<Reject, Memory>
    ensures { result ≡ reject_of refusal }
{
    let (invoke, reason) = match refusal {
        Refusal::InvalidPdu => (None, RejectReason::InvalidPdu),
        Refusal::UnknownType => (None, RejectReason::UnknownPduType),
        Refusal::Modifier { invoke } => (Some(invoke), RejectReason::UnrecognizedModifier),
        Refusal::Service { invoke } => (Some(invoke), RejectReason::UnrecognizedService),
        Refusal::Recursion { invoke } => (Some(invoke), RejectReason::MaxRecursionExceeded),
        Refusal::Argument { invoke } => (Some(invoke), RejectReason::InvalidArgument),
        Refusal::Memory => return Err(Memory::wanting()),
    };
    Ok(Reject { invoke, reason })
}
