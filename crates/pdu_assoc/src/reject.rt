//! reject.
#![tactic(auto, unfolding(ber_forms::specs::Spelling::appended), using(ber_forms::proofs::Joined::writing))]

ghost use Rattle.std.specs.Prelude.{refl, true};
ghost use Rattle.pdu_assoc.specs.Reject.{reasons, reject};

use ber_core::{Element, Memory as Full, Tag, Writer};
use ber_forms::{Unread, has_tag, put_integer, put_optional_u32, unsigned8};
use mms_types::{Edition, Reject, RejectReason};
use pdu_names::{Chosen, Formed, OneOf, Own, cursor};
use std::alloc::Global;

/// The form of a reason: those that the server gives.
pub struct Reasons;

impl Chosen for Reasons {
    type Item = RejectReason;

    ghost arms = { reasons };

    ghost needs_no_memory = { true };

    fn of(_alloc: Global, element: Element<'_>, _edition: Edition) -> Result<RejectReason, Unread> {
        if has_tag(element.tag, Tag::primitive(1)) {
            match unsigned8(element.contents)? {
                1 => Ok(RejectReason::UnrecognizedService),
                2 => Ok(RejectReason::UnrecognizedModifier),
                3 => Ok(RejectReason::InvalidInvokeId),
                4 => Ok(RejectReason::InvalidArgument),
                6 => Ok(RejectReason::MaxServOutstandingExceeded),
                8 => Ok(RejectReason::MaxRecursionExceeded),
                _ => Err(Unread::Malformed),
            }
        } else if has_tag(element.tag, Tag::primitive(5)) {
            match unsigned8(element.contents)? {
                0 => Ok(RejectReason::UnknownPduType),
                1 => Ok(RejectReason::InvalidPdu),
                _ => Err(Unread::Malformed),
            }
        } else {
            Err(Unread::Malformed)
        }
    }

    fn put_chosen(out: &mut Writer, x: &RejectReason) -> Result<(), Full> {
        match x {
            RejectReason::UnrecognizedService => put_integer(out, 1, 1),
            RejectReason::UnrecognizedModifier => put_integer(out, 1, 2),
            RejectReason::InvalidInvokeId => put_integer(out, 1, 3),
            RejectReason::InvalidArgument => put_integer(out, 1, 4),
            RejectReason::MaxServOutstandingExceeded => put_integer(out, 1, 6),
            RejectReason::MaxRecursionExceeded => put_integer(out, 1, 8),
            RejectReason::UnknownPduType => put_integer(out, 5, 0),
            RejectReason::InvalidPdu => put_integer(out, 5, 1),
        }
    }

    ghost sound = { λ _. refl };
}

/// The form of a reject that the server sends.
pub struct Rejects;

impl Formed for Rejects {
    type Item = Reject;

    ghost kind = { reject };

    ghost needs_no_memory = { true };

    fn is_constructed() -> bool {
        true
    }

    fn read(alloc: Global, contents: &[u8], edition: Edition) -> Result<Reject, Unread> {
        let mut parts = cursor(edition, contents);
        let invoke = parts.optional_u32(0)?;
        let reason = OneOf::<Reasons>::take(alloc, &mut parts, edition)?;
        parts.end()?;
        Ok(Reject { invoke, reason })
    }

    fn put(out: &mut Writer, x: &Reject) -> Result<(), Full> {
        put_optional_u32(out, 0, x.invoke)?;
        OneOf::<Reasons>::put_own(out, &x.reason)
    }

    ghost sound = { λ _. refl };
}
