//! A confirmed-Request with a list of modifiers.

ghost use Rattle.std.specs.Prelude.{◌≡◌, Ok, Err, None, Some, IfOk, IsErr};
ghost use Rattle.ber_core.specs.Part.{part};
ghost use Rattle.pdu_names.specs.Editions.{lengths_of};
ghost use Rattle.pdu_sems.specs.Control.{modifiers};
ghost use Rattle.mms_pdu.specs.Pdus.{may_wait, pdu_value};
ghost use Rattle.mms_pdu.specs.Heard.{IsHeard, request_in, told_modified};
ghost use Rattle.mms_pdu.specs.Hearing.{Hears, asking, listed, modifier_at, refusal_of_list, request_told, depth_of};

use crate::reading::{Read, tell};
use crate::refusal::Refusal;
use crate::request::tell_request;
use ber_core::Element;
use ber_forms::Unread;
use mms_types::{Boxed, Edition, Modifier, Pdu, Request};
use pdu_names::Formed;
use pdu_sems::ModifierList;
use std::alloc::Global;
use std::mem;

/// A modifier may let the service of that number wait.
fn may_wait(number: u32) -> bool
    ensures { result ≡ may_wait number }
{
    number != 19 && number != 20 && number != 26
}

/// The refusal of a request whose list of modifiers could not be read.
fn refusal_of_list(invoke: u32, unread: Unread) -> Refusal
    ensures { result ≡ refusal_of_list invoke unread }
{
    match unread {
        Unread::Malformed | Unread::TooDeep => Refusal::Modifier { invoke },
        Unread::Memory => Refusal::Memory,
    }
}

/// The modifier of the list before that service, or why it is refused. It is kept in a box of its own.
#[tactic(auto, using(crate::proofs::Attached::list_read, crate::proofs::Attached::list_unread))]
fn modifier(
    alloc: Global,
    invoke: u32,
    list: Element<'_>,
    service: Element<'_>,
    edition: Edition,
) -> Result<Boxed<Modifier>, Refusal>
    ensures { Hears (λ m. modifiers.value m) result
        (listed invoke (modifier_at (lengths_of edition) edition
        (part list.entry) (part service.entry))) }
{
    match edition {
        Edition::One => return Err(Refusal::Modifier { invoke }),
        Edition::Two => {}
    }
    if !may_wait(service.tag.number) {
        return Err(Refusal::Modifier { invoke });
    }
    match ModifierList::read(alloc, list.contents, edition) {
        Ok(found) => Ok(Boxed::new(alloc, found)?),
        Err(unread) => Err(refusal_of_list(invoke, unread)),
    }
}

/// The request that was told, with its invokeID and its depth. Another stands in its place.
fn take(told: &mut Result<Read, Refusal>) -> Option<(u32, Request, u8)>
    ensures taken { result ≡ request_in told.old }
    ensures kept { result ≡ None → told.new ≡ told.old }
{
    match told {
        Ok(read) => {
            let depth = read.depth;
            match &mut read.pdu {
                Pdu::ConfirmedRequest { invoke, request } => {
                    Some((*invoke, mem::replace(request, Request::Identify), depth))
                }
                _ => None,
            }
        }
        Err(_) => None,
    }
}

/// Gives the modifier to the request that was told, if one was.
#[tactic(auto, using(crate::proofs::Attached::taken_told, crate::proofs::Attached::untaken_told))]
fn attach(modifier: Boxed<Modifier>, told: &mut Result<Read, Refusal>)
    ensures { told.new ≡ told_modified modifier told.old }
{
    if let Some((invoke, request, depth)) = take(told) {
        let pdu = Pdu::ModifiedRequest {
            invoke,
            modifier,
            request,
        };
        *told = Ok(Read { pdu, depth });
    }
}

/// Tells the request that is asked for with a list of modifiers, or why it is refused: the list first, and then as the
/// same request without.
#[inline(never)]
#[tactic(auto, using(crate::proofs::Attached::list_told, crate::proofs::Attached::list_refused, crate::proofs::Attached::attached_is_heard, crate::proofs::Attached::attached_deep))]
pub(crate) fn tell_modified(
    alloc: Global,
    invoke: u32,
    list: Element<'_>,
    service: Element<'_>,
    edition: Edition,
    told: &mut Result<Read, Refusal>,
)
    requires { IsErr told.old }
    ensures told { Hears (λ r. pdu_value r.pdu) told.new
        (request_told (lengths_of edition) edition
        (asking invoke (Some (part list.entry)) (part service.entry))) }
    ensures client { IfOk told.new (λ r. IsHeard r.pdu) }
    ensures depth { IfOk told.new (λ r. r.depth ≡ depth_of r.pdu) }
{
    match modifier(alloc, invoke, list, service, edition) {
        Ok(modifier) => {
            tell_request(alloc, invoke, service, edition, told);
            attach(modifier, told);
        }
        Err(refusal) => tell(told, Err(refusal)),
    }
}
