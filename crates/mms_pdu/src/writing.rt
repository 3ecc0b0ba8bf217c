//! What the server sends.
#![tactic(auto, unfolding(ber_forms::specs::Spelling::appended), using(ber_forms::proofs::Joined::writing))]

ghost use Rattle.std.specs.Prelude.{◌≡◌, ◌++◌, Ok, Err, OnOk, OnErr, IfOk};
ghost use Rattle.ber_forms.specs.Spelling.{Begins};
ghost use Rattle.pdu_names.specs.Kinds.{context};
ghost use Rattle.pdu_names.specs.Gives.{PutsContents, Puts};
ghost use Rattle.mms_pdu.specs.Pdus.{asked, notified, responded, server_asked, pdu_octets};

use crate::request::put_argument;
use crate::response::put_result;
use ber_core::{Memory as Full, Tag, Writer};
use ber_forms::{enclose, put_universal_integer};
use mms_types::{
    Answer, CancelError, ConfirmedError, EventNotification, InitiateAnswer, Memory, Pdu, Reject,
    Request, ServerRequest, ServiceError,
};
use pdu_assoc::{
    CancelErrors, ConfirmedErrors, InitiateRequest, InitiateResponse, Rejects, ServiceErrors,
};
use pdu_events::EventNotifications;
use pdu_names::{Chosen, Formed, Null, Unsigned32, as_memory};
use pdu_programs::ServerRequests;
use std::alloc::Global;

fn put_asked(out: &mut Writer, invoke: u32, request: &Request) -> Result<(), Full>
    ensures ok { PutsContents asked (invoke, request.now) out.old out.new result }
    ensures begins { Begins out.old out.new }
{
    put_universal_integer(out, i64::from(invoke))?;
    put_argument(out, request)
}

fn put_server_asked(out: &mut Writer, invoke: u32, request: &ServerRequest) -> Result<(), Full>
    ensures ok { PutsContents server_asked (invoke, request.now) out.old out.new result }
    ensures begins { Begins out.old out.new }
{
    put_universal_integer(out, i64::from(invoke))?;
    ServerRequests::put_chosen(out, request)
}

fn put_responded(out: &mut Writer, invoke: u32, answer: &Answer) -> Result<(), Full>
    ensures ok { PutsContents responded (invoke, answer.now) out.old out.new result }
    ensures begins { Begins out.old out.new }
{
    put_universal_integer(out, i64::from(invoke))?;
    put_result(out, answer)
}

fn put_request(out: &mut Writer, invoke: u32, request: &Request) -> Result<(), Full>
    ensures ok { Puts (context 0 asked) (invoke, request.now) out.old out.new result }
    ensures err { OnErr result (out.new ≡ out.old) }
{
    let since = out.len();
    let written = put_asked(out, invoke, request);
    enclose(out, since, written, Tag::constructed(0))
}

fn put_asking(out: &mut Writer, invoke: u32, request: &ServerRequest) -> Result<(), Full>
    ensures ok { Puts (context 0 server_asked) (invoke, request.now) out.old out.new result }
    ensures err { OnErr result (out.new ≡ out.old) }
{
    let since = out.len();
    let written = put_server_asked(out, invoke, request);
    enclose(out, since, written, Tag::constructed(0))
}

fn put_response(out: &mut Writer, invoke: u32, answer: &Answer) -> Result<(), Full>
    ensures ok { Puts (context 1 responded) (invoke, answer.now) out.old out.new result }
    ensures err { OnErr result (out.new ≡ out.old) }
{
    let since = out.len();
    let written = put_responded(out, invoke, answer);
    enclose(out, since, written, Tag::constructed(1))
}

fn put_notified(out: &mut Writer, notification: &EventNotification) -> Result<(), Full>
    ensures ok { PutsContents notified notification.now out.old out.new result }
    ensures begins { Begins out.old out.new }
{
    EventNotifications::put_part(out, 2, notification)
}

fn put_notification(out: &mut Writer, notification: &EventNotification) -> Result<(), Full>
    ensures ok { Puts (context 3 notified) notification.now out.old out.new result }
    ensures err { OnErr result (out.new ≡ out.old) }
{
    let since = out.len();
    let written = put_notified(out, notification);
    enclose(out, since, written, Tag::constructed(3))
}

/// Appends the PDU, or nothing where memory runs out.
fn put(out: &mut Writer, pdu: &Pdu) -> Result<(), Full>
    ensures ok { OnOk result (out.new ≡ out.old ++ pdu_octets pdu.now) }
    ensures err { OnErr result (out.new ≡ out.old) }
{
    match pdu {
        Pdu::ConfirmedRequest { invoke, request } => put_request(out, *invoke, request),
        Pdu::ServerRequest { invoke, request } => put_asking(out, *invoke, request),
        Pdu::ConfirmedResponse { invoke, answer } => put_response(out, *invoke, answer),
        Pdu::ConfirmedError(error) => ConfirmedErrors::put_part(out, 2, error),
        Pdu::EventNotification(notification) => put_notification(out, notification.get()),
        Pdu::Reject(reject) => Rejects::put_part(out, 4, reject),
        Pdu::CancelRequest { invoke } => Unsigned32::put_part(out, 5, invoke),
        Pdu::CancelResponse { invoke } => Unsigned32::put_part(out, 6, invoke),
        Pdu::CancelError(error) => CancelErrors::put_part(out, 7, error),
        Pdu::InitiateRequest(proposal) => InitiateRequest::put_part(out, 8, proposal),
        Pdu::InitiateResponse(negotiated) => InitiateResponse::put_part(out, 9, negotiated),
        Pdu::InitiateError(error) => ServiceErrors::put_part(out, 10, error),
        Pdu::ConcludeRequest => Null::put_part(out, 11, &()),
        Pdu::ConcludeResponse => Null::put_part(out, 12, &()),
        Pdu::ConcludeError(error) => ServiceErrors::put_part(out, 13, error),
        Pdu::ModifiedRequest { .. }
        | Pdu::HeardResponse { .. }
        | Pdu::HeardError { .. }
        | Pdu::HeardReject { .. }
        | Pdu::HeardOther => Ok(()),
    }
}

/// Appends the one spelling of the PDU, one element (ISO 9506-2, MMSpdu). What was only heard is never sent, and
/// nothing is appended. Where memory is wanting, nothing is changed.
pub fn put_pdu(out: &mut Writer, pdu: &Pdu) -> Result<(), Memory>
    ensures ok { OnOk result (out.new ≡ out.old ++ pdu_octets pdu.now) }
    ensures err { OnErr result (out.new ≡ out.old) }
{
    as_memory(put(out, pdu))
}

/// Appends the one spelling of a confirmed-Request of the server, one element, as `put_pdu` appends that of the PDU.
/// Where memory is wanting, nothing is changed.
pub fn put_server_request(
    out: &mut Writer,
    invoke: u32,
    request: &ServerRequest,
) -> Result<(), Memory>
    ensures ok { OnOk result (out.new
        ≡ out.old ++ pdu_octets (Pdu.ServerRequest invoke request.now)) }
    ensures err { OnErr result (out.new ≡ out.old) }
{
    as_memory(put_asking(out, invoke, request))
}

/// Appends the one spelling of a confirmed-Response, one element, as `put_pdu` appends that of the PDU. Where memory is
/// wanting, nothing is changed.
pub fn put_answer(out: &mut Writer, invoke: u32, answer: &Answer) -> Result<(), Memory>
    ensures ok { OnOk result (out.new
        ≡ out.old ++ pdu_octets (Pdu.ConfirmedResponse invoke answer.now)) }
    ensures err { OnErr result (out.new ≡ out.old) }
{
    as_memory(put_response(out, invoke, answer))
}

/// Appends the one spelling of a confirmed-Error, one element, as `put_pdu` appends that of the PDU. Where memory is wanting,
/// nothing is changed.
pub fn put_confirmed_error(out: &mut Writer, error: &ConfirmedError) -> Result<(), Memory>
    ensures ok { OnOk result (out.new ≡ out.old ++ pdu_octets (Pdu.ConfirmedError error.now)) }
    ensures err { OnErr result (out.new ≡ out.old) }
{
    as_memory(ConfirmedErrors::put_part(out, 2, error))
}

/// Appends the one spelling of an eventNotification, one element, as `put_pdu` appends that of the PDU. Where memory is
/// wanting, nothing is changed.
pub fn put_event_notification(
    out: &mut Writer,
    notification: &EventNotification,
) -> Result<(), Memory>
    ensures ok { OnOk result (out.new
        ≡ out.old ++ pdu_octets (Pdu.EventNotification notification.now)) }
    ensures err { OnErr result (out.new ≡ out.old) }
{
    as_memory(put_notification(out, notification))
}

/// Appends the one spelling of a reject, one element, as `put_pdu` appends that of the PDU. Where memory is wanting,
/// nothing is changed.
pub fn put_reject(out: &mut Writer, reject: &Reject) -> Result<(), Memory>
    ensures ok { OnOk result (out.new ≡ out.old ++ pdu_octets (Pdu.Reject reject.now)) }
    ensures err { OnErr result (out.new ≡ out.old) }
{
    as_memory(Rejects::put_part(out, 4, reject))
}

/// Appends the one spelling of a cancel-Response, one element, as `put_pdu` appends that of the PDU. Where memory is wanting,
/// nothing is changed.
pub fn put_cancel_response(out: &mut Writer, invoke: u32) -> Result<(), Memory>
    ensures ok { OnOk result (out.new ≡ out.old ++ pdu_octets (Pdu.CancelResponse invoke)) }
    ensures err { OnErr result (out.new ≡ out.old) }
{
    as_memory(Unsigned32::put_part(out, 6, &invoke))
}

/// Appends the one spelling of a cancel-Error, one element, as `put_pdu` appends that of the PDU. Where memory is wanting,
/// nothing is changed.
pub fn put_cancel_error(out: &mut Writer, error: &CancelError) -> Result<(), Memory>
    ensures ok { OnOk result (out.new ≡ out.old ++ pdu_octets (Pdu.CancelError error.now)) }
    ensures err { OnErr result (out.new ≡ out.old) }
{
    as_memory(CancelErrors::put_part(out, 7, error))
}

/// Appends the one spelling of an initiate-Response, one element, as `put_pdu` appends that of the PDU. Where memory is wanting,
/// nothing is changed.
pub fn put_initiate_response(out: &mut Writer, negotiated: &InitiateAnswer) -> Result<(), Memory>
    ensures ok { OnOk result
        (out.new ≡ out.old ++ pdu_octets (Pdu.InitiateResponse negotiated.now)) }
    ensures err { OnErr result (out.new ≡ out.old) }
{
    as_memory(InitiateResponse::put_part(out, 9, negotiated))
}

/// Appends the one spelling of an initiate-Error, one element, as `put_pdu` appends that of the PDU. Where memory is wanting,
/// nothing is changed.
pub fn put_initiate_error(out: &mut Writer, error: &ServiceError) -> Result<(), Memory>
    ensures ok { OnOk result (out.new ≡ out.old ++ pdu_octets (Pdu.InitiateError error.now)) }
    ensures err { OnErr result (out.new ≡ out.old) }
{
    as_memory(ServiceErrors::put_part(out, 10, error))
}

/// Appends the one spelling of a conclude-Response, one element, as `put_pdu` appends that of the PDU. Where memory is wanting,
/// nothing is changed.
pub fn put_conclude_response(out: &mut Writer) -> Result<(), Memory>
    ensures ok { OnOk result (out.new ≡ out.old ++ pdu_octets Pdu.ConcludeResponse) }
    ensures err { OnErr result (out.new ≡ out.old) }
{
    as_memory(Null::put_part(out, 12, &()))
}

/// Appends the one spelling of a conclude-Error, one element, as `put_pdu` appends that of the PDU. Where memory is wanting,
/// nothing is changed.
pub fn put_conclude_error(out: &mut Writer, error: &ServiceError) -> Result<(), Memory>
    ensures ok { OnOk result (out.new ≡ out.old ++ pdu_octets (Pdu.ConcludeError error.now)) }
    ensures err { OnErr result (out.new ≡ out.old) }
{
    as_memory(ServiceErrors::put_part(out, 13, error))
}

/// The one spelling of the PDU, as `put_pdu` appends it.
pub fn write_pdu(alloc: Global, pdu: &Pdu) -> Result<Vec<u8>, Memory>
    ensures { IfOk result (λ octets. octets.items ≡ pdu_octets pdu.now) }
{
    let mut out = Writer::new(alloc);
    put_pdu(&mut out, pdu)?;
    Ok(out.finish())
}
