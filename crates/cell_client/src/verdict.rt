//! What the octets of a client come to, before any service is asked.

ghost use Rattle.std.specs.Prelude.{◌≡◌, nat_lt, true, None, Some, Ok, Err, IfOk, OnErr, OnOk, Result};
ghost use Rattle.association.specs.Admission.{admission};
ghost use Rattle.association.specs.Asked.{asked_of};
ghost use Rattle.association.specs.Waiting.{is_waiting};
ghost use Rattle.cell_client.specs.Association.{admitted, answered_by, cancelled, concluded, failed_by, heard_error, heard_response, idle_verdict, modified, open_verdict, rejected, requested, verdict_by};
ghost use Rattle.cell_client.specs.Meant.{meant};
ghost use Rattle.cell_client.specs.Reads.{pdu_read, wants_memory, IsDeep};

use association::{ClientPart, Negotiated, NotAdmitted};
use mms_pdu::{Read, Refusal, reject_for};
use mms_types::{
    Asked, ClientAnswer, Initiate, Memory, Pdu, Reject, RejectReason, Request, Segment,
};

/// What a client is told at once.
#[derive(Clone, Copy)]
pub enum AtOnce<'a> {
    Nothing,
    Abort,
    Reject(Reject),
    /// The answer to a proposal, or why it is refused.
    Negotiation(&'a Initiate),
    /// A conclusion is refused: further-communication-required.
    NoConclusion,
    /// There is nothing to cancel: invoke-id-unknown.
    NoCancel(u32),
    /// Nothing, but the server's request of that number isn't unanswered any more.
    Settles(u32),
}

/// What a client answers to a request of the server that is of a load (ISO 9506-2, DownloadSegment and
/// TerminateDownloadSequence).
#[derive(Clone, Copy)]
pub enum Came<'a> {
    /// A segment of the domain.
    Arrives(&'a Segment),
    /// The load has ended.
    Ends,
    /// It is an error or a reject.
    Fails,
}

/// What octets come to. A request is the one that was read.
#[derive(Clone, Copy)]
pub enum Found<'a> {
    /// The client is told something, and nothing else comes of it.
    Tells(AtOnce<'a>),
    /// The request of that invokeID is to be served.
    Takes(u32, &'a Request),
    /// The server's request of that number, which is of a load, is answered.
    Replies(u32, Came<'a>),
    /// A conclusion that neither a waiting nor an unanswered request refuses.
    Concludes,
    /// The request of that invokeID, which waits, is cancelled.
    Cancels(u32),
    /// A proposal in an association.
    Aborts,
}

/// A request is rejected.
fn rejects<'a>(invoke: u32, reason: RejectReason) -> Found<'a>
    ensures { result ≡ Found.Tells
        (AtOnce.Reject (record { invoke = Some invoke; reason = reason })) }
{
    Found::Tells(AtOnce::Reject(Reject {
        invoke: Some(invoke),
        reason,
    }))
}

/// What is heard without an association.
fn idle<'a>(read: &'a Result<Read, Refusal>) -> Found<'a>
    ensures { meant result ≡ idle_verdict (pdu_read read.now) }
{
    match read {
        Ok(
            Read {
                pdu: Pdu::InitiateRequest(proposal),
                ..
            },
        ) => Found::Tells(AtOnce::Negotiation(proposal)),
        _ => Found::Tells(AtOnce::Abort),
    }
}

/// What a request comes to that is read.
fn asked<'a>(
    values: &Negotiated,
    part: &ClientPart,
    depth: u8,
    invoke: u32,
    request: &'a Request,
) -> Found<'a>
    ensures { meant result ≡ requested
        (nat_lt values.now.nesting depth) part.now.row invoke request.now }
{
    if depth > values.nesting {
        return rejects(invoke, RejectReason::MaxRecursionExceeded);
    }
    match part.admit(invoke) {
        Ok(()) => Found::Takes(invoke, request),
        Err(NotAdmitted::Waiting) => rejects(invoke, RejectReason::InvalidInvokeId),
        Err(NotAdmitted::Outstanding) => {
            rejects(invoke, RejectReason::MaxServOutstandingExceeded)
        }
    }
}

/// What a request with a modifier comes to that is read: it isn't carried out yet.
fn modified<'a>(values: &Negotiated, depth: u8, invoke: u32) -> Found<'a>
    ensures { meant result ≡ modified (nat_lt values.now.nesting depth) invoke }
{
    if depth > values.nesting {
        rejects(invoke, RejectReason::MaxRecursionExceeded)
    } else {
        rejects(invoke, RejectReason::UnrecognizedModifier)
    }
}

/// What a conclusion comes to.
fn conclusion<'a>(part: &ClientPart) -> Found<'a>
    ensures { meant result ≡ concluded part.now.row.waiting part.now.row.asked }
{
    if part.has_waiting() || part.unanswered() > 0 {
        Found::Tells(AtOnce::NoConclusion)
    } else {
        Found::Concludes
    }
}

/// What a cancel-Request comes to.
fn cancel<'a>(part: &ClientPart, invoke: u32) -> Found<'a>
    ensures { meant result ≡ cancelled (is_waiting invoke part.now.row.waiting) invoke }
{
    if part.is_waiting(invoke) {
        Found::Cancels(invoke)
    } else {
        Found::Tells(AtOnce::NoCancel(invoke))
    }
}

/// What answers no request of the server as it was asked is invalid.
fn invalid<'a>() -> Found<'a>
    ensures { result ≡ Found.Tells
        (AtOnce.Reject (record { invoke = None; reason = RejectReason.InvalidPdu })) }
{
    Found::Tells(AtOnce::Reject(Reject {
        invoke: None,
        reason: RejectReason::InvalidPdu,
    }))
}

/// What a positive answer comes to, where that is asked by the request of its number.
fn answered<'a>(number: u32, asked: Asked, answer: &'a ClientAnswer) -> Found<'a>
    ensures { meant result ≡ answered_by number asked answer.now }
{
    match (asked, answer) {
        (Asked::Segment, ClientAnswer::DownloadSegment(segment)) => {
            Found::Replies(number, Came::Arrives(segment))
        }
        (Asked::Terminate, ClientAnswer::TerminateDownloadSequence) => {
            Found::Replies(number, Came::Ends)
        }
        (Asked::Discard, ClientAnswer::TerminateDownloadSequence) => {
            Found::Tells(AtOnce::Settles(number))
        }
        _ => invalid(),
    }
}

/// What an error or a reject comes to, where that is asked by the request of its number.
fn failed<'a>(number: u32, asked: Asked) -> Found<'a>
    ensures { meant result ≡ failed_by number asked }
{
    match asked {
        Asked::Segment | Asked::Terminate => Found::Replies(number, Came::Fails),
        Asked::Discard => Found::Tells(AtOnce::Settles(number)),
    }
}

/// What a confirmed response comes to.
fn response<'a>(part: &ClientPart, number: u32, answer: &'a ClientAnswer) -> Found<'a>
    ensures { meant result
        ≡ heard_response number answer.now (asked_of number part.now.row.asked) }
{
    match part.asked(number) {
        None => invalid(),
        Some((asked, _)) => answered(number, asked, answer),
    }
}

/// What a confirmed error comes to.
fn error<'a>(part: &ClientPart, number: u32) -> Found<'a>
    ensures { meant result ≡ heard_error number (asked_of number part.now.row.asked) }
{
    match part.asked(number) {
        None => invalid(),
        Some((asked, _)) => failed(number, asked),
    }
}

/// What a reject comes to.
fn reject<'a>(part: &ClientPart, number: Option<u32>) -> Found<'a>
    ensures { meant result ≡ rejected number part.now.row.asked }
{
    let Some(number) = number else {
        return Found::Tells(AtOnce::Nothing);
    };
    match part.asked(number) {
        None => Found::Tells(AtOnce::Nothing),
        Some((asked, _)) => failed(number, asked),
    }
}

/// What is heard in an association of those values. The one refusal is that memory was wanting to read it.
fn open<'a>(
    values: &Negotiated,
    part: &ClientPart,
    read: &'a Result<Read, Refusal>,
) -> Result<Found<'a>, Memory>
    requires depth { IsDeep read.now }
    ensures verdict { IfOk result (λ found. meant found
        ≡ open_verdict values.now part.now.row (pdu_read read.now)) }
    ensures wants { OnErr result (wants_memory read.now ≡ true) }
{
    let read = match read {
        Err(refusal) => return Ok(Found::Tells(AtOnce::Reject(reject_for(*refusal)?))),
        Ok(read) => read,
    };
    Ok(match &read.pdu {
        Pdu::InitiateRequest(_) => Found::Aborts,
        Pdu::ConcludeRequest => conclusion(part),
        Pdu::CancelRequest { invoke } => cancel(part, *invoke),
        Pdu::ConfirmedRequest { invoke, request } => {
            asked(values, part, read.depth, *invoke, request)
        }
        Pdu::ModifiedRequest { invoke, .. } => modified(values, read.depth, *invoke),
        Pdu::HeardResponse { invoke, answer } => response(part, *invoke, answer),
        Pdu::HeardError { invoke } => error(part, *invoke),
        Pdu::HeardReject { invoke } => reject(part, *invoke),
        Pdu::ServerRequest { .. }
        | Pdu::ConfirmedResponse { .. }
        | Pdu::ConfirmedError(_)
        | Pdu::Reject(_)
        | Pdu::CancelResponse { .. }
        | Pdu::CancelError(_)
        | Pdu::EventNotification(_)
        | Pdu::HeardOther
        | Pdu::InitiateResponse(_)
        | Pdu::InitiateError(_)
        | Pdu::ConcludeResponse
        | Pdu::ConcludeError(_) => Found::Tells(AtOnce::Nothing),
    })
}

/// What was read comes to, for a client with that part. The one refusal is that memory was wanting to read it.
pub fn verdict_of<'a>(
    part: &ClientPart,
    read: &'a Result<Read, Refusal>,
) -> Result<Found<'a>, Memory>
    requires depth { IsDeep read.now }
    ensures verdict { IfOk result (λ found. meant found
        ≡ verdict_by part.now.row.association part.now.row (pdu_read read.now)) }
    ensures wants { OnErr result (wants_memory read.now ≡ true) }
{
    match part.negotiated() {
        None => Ok(idle(read)),
        Some(values) => open(values, part, read),
    }
}
