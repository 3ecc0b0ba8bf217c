//! How what a client is told is spelled, where it is told by a plan.

ghost use Rattle.std.specs.Prelude.{◌≡◌, [], true, false, IfOk, MatchOption, OnErr, OnOk, Some};
ghost use Rattle.mms_pdu.specs.Pdus.{pdu_octets};
ghost use Rattle.mms_types.specs.declared.pdu.Pdu.TheVariants as pdu;
ghost use Rattle.cell_client.specs.Association.{further_error, sends};
ghost use Rattle.cell_client.specs.Effects.{Sends};
ghost use Rattle.cell_client.specs.Requests.{fits, refuses};
ghost use Rattle.cell_client.specs.Telling.{effect_of};

use crate::ClientTold;
use mms_pdu::{
    Writer, put_answer, put_cancel_response, put_conclude_error, put_conclude_response,
    put_confirmed_error, put_event_notification,
};
use mms_types::{Answer, ConfirmedError, EventNotification, Memory, Octets, ServiceError, What};
use std::alloc::Global;

/// A client is sent a PDU, as it is spelled there.
fn sent(alloc: Global, out: &Writer) -> Result<ClientTold, Memory>
    ensures { IfOk result (λ told. effect_of told ≡ Sends (What.Octets out.now)) }
{
    Ok(ClientTold::Sends(What::Octets(Octets::from_slice(alloc, out.octets())?)))
}

/// The octets of a positive answer.
pub fn answer_octets(alloc: Global, invoke: u32, answer: &Answer) -> Result<Octets, Memory>
    ensures { IfOk result (λ octets.
        octets ≡ pdu_octets (pdu.ConfirmedResponse invoke answer.now)) }
{
    let mut out = Writer::new(alloc);
    put_answer(&mut out, invoke, answer)?;
    Octets::from_slice(alloc, out.octets())
}

/// A client is sent a positive answer, where it is not longer than so many octets.
pub fn answer_within(
    alloc: Global,
    size: u32,
    invoke: u32,
    answer: &Answer,
) -> Result<Option<ClientTold>, Memory>
    ensures { IfOk result (λ told. MatchOption told
        (fits size invoke (Some answer.now) ≡ false)
        (λ sent. (fits size invoke (Some answer.now) ≡ true)
        × (effect_of sent ≡ sends (pdu.ConfirmedResponse invoke answer.now)))) }
{
    let octets = answer_octets(alloc, invoke, answer)?;
    if octets.len() > size as usize {
        return Ok(None);
    }
    Ok(Some(ClientTold::Sends(What::Octets(octets))))
}

/// A client is sent a confirmed-Error.
pub fn refusal(alloc: Global, invoke: u32, error: ServiceError) -> Result<ClientTold, Memory>
    ensures { IfOk result (λ told. effect_of told ≡ refuses invoke error) }
{
    let error = ConfirmedError {
        invoke,
        modifier: None,
        error,
    };
    let mut out = Writer::new(alloc);
    put_confirmed_error(&mut out, &error)?;
    sent(alloc, &out)
}

/// A client is sent an eventNotification. What it is spelled into is given, and has these octets alone then; without
/// memory it has none.
pub fn notification(
    alloc: Global,
    out: &mut Writer,
    told: &EventNotification,
) -> Result<ClientTold, Memory>
    ensures sent { IfOk result (λ sent. effect_of sent ≡ sends (pdu.EventNotification told.now)) }
    ensures spelled { OnOk result (out.new ≡ pdu_octets (pdu.EventNotification told.now)) }
    ensures emptied { OnErr result (out.new ≡ []) }
{
    out.truncate(0);
    put_event_notification(out, told)?;
    let told = sent(alloc, out);
    if told.is_err() {
        out.truncate(0);
    }
    told
}

/// A client is sent a conclude-Response.
pub fn conclude_response(alloc: Global) -> Result<ClientTold, Memory>
    ensures { IfOk result (λ told. effect_of told ≡ sends pdu.ConcludeResponse) }
{
    let mut out = Writer::new(alloc);
    put_conclude_response(&mut out)?;
    sent(alloc, &out)
}

/// A client is sent a conclude-Error: further communication is required.
pub fn conclude_error(alloc: Global) -> Result<ClientTold, Memory>
    ensures { IfOk result (λ told. effect_of told ≡ sends (pdu.ConcludeError further_error)) }
{
    let mut out = Writer::new(alloc);
    put_conclude_error(&mut out, &ServiceError::FURTHER_COMMUNICATION_REQUIRED)?;
    sent(alloc, &out)
}

/// A client is sent a cancel-Response.
pub fn cancel_response(alloc: Global, invoke: u32) -> Result<ClientTold, Memory>
    ensures { IfOk result (λ told. effect_of told ≡ sends (pdu.CancelResponse invoke)) }
{
    let mut out = Writer::new(alloc);
    put_cancel_response(&mut out, invoke)?;
    sent(alloc, &out)
}
