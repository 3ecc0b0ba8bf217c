//! Who is granted a token is told (ISO 9506-2, TakeControl).

ghost use Rattle.std.specs.Prelude.{◌≡◌, ◌++◌, false, is_some, IfNone, IfOk, IfSome, OnErr, OnOk, OnSome, Some, take, vec_len};
ghost use Rattle.mms_types.specs.declared.pdu.Pdu.TheVariants as pdu;
ghost use Rattle.cell_client.specs.Association.{other_error, sends};
ghost use Rattle.cell_client.specs.Telling.{effect_of, effects_told};
ghost use Rattle.cell_client.specs.Areas.{IsServedIn, IsToldIn};
ghost use Rattle.cell_client.specs.Effects.{felt, settled};
ghost use Rattle.cell_client.specs.Facts.{Facts};
ghost use Rattle.cell_client.specs.Requests.{fits, refuses, size_of};
ghost use Rattle.mms_pdu.specs.Pdus.{pdu_octets};
ghost use Rattle.mms_time.specs.Services.{relinquish_after};
ghost use Rattle.serve_semaphores.specs.Semaphores.{grant_told, grants_told, relinquish_control};
ghost use Rattle.serve_semaphores.specs.Tokens.{grants_nobody};

use cell_client::{Client, ClientTold, answer_octets, one_told, size_of};
use mms_time::Semaphores;
use mms_types::{
    Answer, Memory, Octets, Refuse, RelinquishControl, ServiceError, TakeControlAnswer, What,
};
use sem_ticks::{Granted, relinquish_told};
use std::alloc::Global;

/// A client is sent the answer to a request for a token that waited.
fn granted(alloc: Global, invoke: u32, answer: TakeControlAnswer) -> Result<ClientTold, Memory>
    ensures { IfOk result (λ told. effect_of told
        ≡ sends (pdu.ConfirmedResponse invoke (Answer.TakeControl answer))) }
{
    let octets = answer_octets(alloc, invoke, &Answer::TakeControl(answer))?;
    Ok(ClientTold::Sends(What::Octets(octets)))
}

/// Tells a client that waited that it has a token, after what is told before. The one refusal is want of memory; then
/// what is told is as before.
pub fn tell_grant(
    alloc: Global,
    told: &mut Vec<(u32, ClientTold)>,
    grant: Granted,
) -> Result<(), Memory>
    ensures told { OnOk result (effects_told told.new.items
        ≡ effects_told told.old.items ++ grant_told grant) }
    ensures first { take (vec_len told.old) told.new.items ≡ told.old.items }
    ensures kept { OnErr result (told.new.items ≡ told.old.items) }
{
    let Granted {
        client,
        invoke,
        answer,
    } = grant;
    let answer = granted(alloc, invoke, answer)?;
    told.reserve(2)?;
    told.push_reserved((client, ClientTold::Answers(invoke)));
    told.push_reserved((client, answer));
    Ok(())
}

/// Tells clients that waited that they have a token, in order, after what is told before. The one refusal is want of
/// memory; then what is told is as before.
pub fn tell_grants(
    alloc: Global,
    told: &mut Vec<(u32, ClientTold)>,
    grants: Vec<Granted>,
) -> Result<(), Memory>
    ensures told { OnOk result (effects_told told.new.items
        ≡ effects_told told.old.items ++ grants_told grants.items) }
    ensures first { take (vec_len told.old) told.new.items ≡ told.old.items }
    ensures kept { OnErr result (told.new.items ≡ told.old.items) }
{
    let before = told.len();
    for grant in grants {
        if let Err(error) = tell_grant(alloc, told, grant) {
            told.truncate(before);
            return Err(error);
        }
    }
    Ok(())
}

/// The octets that answer a client that gives a token back. None where they are more than was negotiated: it is
/// refused.
fn answer_of(alloc: Global, own: &mut Client, invoke: u32) -> Result<Option<Octets>, Memory>
    ensures fits { IfOk result (λ octets. is_some octets
        ≡ fits (size_of own.old.row.association) invoke (Some Answer.RelinquishControl)) }
    ensures octets { IfOk result (λ octets. IfSome octets (λ octets.
        octets ≡ pdu_octets (pdu.ConfirmedResponse invoke Answer.RelinquishControl))) }
    ensures unchanged { IfOk result (λ octets. OnSome octets (own.new ≡ own.old)) }
    ensures refused { IfOk result (λ octets. IfNone octets (own.new
        ≡ settled (felt (refuses invoke other_error) own.old.row))) }
    ensures kept { OnErr result (own.new ≡ own.old) }
{
    let octets = own.spelled_answer(alloc, invoke, &Answer::RelinquishControl)?;
    if octets.len() > size_of(own.part()) as usize {
        own.refuse(alloc, invoke, ServiceError::OTHER)?;
        return Ok(None);
    }
    Ok(Some(octets))
}

/// A client gives a token back that somebody is granted: who is told what, that client first. None where its answer is
/// longer than was negotiated: it is refused, and nobody else is told anything. Nothing is given back yet.
pub(crate) fn granting(
    alloc: Global,
    own: &mut Client,
    rows: &Semaphores,
    invoke: u32,
    asked: &RelinquishControl,
) -> Result<Option<Vec<(u32, ClientTold)>>, Memory>
    requires grants { grants_nobody own.old.row.client asked.now rows.now ≡ false }
    ensures served { IfOk result (λ left. IfNone left ((facts : Facts)
        → IsServedIn (relinquish_control asked.now) facts invoke own.old.row
        rows.now rows.now own.new)) }
    ensures left { IfOk result (λ left. IfSome left (λ told. (facts : Facts)
        → IsToldIn (relinquish_control asked.now) facts invoke own.old.row rows.now
        (relinquish_after own.old.row.client facts.now asked.now rows.now)
        (effects_told told.items))) }
    ensures unchanged { IfOk result (λ left. OnSome left (own.new ≡ own.old)) }
    ensures kept { OnErr result (own.new ≡ own.old) }
{
    let Some(octets) = answer_of(alloc, own, invoke)? else {
        return Ok(None);
    };
    let client = own.part().client();
    let mut told = one_told(alloc, client, ClientTold::Sends(What::Octets(octets)))?;
    match relinquish_told(alloc, rows, client, asked) {
        Err(Refuse::Memory) => Err(Memory::wanting()),
        Ok(Some(grant)) => {
            tell_grant(alloc, &mut told, grant)?;
            Ok(Some(told))
        }
        Ok(None) | Err(Refuse::Service(_)) => unreachable!(),
    }
}
