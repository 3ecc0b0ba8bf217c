//! confirmed-Response: what the server answers, and what a client answers it.

ghost use Rattle.std.specs.Prelude.{◌≡◌, ◌++◌, Ok, Err, OnOk, OnErr};
ghost use Rattle.ber_forms.specs.Spelling.{alternative_octets};
ghost use Rattle.mms_types.specs.Spelling.{widest};
ghost use Rattle.pdu_names.specs.Gives.{GivesContents};
ghost use Rattle.mms_pdu.specs.Services.{answers};
ghost use Rattle.mms_pdu.specs.Pdus.{client_answered};

use ber_core::{Memory as Full, Writer};
use ber_forms::Unread;
use mms_types::{Answer, ClientAnswer, Edition};
use pdu_areas::Area;
use pdu_assoc::DeviceServices;
use pdu_events::EventServices;
use pdu_names::{OneOf, Own, cursor};
use pdu_programs::{ClientAnswers, DomainServices, ProgramServices};
use pdu_sems::SemaphoreServices;
use pdu_vars::VariableServices;
use std::alloc::Global;

/// Appends the service with its answer, or nothing where memory runs out.
pub(crate) fn put_result(out: &mut Writer, answer: &Answer) -> Result<(), Full>
    ensures ok { OnOk result (out.new
        ≡ out.old ++ alternative_octets (answers.alternatives widest) (answers.value answer.now)) }
    ensures err { OnErr result (out.new ≡ out.old) }
{
    if DeviceServices::put_answer(out, answer)?
        || VariableServices::put_answer(out, answer)?
        || SemaphoreServices::put_answer(out, answer)?
        || DomainServices::put_answer(out, answer)?
        || ProgramServices::put_answer(out, answer)?
    {
        return Ok(());
    }
    EventServices::put_answer(out, answer)?;
    Ok(())
}

/// The invokeID and the answer that the contents of a client's confirmed-Response say.
pub(crate) fn response(
    alloc: Global,
    contents: &[u8],
    edition: Edition,
) -> Result<(u32, ClientAnswer), Unread>
    ensures { GivesContents client_answered edition contents.now result }
{
    let mut parts = cursor(edition, contents);
    let invoke = parts.required_universal_u32()?;
    let answer = OneOf::<ClientAnswers>::take(alloc, &mut parts, edition)?;
    parts.end()?;
    Ok((invoke, answer))
}
