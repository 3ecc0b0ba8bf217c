//! What an area has to say of its services.

ghost use Rattle.std.specs.Prelude.{◌≡◌, ◌++◌, Ok, Err, OnOk, OnErr, IfOk, is_some, is_ok, true};
ghost use Rattle.ber_core.specs.Part.{part};
ghost use Rattle.ber_forms.specs.Reading.{Gives};
ghost use Rattle.mms_types.specs.Spelling.{widest};
ghost use Rattle.pdu_areas.specs.Services.{forms_of};
ghost use Rattle.pdu_areas.specs.Areas.{Area};
ghost use Rattle.pdu_areas.specs.Gives.{GivesUnder, octets_if};

use ber_core::{Element, Memory as Full, Writer};
use ber_forms::Unread;
use mms_types::{Answer, Boxed, Edition, Request};
use std::alloc::Global;

/// An area: services that stand together (ISO 9506-2, ConfirmedServiceRequest and ConfirmedServiceResponse). It has
/// three functions by number.
pub trait Area {
    /// Its services, and what clients ask of it and it answers.
    ghost area: { Area };

    /// The request of the service under the element's number. None where the area has no such service; otherwise
    /// Malformed or TooDeep exactly where the reading of its form is, and Memory where memory runs out.
    fn read_request(
        alloc: Global,
        service: Element<'_>,
        edition: Edition,
    ) -> Result<Option<Request>, Unread>
        ensures { GivesUnder area.requests edition (part service.entry) result };

    /// Appends the request with its number, where it is one of the area, and answers whether it is. Where memory runs
    /// out, nothing is appended.
    fn put_request(out: &mut Writer, request: &Request) -> Result<bool, Full>
        ensures ok { OnOk result (out.new ≡ out.old
            ++ octets_if (forms_of area.requests.arms widest) (area.requests.value request.now)) }
        ensures own { IfOk result (λ own. own ≡ is_some (area.requests.value request.now)) }
        ensures err { OnErr result (out.new ≡ out.old) };

    /// Appends the answer with its number, where it is one of the area, as `put_request` does.
    fn put_answer(out: &mut Writer, answer: &Answer) -> Result<bool, Full>
        ensures ok { OnOk result (out.new ≡ out.old
            ++ octets_if (forms_of area.answers.arms widest) (area.answers.value answer.now)) }
        ensures own { IfOk result (λ own. own ≡ is_some (area.answers.value answer.now)) }
        ensures err { OnErr result (out.new ≡ out.old) };
}

/// What writing came to, told as of a request or an answer of the area: it was written.
#[inline]
pub fn own(written: Result<(), Full>) -> Result<bool, Full>
    ensures same { is_ok result ≡ is_ok written }
    ensures own { IfOk result (λ own. own ≡ true) }
{
    written?;
    Ok(true)
}

/// An argument that is kept apart from the request.
#[inline]
pub fn boxed<T: Drop>(alloc: Global, found: T) -> Result<Boxed<T>, Unread>
    ensures { Gives (λ x. x) result (Ok found) }
{
    match Boxed::new(alloc, found) {
        Ok(kept) => Ok(kept),
        Err(_) => Err(Unread::Memory),
    }
}
