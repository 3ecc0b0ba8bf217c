//! confirmed-Request: what is asked for, and its argument.

ghost use Rattle.std.specs.Prelude.{◌≡◌, ◌≢◌, ◌++◌, Ok, Err, None, Some, OnOk, OnErr, IfOk, IfErr, IsErr, IsTrue};
ghost use Rattle.std.specs.Option.{option_map};
ghost use Rattle.ber_core.specs.Part.{part};
ghost use Rattle.ber_forms.specs.ByNumber.{form_at, read_as};
ghost use Rattle.ber_forms.specs.Reading.{Gives};
ghost use Rattle.ber_forms.specs.Reads.{NeedsNoMemory};
ghost use Rattle.ber_forms.specs.Spelling.{alternative_octets};
ghost use Rattle.ber_forms.specs.Value.{chosen};
ghost use Rattle.mms_types.specs.Spelling.{widest};
ghost use Rattle.pdu_names.specs.Editions.{lengths_of};
ghost use Rattle.pdu_areas.specs.Services.{forms_of};
ghost use Rattle.pdu_areas.specs.Joined.{IsSaid};
ghost use Rattle.mms_pdu.specs.declared.refusal.Refusal.TheVariants.{Memory};
ghost use Rattle.mms_pdu.specs.Services.{requests};
ghost use Rattle.mms_pdu.specs.Pdus.{pdu_value};
ghost use Rattle.mms_pdu.specs.Heard.{IsHeard};
ghost use Rattle.mms_pdu.specs.Hearing.{Hears, sole_part, service_of, asked_at, asking, refusal_of_argument, argued, request_told, request_depth, depth_of};

use crate::depth::request_depth;
use crate::reading::{Read, tell};
use crate::refusal::Refusal;
use ber_core::{Element, Memory as Full, Tag, Writer};
use ber_forms::{Cursor, Unread};
use mms_types::{Boxed, Edition, Pdu, Request};
use pdu_areas::Area;
use pdu_assoc::{DeviceServices, StatusRequest};
use pdu_events::EventServices;
use pdu_names::{Formed, cursor, read_as};
use pdu_programs::{DomainServices, ProgramServices};
use pdu_sems::{RelinquishControlRequest, SemaphoreServices, TakeControlRequest};
use pdu_vars::{ReadRequest, VariableServices, WriteRequest};
use std::alloc::Global;

/// The last element: nothing follows it.
#[tactic(auto, unfolding(crate::specs::Hearing::sole_part))]
pub(crate) fn sole<'a>(parts: &mut Cursor<'a>, edition: Edition) -> Result<Element<'a>, Unread>
    requires { parts.old.lengths ≡ lengths_of edition }
    ensures exact { Gives part result (sole_part (lengths_of edition) parts.old.octets) }
    ensures no_memory { NeedsNoMemory result }
{
    let element = parts.part()?;
    parts.end()?;
    Ok(element)
}

/// The element is a service: its class is context.
fn service(element: Element<'_>) -> Result<Element<'_>, Unread>
    ensures exact { Gives part result (service_of (part element.entry)) }
    ensures no_memory { NeedsNoMemory result }
{
    if element.tag.class == 2 {
        Ok(element)
    } else {
        Err(Unread::Malformed)
    }
}

/// What the contents of a confirmed-Request ask for: its invokeID, its list of modifiers, where it has one, and the
/// service.
#[tactic(auto, unfolding(crate::specs::Hearing::asked_at))]
pub(crate) fn asked(
    contents: &[u8],
    edition: Edition,
) -> Result<(u32, Option<Element<'_>>, Element<'_>), Unread>
    ensures exact { Gives (λ a. asking a.0 (option_map part a.1) (part a.2)) result
        (asked_at (lengths_of edition) contents.now) }
    ensures no_memory { NeedsNoMemory result }
{
    let mut parts = cursor(edition, contents);
    let invoke = parts.required_universal_u32()?;
    let modifiers = parts.optional(Tag {
        class: 0,
        constructed: true,
        number: 16,
    })?;
    let element = sole(&mut parts, edition)?;
    let element = service(element)?;
    Ok((invoke, modifiers, element))
}

/// The refusal of a request whose argument could not be read.
fn refusal_of_argument(invoke: u32, unread: Unread) -> Refusal
    ensures { result ≡ refusal_of_argument invoke unread }
{
    match unread {
        Unread::Malformed => Refusal::Argument { invoke },
        Unread::TooDeep => Refusal::Recursion { invoke },
        Unread::Memory => Refusal::Memory,
    }
}

/// The argument of a service that is offered, or why it is refused.
fn argument<F: Formed>(
    alloc: Global,
    invoke: u32,
    service: Element<'_>,
    edition: Edition,
) -> Result<F::Item, Refusal>
    ensures told { Hears (λ x. chosen service.entry.tag.number (F.kind.value x)) result
        (argued invoke (read_as (lengths_of edition) (part service.entry)
        (Some (F.kind.form edition)))) }
    ensures no_memory { IsTrue F.needs_no_memory → IfErr result (λ e. e ≢ Memory) }
{
    match read_as::<F>(alloc, service, edition) {
        Ok(found) => Ok(found),
        Err(unread) => Err(refusal_of_argument(invoke, unread)),
    }
}

/// What the contents of a service ask, in a box of its own: a request doesn't grow by it.
fn argument_apart<F: Formed>(
    alloc: Global,
    invoke: u32,
    service: Element<'_>,
    edition: Edition,
) -> Result<Boxed<F::Item>, Refusal>
    ensures { Hears (λ x. chosen service.entry.tag.number (F.kind.value x)) result
        (argued invoke (read_as (lengths_of edition) (part service.entry)
        (Some (F.kind.form edition)))) }
{
    let found = argument::<F>(alloc, invoke, service, edition)?;
    Ok(Boxed::new(alloc, found)?)
}

/// Tells that this is asked for.
#[inline(always)]
fn tell_asked(invoke: u32, request: Request, told: &mut Result<Read, Refusal>)
    requires { IsErr told.old }
    ensures { told.new ≡ Ok (record {
      pdu = Pdu.ConfirmedRequest invoke request;
      depth = request_depth request;
    }) }
{
    let depth = request_depth(&request);
    let pdu = Pdu::ConfirmedRequest { invoke, request };
    tell(told, Ok(Read { pdu, depth }));
}

/// Tells the request of a service of the area A, or why it is refused: a service that the area does not have is not
/// offered.
#[inline(never)]
fn tell_of<A: Area>(
    alloc: Global,
    invoke: u32,
    service: Element<'_>,
    edition: Edition,
    told: &mut Result<Read, Refusal>,
)
    requires form { form_at service.tag.number (requests.alternatives edition)
        ≡ form_at service.tag.number (forms_of A.area.requests.arms edition) }
    requires value { IsSaid A.area.requests requests }
    requires fresh { IsErr told.old }
    ensures told { Hears (λ r. pdu_value r.pdu) told.new
        (request_told (lengths_of edition) edition (asking invoke None (part service.entry))) }
    ensures client { IfOk told.new (λ r. IsHeard r.pdu) }
    ensures depth { IfOk told.new (λ r. r.depth ≡ depth_of r.pdu) }
{
    match A::read_request(alloc, service, edition) {
        Ok(Some(request)) => tell_asked(invoke, request, told),
        Ok(None) => tell(told, Err(Refusal::Service { invoke })),
        Err(unread) => tell(told, Err(refusal_of_argument(invoke, unread))),
    }
}

/// Tells the request for the status of the device, as `tell_of` does.
#[tactic(auto, unfolding(crate::specs::Hearing::request_told, crate::specs::Services::requests))]
fn tell_status(
    alloc: Global,
    invoke: u32,
    service: Element<'_>,
    edition: Edition,
    told: &mut Result<Read, Refusal>,
)
    requires status { service.tag.number ≡ 0 }
    requires fresh { IsErr told.old }
    ensures told { Hears (λ r. pdu_value r.pdu) told.new
        (request_told (lengths_of edition) edition (asking invoke None (part service.entry))) }
    ensures client { IfOk told.new (λ r. IsHeard r.pdu) }
    ensures depth { IfOk told.new (λ r. r.depth ≡ depth_of r.pdu) }
{
    match argument::<StatusRequest>(alloc, invoke, service, edition) {
        Ok(x) => tell_asked(invoke, Request::Status(x), told),
        Err(refusal) => tell(told, Err(refusal)),
    }
}

/// Tells the request to read variables, as `tell_of` does.
#[inline(never)]
#[tactic(auto, unfolding(crate::specs::Hearing::request_told, crate::specs::Services::requests))]
fn tell_read(
    alloc: Global,
    invoke: u32,
    service: Element<'_>,
    edition: Edition,
    told: &mut Result<Read, Refusal>,
)
    requires read { service.tag.number ≡ 4 }
    requires fresh { IsErr told.old }
    ensures told { Hears (λ r. pdu_value r.pdu) told.new
        (request_told (lengths_of edition) edition (asking invoke None (part service.entry))) }
    ensures client { IfOk told.new (λ r. IsHeard r.pdu) }
    ensures depth { IfOk told.new (λ r. r.depth ≡ depth_of r.pdu) }
{
    match argument::<ReadRequest>(alloc, invoke, service, edition) {
        Ok(x) => tell_asked(invoke, Request::Read(x), told),
        Err(refusal) => tell(told, Err(refusal)),
    }
}

/// Tells the request to write variables, as `tell_of` does.
#[inline(never)]
#[tactic(auto, unfolding(crate::specs::Hearing::request_told, crate::specs::Services::requests))]
fn tell_write(
    alloc: Global,
    invoke: u32,
    service: Element<'_>,
    edition: Edition,
    told: &mut Result<Read, Refusal>,
)
    requires write { service.tag.number ≡ 5 }
    requires fresh { IsErr told.old }
    ensures told { Hears (λ r. pdu_value r.pdu) told.new
        (request_told (lengths_of edition) edition (asking invoke None (part service.entry))) }
    ensures client { IfOk told.new (λ r. IsHeard r.pdu) }
    ensures depth { IfOk told.new (λ r. r.depth ≡ depth_of r.pdu) }
{
    match argument::<WriteRequest>(alloc, invoke, service, edition) {
        Ok(x) => tell_asked(invoke, Request::Write(x), told),
        Err(refusal) => tell(told, Err(refusal)),
    }
}

/// Tells the request for a token, as `tell_of` does.
#[inline(never)]
#[tactic(auto, unfolding(crate::specs::Hearing::request_told, crate::specs::Services::requests))]
fn tell_take(
    alloc: Global,
    invoke: u32,
    service: Element<'_>,
    edition: Edition,
    told: &mut Result<Read, Refusal>,
)
    requires take { service.tag.number ≡ 19 }
    requires fresh { IsErr told.old }
    ensures told { Hears (λ r. pdu_value r.pdu) told.new
        (request_told (lengths_of edition) edition (asking invoke None (part service.entry))) }
    ensures client { IfOk told.new (λ r. IsHeard r.pdu) }
    ensures depth { IfOk told.new (λ r. r.depth ≡ depth_of r.pdu) }
{
    match argument_apart::<TakeControlRequest>(alloc, invoke, service, edition) {
        Ok(x) => tell_asked(invoke, Request::TakeControl(x), told),
        Err(refusal) => tell(told, Err(refusal)),
    }
}

/// Tells the request to give a token back, as `tell_of` does.
#[inline(never)]
#[tactic(auto, unfolding(crate::specs::Hearing::request_told, crate::specs::Services::requests))]
fn tell_relinquish(
    alloc: Global,
    invoke: u32,
    service: Element<'_>,
    edition: Edition,
    told: &mut Result<Read, Refusal>,
)
    requires relinquish { service.tag.number ≡ 20 }
    requires fresh { IsErr told.old }
    ensures told { Hears (λ r. pdu_value r.pdu) told.new
        (request_told (lengths_of edition) edition (asking invoke None (part service.entry))) }
    ensures client { IfOk told.new (λ r. IsHeard r.pdu) }
    ensures depth { IfOk told.new (λ r. r.depth ≡ depth_of r.pdu) }
{
    match argument::<RelinquishControlRequest>(alloc, invoke, service, edition) {
        Ok(x) => tell_asked(invoke, Request::RelinquishControl(x), told),
        Err(refusal) => tell(told, Err(refusal)),
    }
}

/// Tells the request that is asked for, or why it is refused: by its area. What is asked most has a way of its own, on
/// which no other request is made room for.
#[tactic(auto, unfolding(crate::specs::Hearing::request_told), using(crate::proofs::ByArea::device_form, crate::proofs::ByArea::variable_form, crate::proofs::ByArea::semaphore_form, crate::proofs::ByArea::domain_form, crate::proofs::ByArea::program_form, crate::proofs::ByArea::event_form, crate::proofs::ByArea::no_request_form, crate::proofs::ByArea::device_said, crate::proofs::ByArea::variable_said, crate::proofs::ByArea::semaphore_said, crate::proofs::ByArea::domain_said, crate::proofs::ByArea::program_said, crate::proofs::ByArea::event_said))]
pub(crate) fn tell_request(
    alloc: Global,
    invoke: u32,
    service: Element<'_>,
    edition: Edition,
    told: &mut Result<Read, Refusal>,
)
    requires { IsErr told.old }
    ensures told { Hears (λ r. pdu_value r.pdu) told.new
        (request_told (lengths_of edition) edition (asking invoke None (part service.entry))) }
    ensures client { IfOk told.new (λ r. IsHeard r.pdu) }
    ensures depth { IfOk told.new (λ r. r.depth ≡ depth_of r.pdu) }
{
    match service.tag.number {
        0 => tell_status(alloc, invoke, service, edition, told),
        4 => tell_read(alloc, invoke, service, edition, told),
        5 => tell_write(alloc, invoke, service, edition, told),
        19 => tell_take(alloc, invoke, service, edition, told),
        20 => tell_relinquish(alloc, invoke, service, edition, told),
        0..=3 => tell_of::<DeviceServices>(alloc, invoke, service, edition, told),
        4..=18 => tell_of::<VariableServices>(alloc, invoke, service, edition, told),
        19..=25 => tell_of::<SemaphoreServices>(alloc, invoke, service, edition, told),
        26..=37 => tell_of::<DomainServices>(alloc, invoke, service, edition, told),
        38..=45 => tell_of::<ProgramServices>(alloc, invoke, service, edition, told),
        46..=70 => tell_of::<EventServices>(alloc, invoke, service, edition, told),
        _ => tell(told, Err(Refusal::Service { invoke })),
    }
}

/// Appends the service with its argument, or nothing where memory runs out.
pub(crate) fn put_argument(out: &mut Writer, request: &Request) -> Result<(), Full>
    ensures ok { OnOk result (out.new
        ≡ out.old ++ alternative_octets (requests.alternatives widest)
        (requests.value request.now)) }
    ensures err { OnErr result (out.new ≡ out.old) }
{
    if DeviceServices::put_request(out, request)?
        || VariableServices::put_request(out, request)?
        || SemaphoreServices::put_request(out, request)?
        || DomainServices::put_request(out, request)?
        || ProgramServices::put_request(out, request)?
    {
        return Ok(());
    }
    EventServices::put_request(out, request)?;
    Ok(())
}
