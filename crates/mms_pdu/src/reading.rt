//! What a client sends.

ghost use Rattle.std.specs.Prelude.{◌≡◌, ◌==◌, ◌&&◌, nat_le, true, false, Ok, Err, IfOk, IsErr};
ghost use Rattle.ber_core.specs.Part.{part};
ghost use Rattle.ber_forms.specs.Reads.{NeedsNoMemory};
ghost use Rattle.ber_forms.specs.Reading.{Gives, is_tag, has_tag, alternatives};
ghost use Rattle.pdu_names.specs.Editions.{lengths_of};
ghost use Rattle.mms_pdu.specs.Pdus.{pdu_value};
ghost use Rattle.mms_pdu.specs.Heard.{IsHeard, pdu_heard};
ghost use Rattle.mms_pdu.specs.Copies.{NoMemoryWanting, copies_nothing, is_copied};
ghost use Rattle.mms_pdu.specs.Refused.{RefusesFirst};
ghost use Rattle.mms_pdu.specs.Hearing.{Hears, is_pdu, kept_pdus, noted_pdus, valid, invalid_of, and_then, asked_at, request_told, reject_told, part_told, heard, depth_of};

use crate::depth::depth;
use crate::modified::tell_modified;
use crate::refusal::Refusal;
use crate::request::{asked, sole, tell_request};
use crate::response::response;
use ber_core::{Element, Tag};
use ber_forms::{Unread, has_tag};
use mms_types::{Edition, Pdu};
use pdu_assoc::{HeardErrors, InitiateRequest, read_heard_reject};
use pdu_names::{Formed, Null, Unsigned32, cursor};
use std::alloc::Global;
use std::mem;

/// A PDU that a client sent.
#[derive(Drop)]
pub struct Read {
    pub pdu: Pdu,
    /// How deep the data and the type of a request nest, and 0 where it has none.
    pub depth: u8,
}

/// The PDU of the element, of a kind that is kept, but for confirmed-Request and reject.
fn kept_pdu(alloc: Global, element: Element<'_>, edition: Edition) -> Result<Pdu, Unread>
    ensures told { Gives pdu_value result
        (alternatives (lengths_of edition) (kept_pdus edition) (part element.entry)) }
    ensures client { IfOk result IsHeard }
    ensures no_memory { is_copied element.entry.tag ≡ false → NeedsNoMemory result }
{
    let Element { tag, contents } = element;
    if has_tag(tag, Tag::constructed(1)) {
        let (invoke, answer) = response(alloc, contents, edition)?;
        Ok(Pdu::HeardResponse { invoke, answer })
    } else if has_tag(tag, Tag::constructed(2)) {
        let invoke = HeardErrors::read(alloc, contents, edition)?;
        Ok(Pdu::HeardError { invoke })
    } else if has_tag(tag, Tag::primitive(5)) {
        let invoke = Unsigned32::read(alloc, contents, edition)?;
        Ok(Pdu::CancelRequest { invoke })
    } else if has_tag(tag, Tag::constructed(8)) {
        Ok(Pdu::InitiateRequest(InitiateRequest::read(alloc, contents, edition)?))
    } else if has_tag(tag, Tag::primitive(11)) {
        Null::read(alloc, contents, edition)?;
        Ok(Pdu::ConcludeRequest)
    } else {
        Err(Unread::Malformed)
    }
}

/// Nothing of the element is kept: it is unconfirmed, or the answer to a cancel.
fn is_noted(tag: Tag) -> bool
    ensures { result ≡ has_tag noted_pdus tag }
{
    has_tag(tag, Tag::constructed(3))
        || has_tag(tag, Tag::primitive(6))
        || has_tag(tag, Tag::constructed(7))
}

/// The tag is one of a PDU's.
fn is_pdu(tag: Tag) -> bool
    ensures { result ≡ is_pdu tag }
{
    tag.class == 2 && tag.number <= 13
}

/// The refusal of a PDU that could not be read.
fn invalid(unread: Unread) -> Refusal
    ensures { result ≡ invalid_of unread }
{
    match unread {
        Unread::Malformed | Unread::TooDeep => Refusal::InvalidPdu,
        Unread::Memory => Refusal::Memory,
    }
}

/// Tells what was read in the place of a refusal, which owns no memory. A PDU is large, and
/// what reads one puts it where it stays.
#[inline(always)]
pub(crate) fn tell(told: &mut Result<Read, Refusal>, read: Result<Read, Refusal>)
    requires { IsErr told.old }
    ensures { told.new ≡ read }
{
    mem::forget(mem::replace(told, read));
}

/// Tells what the contents of a confirmed-Request are.
fn tell_confirmed(
    alloc: Global,
    contents: &[u8],
    edition: Edition,
    told: &mut Result<Read, Refusal>,
)
    requires { IsErr told.old }
    ensures told { Hears (λ r. pdu_value r.pdu) told.new
        (and_then (valid (asked_at (lengths_of edition) contents.now))
        (request_told (lengths_of edition) edition)) }
    ensures client { IfOk told.new (λ r. IsHeard r.pdu) }
    ensures depth { IfOk told.new (λ r. r.depth ≡ depth_of r.pdu) }
{
    match asked(contents, edition) {
        Ok((invoke, None, service)) => tell_request(alloc, invoke, service, edition, told),
        Ok((invoke, Some(list), service)) => {
            tell_modified(alloc, invoke, list, service, edition, told);
        }
        Err(unread) => tell(told, Err(invalid(unread))),
    }
}

/// What the contents of a reject are.
#[tactic(auto, unfolding(crate::specs::Hearing::reject_told))]
fn rejected(alloc: Global, contents: &[u8], edition: Edition) -> Result<Pdu, Refusal>
    ensures told { Hears pdu_value result (reject_told (lengths_of edition) edition contents.now) }
    ensures client { IfOk result IsHeard }
    ensures no_memory { NoMemoryWanting result }
{
    match read_heard_reject(alloc, contents, edition) {
        Ok(invoke) => Ok(Pdu::HeardReject { invoke }),
        Err(unread) => Err(invalid(unread)),
    }
}

/// What an element of another kind is.
fn other(alloc: Global, element: Element<'_>, edition: Edition) -> Result<Pdu, Refusal>
    ensures told { Hears pdu_value result
        (valid (alternatives (lengths_of edition) (kept_pdus edition) (part element.entry))) }
    ensures client { IfOk result IsHeard }
    ensures no_memory { is_copied element.entry.tag ≡ false → NoMemoryWanting result }
{
    match kept_pdu(alloc, element, edition) {
        Ok(pdu) => Ok(pdu),
        Err(unread) => Err(invalid(unread)),
    }
}

/// What an element is that is a PDU's and no confirmed-Request.
#[tactic(auto, unfolding(crate::specs::Hearing::part_told))]
fn unasked(alloc: Global, element: Element<'_>, edition: Edition) -> Result<Pdu, Refusal>
    requires pdu { is_pdu element.tag ≡ true }
    requires unasked { is_tag 2 true 0 element.tag ≡ false }
    ensures told { Hears pdu_value result
        (part_told (lengths_of edition) edition (part element.entry)) }
    ensures client { IfOk result IsHeard }
    ensures no_memory { is_copied element.entry.tag ≡ false → NoMemoryWanting result }
{
    let tag = element.tag;
    if has_tag(tag, Tag::constructed(4)) {
        rejected(alloc, element.contents, edition)
    } else if is_noted(tag) {
        Ok(Pdu::HeardOther)
    } else {
        other(alloc, element, edition)
    }
}

/// Tells what an element is that is a PDU's and no confirmed-Request.
#[inline(never)]
fn tell_unasked(
    alloc: Global,
    element: Element<'_>,
    edition: Edition,
    told: &mut Result<Read, Refusal>,
)
    requires pdu { is_pdu element.tag ≡ true }
    requires unasked { is_tag 2 true 0 element.tag ≡ false }
    requires fresh { IsErr told.old }
    ensures told { Hears (λ r. pdu_value r.pdu) told.new
        (part_told (lengths_of edition) edition (part element.entry)) }
    ensures client { IfOk told.new (λ r. IsHeard r.pdu) }
    ensures no_memory { is_copied element.entry.tag ≡ false → NoMemoryWanting told.new }
    ensures depth { IfOk told.new (λ r. r.depth ≡ depth_of r.pdu) }
{
    match unasked(alloc, element, edition) {
        Ok(pdu) => {
            let depth = depth(&pdu);
            tell(told, Ok(Read { pdu, depth }));
        }
        Err(refusal) => tell(told, Err(refusal)),
    }
}

/// Tells what an element is.
#[tactic(auto, unfolding(crate::specs::Hearing::part_told))]
fn tell_element(
    alloc: Global,
    element: Element<'_>,
    edition: Edition,
    told: &mut Result<Read, Refusal>,
)
    requires { IsErr told.old }
    ensures told { Hears (λ r. pdu_value r.pdu) told.new
        (part_told (lengths_of edition) edition (part element.entry)) }
    ensures client { IfOk told.new (λ r. IsHeard r.pdu) }
    ensures no_memory { is_copied element.entry.tag ≡ false → NoMemoryWanting told.new }
    ensures depth { IfOk told.new (λ r. r.depth ≡ depth_of r.pdu) }
{
    let tag = element.tag;
    if !is_pdu(tag) {
        tell(told, Err(Refusal::UnknownType));
    } else if has_tag(tag, Tag::constructed(0)) {
        tell_confirmed(alloc, element.contents, edition, told);
    } else {
        tell_unasked(alloc, element, edition, told);
    }
}

/// Tells what all the octets are.
#[tactic(auto, unfolding(crate::specs::Hearing::heard))]
fn tell_whole(alloc: Global, octets: &[u8], edition: Edition, told: &mut Result<Read, Refusal>)
    requires { IsErr told.old }
    ensures told { Hears (λ r. pdu_value r.pdu) told.new
        (heard (lengths_of edition) edition octets.now) }
    ensures client { IfOk told.new (λ r. IsHeard r.pdu) }
    ensures no_memory { copies_nothing (lengths_of edition) octets.now ≡ true
        → NoMemoryWanting told.new }
    ensures depth { IfOk told.new (λ r. r.depth ≡ depth_of r.pdu) }
{
    let mut parts = cursor(edition, octets);
    match sole(&mut parts, edition) {
        Ok(part) => tell_element(alloc, part, edition, told),
        Err(unread) => tell(told, Err(invalid(unread))),
    }
}

/// What `read_pdu` answers, told in the place of a refusal, so that a PDU isn't moved.
#[inline(never)]
#[tactic(auto, using(crate::proofs::HeardAgain::pdu_again))]
pub fn read_pdu_to(alloc: Global, octets: &[u8], edition: Edition, told: &mut Result<Read, Refusal>)
    requires { IsErr told.old }
    ensures heard { Hears (λ r. pdu_value r.pdu) told.new
        (heard (lengths_of edition) edition octets.now) }
    ensures pdu { Hears (λ r. r.pdu) told.new (pdu_heard edition octets.now) }
    ensures refused { RefusesFirst (lengths_of edition) edition octets.now told.new }
    ensures no_memory { copies_nothing (lengths_of edition) octets.now ≡ true
        → NoMemoryWanting told.new }
    ensures client { IfOk told.new (λ r. IsHeard r.pdu) }
    ensures depth { IfOk told.new (λ r. r.depth ≡ depth_of r.pdu) }
{
    tell_whole(alloc, octets, edition, told);
}

/// The PDU that a client's octets are (ISO 9506-2, MMSpdu), and how deep the data and the type of a request nest.
/// Each refusal comes exactly where it is the first that applies, in the order of the variants of `Refusal`. Names of
/// a request, and the octets of an answer, are copied.
pub fn read_pdu(alloc: Global, octets: &[u8], edition: Edition) -> Result<Read, Refusal>
    ensures heard { Hears (λ r. pdu_value r.pdu) result
        (heard (lengths_of edition) edition octets.now) }
    ensures pdu { Hears (λ r. r.pdu) result (pdu_heard edition octets.now) }
    ensures refused { RefusesFirst (lengths_of edition) edition octets.now result }
    ensures no_memory { copies_nothing (lengths_of edition) octets.now ≡ true
        → NoMemoryWanting result }
    ensures client { IfOk result (λ r. IsHeard r.pdu) }
    ensures depth { IfOk result (λ r. r.depth ≡ depth_of r.pdu) }
{
    let mut told = Err(Refusal::Memory);
    read_pdu_to(alloc, octets, edition, &mut told);
    told
}
