//! A domain is loaded: a client begins it, and the server asks for segments and for the end.
#![tactic(auto, unfolding(ber_forms::specs::Spelling::appended), using(ber_forms::proofs::Joined::writing))]

ghost use Rattle.std.specs.Prelude.{refl, true, false};
ghost use Rattle.pdu_assoc.specs.ServiceErrors.{classes_sound, states_sound};
ghost use Rattle.pdu_programs.specs.Download.{initiate_download, loaded_segment, terminate_download};

use crate::texts::ListOfCapabilities;
use ber_core::{Memory as Full, Writer};
use ber_forms::{Unread, put_boolean};
use mms_types::{
    Edition, Identifier, InitiateDownloadSequence, Segment, TerminateDownloadSequence,
};
use pdu_assoc::ServiceErrors;
use pdu_names::{Formed, OctetString, cursor, optional, put_optional, required};
use std::alloc::Global;

/// The form of an InitiateDownloadSequence request, with at most 16 texts of at most 64 octets. Names and texts are
/// copied.
pub struct InitiateDownloadSequenceRequest;

impl Formed for InitiateDownloadSequenceRequest {
    type Item = InitiateDownloadSequence;

    ghost kind = { initiate_download };

    ghost needs_no_memory = { false };

    fn is_constructed() -> bool {
        true
    }

    fn read(
        alloc: Global,
        contents: &[u8],
        edition: Edition,
    ) -> Result<InitiateDownloadSequence, Unread> {
        let mut parts = cursor(edition, contents);
        let domain = required::<Identifier>(alloc, &mut parts, edition, 0)?;
        let capabilities = required::<ListOfCapabilities>(alloc, &mut parts, edition, 1)?;
        let sharable = parts.required_boolean(2)?;
        parts.end()?;
        Ok(InitiateDownloadSequence {
            domain,
            capabilities,
            sharable,
        })
    }

    fn put(out: &mut Writer, x: &InitiateDownloadSequence) -> Result<(), Full> {
        Identifier::put_part(out, 0, &x.domain)?;
        ListOfCapabilities::put_part(out, 1, &x.capabilities)?;
        put_boolean(out, 2, x.sharable)
    }

    ghost sound = { λ _. refl };
}

/// The form of a DownloadSegment request, which the server makes. The name is copied.
pub type DownloadSegmentRequest = Identifier;

/// The form of a DownloadSegment answer, which a client gives: more follows where it doesn't say. Octets are copied.
pub struct DownloadSegmentResponse;

impl Formed for DownloadSegmentResponse {
    type Item = Segment;

    ghost kind = { loaded_segment };

    ghost needs_no_memory = { false };

    fn is_constructed() -> bool {
        true
    }

    fn read(alloc: Global, contents: &[u8], edition: Edition) -> Result<Segment, Unread> {
        let mut parts = cursor(edition, contents);
        let octets = required::<OctetString>(alloc, &mut parts, edition, 0)?;
        let more = parts.defaulted_boolean(1, true)?;
        parts.end()?;
        Ok(Segment { octets, more })
    }

    fn put(out: &mut Writer, x: &Segment) -> Result<(), Full> {
        OctetString::put_part(out, 0, &x.octets)?;
        put_boolean(out, 1, x.more)
    }

    ghost sound = { λ _. refl };
}

/// The form of a TerminateDownloadSequence request, which the server makes. The name is copied.
pub struct TerminateDownloadSequenceRequest;

impl Formed for TerminateDownloadSequenceRequest {
    type Item = TerminateDownloadSequence;

    ghost kind = { terminate_download };

    ghost needs_no_memory = { false };

    fn is_constructed() -> bool {
        true
    }

    fn read(
        alloc: Global,
        contents: &[u8],
        edition: Edition,
    ) -> Result<TerminateDownloadSequence, Unread> {
        let mut parts = cursor(edition, contents);
        let domain = required::<Identifier>(alloc, &mut parts, edition, 0)?;
        let discard = optional::<ServiceErrors>(alloc, &mut parts, edition, 1)?;
        parts.end()?;
        Ok(TerminateDownloadSequence { domain, discard })
    }

    fn put(out: &mut Writer, x: &TerminateDownloadSequence) -> Result<(), Full> {
        Identifier::put_part(out, 0, &x.domain)?;
        put_optional::<ServiceErrors>(out, 1, x.discard.as_ref())
    }

    ghost sound = { λ _. rw (classes_sound, states_sound) refl };
}
