//! A domain is sent back to a client.
#![tactic(auto, unfolding(ber_forms::specs::Spelling::appended), using(ber_forms::proofs::Joined::writing))]

ghost use Rattle.std.specs.Prelude.{refl, true, false};
ghost use Rattle.pdu_programs.specs.Upload.{upload_begun, sent_segment};

use crate::texts::ListOfTexts;
use ber_core::{Memory as Full, Writer};
use ber_forms::{Unread, put_boolean, put_integer};
use mms_types::{Edition, Identifier, InitiateUploadSequenceAnswer, Segment};
use pdu_names::{Formed, OctetString, Signed32, cursor, required};
use std::alloc::Global;

/// The form of an InitiateUploadSequence request. The name is copied.
pub type InitiateUploadSequenceRequest = Identifier;

/// The form of an InitiateUploadSequence answer. Texts are copied.
pub struct InitiateUploadSequenceResponse;

impl Formed for InitiateUploadSequenceResponse {
    type Item = InitiateUploadSequenceAnswer;

    ghost kind = { upload_begun };

    ghost needs_no_memory = { false };

    fn is_constructed() -> bool {
        true
    }

    fn read(
        alloc: Global,
        contents: &[u8],
        edition: Edition,
    ) -> Result<InitiateUploadSequenceAnswer, Unread> {
        let mut parts = cursor(edition, contents);
        let number = parts.required_i32(0)?;
        let capabilities = required::<ListOfTexts>(alloc, &mut parts, edition, 1)?;
        parts.end()?;
        Ok(InitiateUploadSequenceAnswer {
            number,
            capabilities,
        })
    }

    fn put(out: &mut Writer, x: &InitiateUploadSequenceAnswer) -> Result<(), Full> {
        put_integer(out, 0, i64::from(x.number))?;
        ListOfTexts::put_part(out, 1, &x.capabilities)
    }

    ghost sound = { λ _. refl };
}

/// The form of an UploadSegment request: the number of the upload, which may be one that no upload has.
pub type UploadSegmentRequest = Signed32;

/// The form of an UploadSegment answer, which always says whether more follows. Octets are copied.
pub struct UploadSegmentResponse;

impl Formed for UploadSegmentResponse {
    type Item = Segment;

    ghost kind = { sent_segment };

    ghost needs_no_memory = { false };

    fn is_constructed() -> bool {
        true
    }

    fn read(alloc: Global, contents: &[u8], edition: Edition) -> Result<Segment, Unread> {
        let mut parts = cursor(edition, contents);
        let octets = required::<OctetString>(alloc, &mut parts, edition, 0)?;
        let more = parts.required_boolean(1)?;
        parts.end()?;
        Ok(Segment { octets, more })
    }

    fn put(out: &mut Writer, x: &Segment) -> Result<(), Full> {
        OctetString::put_part(out, 0, &x.octets)?;
        put_boolean(out, 1, x.more)
    }

    ghost sound = { λ _. refl };
}

/// The form of a TerminateUploadSequence request: the number of the upload, which may be one that no upload has.
pub type TerminateUploadSequenceRequest = Signed32;
