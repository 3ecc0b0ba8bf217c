//! Status and Identify: their requests and their answers.
#![tactic(auto, unfolding(ber_forms::specs::Spelling::appended), using(ber_forms::proofs::Joined::writing))]

ghost use Rattle.std.specs.Prelude.{refl, true, false};
ghost use Rattle.pdu_assoc.specs.Status.{status, status_answer, identify_answer};

use ber_core::{Memory as Full, Writer};
use ber_forms::{Unread, boolean, put_boolean, put_integer};
use mms_types::{Edition, IdentifyAnswer, Status, StatusAnswer};
use pdu_names::{Boolean, Formed, VisibleString, cursor, required};
use std::alloc::Global;

/// The form of a Status request.
pub struct StatusRequest;

impl Formed for StatusRequest {
    type Item = Status;

    ghost kind = { status };

    ghost needs_no_memory = { true };

    fn is_constructed() -> bool {
        false
    }

    fn read(_alloc: Global, contents: &[u8], _edition: Edition) -> Result<Status, Unread> {
        let derivation = boolean(contents)?;
        Ok(Status { derivation })
    }

    fn put(out: &mut Writer, x: &Status) -> Result<(), Full> {
        Boolean::put(out, &x.derivation)
    }

    fn put_part(out: &mut Writer, number: u32, x: &Status) -> Result<(), Full> {
        put_boolean(out, number, x.derivation)
    }

    ghost sound = { λ _. refl };
}

/// The form of a Status answer.
pub struct StatusResponse;

impl Formed for StatusResponse {
    type Item = StatusAnswer;

    ghost kind = { status_answer };

    ghost needs_no_memory = { true };

    fn is_constructed() -> bool {
        true
    }

    fn read(_alloc: Global, contents: &[u8], edition: Edition) -> Result<StatusAnswer, Unread> {
        let mut parts = cursor(edition, contents);
        let logical = parts.required_u8_in(0, 0, 0)?;
        let physical = parts.required_u8_in(1, 0, 0)?;
        parts.end()?;
        Ok(StatusAnswer { logical, physical })
    }

    fn put(out: &mut Writer, x: &StatusAnswer) -> Result<(), Full> {
        put_integer(out, 0, i64::from(x.logical))?;
        put_integer(out, 1, i64::from(x.physical))
    }

    ghost sound = { λ _. refl };
}

/// The form of an Identify answer. The texts are copied.
pub struct IdentifyResponse;

impl Formed for IdentifyResponse {
    type Item = IdentifyAnswer;

    ghost kind = { identify_answer };

    ghost needs_no_memory = { false };

    fn is_constructed() -> bool {
        true
    }

    fn read(alloc: Global, contents: &[u8], edition: Edition) -> Result<IdentifyAnswer, Unread> {
        let mut parts = cursor(edition, contents);
        let vendor = required::<VisibleString>(alloc, &mut parts, edition, 0)?;
        let model = required::<VisibleString>(alloc, &mut parts, edition, 1)?;
        let revision = required::<VisibleString>(alloc, &mut parts, edition, 2)?;
        parts.end()?;
        Ok(IdentifyAnswer {
            vendor,
            model,
            revision,
        })
    }

    fn put(out: &mut Writer, x: &IdentifyAnswer) -> Result<(), Full> {
        VisibleString::put_part(out, 0, &x.vendor)?;
        VisibleString::put_part(out, 1, &x.model)?;
        VisibleString::put_part(out, 2, &x.revision)
    }

    ghost sound = { λ _. refl };
}
