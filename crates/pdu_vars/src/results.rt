//! What becomes of a variable that is read or written.

ghost use Rattle.std.specs.Prelude.{refl, true, false};
ghost use Rattle.pdu_vars.specs.Results.{access_results, access_results_sound, write_results};

use ber_core::{Element, Memory as Full, Tag, Writer};
use ber_forms::{Unread, has_tag, null, put_integer, put_null, unsigned8_in};
use mms_types::{AccessResult, DataAccessError, Edition, WriteResult};
use pdu_data::DataAlternatives;
use pdu_names::Chosen;
use std::alloc::Global;

/// The alternatives of what was read of a variable (ISO 9506-2, AccessResult). Data is copied.
pub struct AccessResultAlternatives;

#[tactic(auto, unfolding(crate::specs::Results::access_results), using(crate::proofs::Succeeded::data_spelled))]
impl Chosen for AccessResultAlternatives {
    type Item = AccessResult;

    ghost arms = { access_results };

    ghost needs_no_memory = { false };

    fn of(alloc: Global, element: Element<'_>, edition: Edition) -> Result<AccessResult, Unread> {
        if has_tag(element.tag, Tag::primitive(0)) {
            let number = unsigned8_in(element.contents, 0, 11)?;
            Ok(AccessResult::Failure(DataAccessError::numbered(number)))
        } else {
            Ok(AccessResult::Success(DataAlternatives::of(alloc, element, edition)?))
        }
    }

    fn put_chosen(out: &mut Writer, x: &AccessResult) -> Result<(), Full> {
        match x {
            AccessResult::Failure(error) => put_integer(out, 0, i64::from(error.number())),
            AccessResult::Success(found) => DataAlternatives::put_chosen(out, found),
        }
    }

    ghost sound = { access_results_sound };
}

/// The alternatives of what became of a variable that was to be written (ISO 9506-2, Write-Response).
pub struct WriteResultAlternatives;

impl Chosen for WriteResultAlternatives {
    type Item = WriteResult;

    ghost arms = { write_results };

    ghost needs_no_memory = { true };

    fn of(_alloc: Global, element: Element<'_>, _edition: Edition) -> Result<WriteResult, Unread> {
        if has_tag(element.tag, Tag::primitive(0)) {
            let number = unsigned8_in(element.contents, 0, 11)?;
            Ok(WriteResult::Failure(DataAccessError::numbered(number)))
        } else if has_tag(element.tag, Tag::primitive(1)) {
            null(element.contents)?;
            Ok(WriteResult::Success)
        } else {
            Err(Unread::Malformed)
        }
    }

    fn put_chosen(out: &mut Writer, x: &WriteResult) -> Result<(), Full> {
        match x {
            WriteResult::Failure(error) => put_integer(out, 0, i64::from(error.number())),
            WriteResult::Success => put_null(out, 1),
        }
    }

    ghost sound = { λ _. refl };
}
