//! Read and Write: their requests and their answers.
#![tactic(auto, unfolding(ber_forms::specs::Spelling::appended), using(ber_forms::proofs::Joined::writing))]

ghost use Rattle.std.specs.Prelude.{refl, true, false};
ghost use Rattle.pdu_data.specs.Data.{data_sound};
ghost use Rattle.pdu_vars.specs.Variables.{accesses_sound};
ghost use Rattle.pdu_vars.specs.Results.{access_results_sound};
ghost use Rattle.pdu_vars.specs.ReadWrite.{read_request, read_answer, write_request};

use crate::results::{AccessResultAlternatives, WriteResultAlternatives};
use crate::variables::AccessSpecification;
use ber_core::{Memory as Full, Writer};
use ber_forms::{Unread, put_defaulted_boolean};
use mms_types::{Edition, Read, ReadAnswer, Write};
use pdu_data::DataAlternatives;
use pdu_names::{AnyNumber, Formed, ListOf, OneOf, Own, cursor, optional, put_optional, required};
use std::alloc::Global;

/// What was read of each variable.
type Results = ListOf<OneOf<AccessResultAlternatives>, AnyNumber>;

/// Data of each variable.
type Values = ListOf<OneOf<DataAlternatives>, AnyNumber>;

/// The form of a Read request. Its names are copied.
pub struct ReadRequest;

impl Formed for ReadRequest {
    type Item = Read;

    ghost kind = { read_request };

    ghost needs_no_memory = { false };

    fn is_constructed() -> bool {
        true
    }

    fn read(alloc: Global, contents: &[u8], edition: Edition) -> Result<Read, Unread> {
        let mut parts = cursor(edition, contents);
        let with_access = parts.defaulted_boolean(0, false)?;
        let access = required::<OneOf<AccessSpecification>>(alloc, &mut parts, edition, 1)?;
        parts.end()?;
        Ok(Read {
            with_access,
            access,
        })
    }

    fn put(out: &mut Writer, x: &Read) -> Result<(), Full> {
        put_defaulted_boolean(out, 0, x.with_access, false)?;
        OneOf::<AccessSpecification>::put_part(out, 1, &x.access)
    }

    ghost sound = { λ e. rw (accesses_sound e) refl };
}

/// The form of a Read answer. Names and data are copied. It is too deep exactly where all before some data in it is of
/// its form, and that data nests deeper than 10.
pub struct ReadResponse;

impl Formed for ReadResponse {
    type Item = ReadAnswer;

    ghost kind = { read_answer };

    ghost needs_no_memory = { false };

    fn is_constructed() -> bool {
        true
    }

    fn read(alloc: Global, contents: &[u8], edition: Edition) -> Result<ReadAnswer, Unread> {
        let mut parts = cursor(edition, contents);
        let access = optional::<OneOf<AccessSpecification>>(alloc, &mut parts, edition, 0)?;
        let results = required::<Results>(alloc, &mut parts, edition, 1)?;
        parts.end()?;
        Ok(ReadAnswer { access, results })
    }

    fn put(out: &mut Writer, x: &ReadAnswer) -> Result<(), Full> {
        put_optional::<OneOf<AccessSpecification>>(out, 0, x.access.as_ref())?;
        Results::put_part(out, 1, &x.results)
    }

    ghost sound = { λ e. rw (accesses_sound e, access_results_sound e) refl };
}

/// The form of a Write request. Names and data are copied. It is too deep exactly where all before some data in it is
/// of its form, and that data nests deeper than 10.
pub struct WriteRequest;

impl Formed for WriteRequest {
    type Item = Write;

    ghost kind = { write_request };

    ghost needs_no_memory = { false };

    fn is_constructed() -> bool {
        true
    }

    fn read(alloc: Global, contents: &[u8], edition: Edition) -> Result<Write, Unread> {
        let mut parts = cursor(edition, contents);
        let access = OneOf::<AccessSpecification>::take(alloc, &mut parts, edition)?;
        let values = required::<Values>(alloc, &mut parts, edition, 0)?;
        parts.end()?;
        Ok(Write { access, values })
    }

    fn put(out: &mut Writer, x: &Write) -> Result<(), Full> {
        OneOf::<AccessSpecification>::put_own(out, &x.access)?;
        Values::put_part(out, 0, &x.values)
    }

    ghost sound = { λ e. rw (accesses_sound e, data_sound e) refl };
}

/// The form of a Write answer.
pub type WriteResponse = ListOf<OneOf<WriteResultAlternatives>, AnyNumber>;
