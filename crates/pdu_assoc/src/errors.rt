//! ServiceError, confirmed-Error and cancel-Error.
#![tactic(auto, unfolding(ber_forms::specs::Spelling::appended), using(ber_forms::proofs::Joined::writing))]

ghost use Rattle.std.specs.Prelude.{◌≡◌, ℕ, refl, ◌↔◌, ◌++◌, ◌+◌, ◌<◌, ◌≤◌, IsTrue, true, false, Ok, Err, OnOk, OnErr};
ghost use Rattle.ber_core.specs.Part.{part};
ghost use Rattle.ber_forms.specs.Form.{unsigned8};
ghost use Rattle.ber_forms.specs.Reading.{Gives, alternatives};
ghost use Rattle.ber_forms.specs.Reads.{NeedsNoMemory};
ghost use Rattle.ber_forms.specs.Spelling.{alternative_octets};
ghost use Rattle.pdu_names.specs.Editions.{lengths_of};
ghost use Rattle.mms_types.specs.declared.identifier.Edition.{Edition};
ghost use Rattle.mms_types.specs.Errors.{error};
ghost use Rattle.pdu_names.specs.Kinds.{IsOf};
ghost use Rattle.pdu_assoc.specs.ServiceErrors.{IsOneOf, numbered, code_value, error_classes, state_kinds, classes_sound, states_sound, service_error, confirmed_error, cancel_error};

use ber_core::{Element, Memory as Full, Tag, Writer};
use ber_forms::{Unread, put_integer, put_optional_u32, unsigned8};
use mms_types::{CancelError, ConfirmedError, Edition, ServiceError, StateInfo};
use pdu_names::{Chosen, Formed, OneOf, cursor, optional, put_optional, required};
use std::alloc::Global;

/// The number is one of `count` from `first` on.
fn is_one_of(number: u32, first: u8, count: u8) -> bool
    ensures { IsTrue result ↔ IsOneOf first count number }
{
    let first = u32::from(first);
    first <= number && number < first + u32::from(count)
}

/// The tag is a primitive context tag with one of these numbers.
fn is_numbered(tag: Tag, first: u8, count: u8) -> bool
    ensures { IsTrue result ↔ ((tag.class ≡ 2) × (tag.constructed ≡ false)
        × IsOneOf first count tag.number) }
{
    tag.class == 2 && !tag.constructed && is_one_of(tag.number, first, count)
}

/// The alternative that the element is, of `count` numbered from `first`, and the code that it says.
fn numbered(
    element: Element<'_>,
    edition: Edition,
    first: u8,
    count: u8,
) -> Result<(u8, u8), Unread>
    requires { first + count ≤ 255 }
    ensures exact { Gives (λ x. code_value x.0 x.1) result
        (alternatives (lengths_of edition) (numbered first count unsigned8) (part element.entry)) }
    ensures no_memory { NeedsNoMemory result }
{
    let tag = element.tag;
    if is_numbered(tag, first, count) {
        Ok((tag.number as u8, unsigned8(element.contents)?))
    } else {
        Err(Unread::Malformed)
    }
}

/// Appends the code in the alternative, of `count` numbered from `first`; nothing where it is none of them.
fn put_numbered(
    out: &mut Writer,
    first: u8,
    count: u8,
    alternative: u8,
    code: u8,
) -> Result<(), Full>
    requires { first + count ≤ 255 }
    ensures ok { OnOk result (out.new
        ≡ out.old ++ alternative_octets (numbered first count unsigned8)
        (code_value alternative code)) }
    ensures err { OnErr result (out.new ≡ out.old) }
{
    if is_one_of(u32::from(alternative), first, count) {
        put_integer(out, u32::from(alternative), i64::from(code))
    } else {
        Ok(())
    }
}

/// The form of an error class with the code in it: their numbers.
pub struct ErrorClasses;

impl Chosen for ErrorClasses {
    type Item = (u8, u8);

    ghost arms = { error_classes };

    ghost needs_no_memory = { true };

    fn of(_alloc: Global, element: Element<'_>, edition: Edition) -> Result<(u8, u8), Unread> {
        numbered(element, edition, 0, 13)
    }

    fn put_chosen(out: &mut Writer, x: &(u8, u8)) -> Result<(), Full> {
        put_numbered(out, 0, 13, x.0, x.1)
    }

    ghost sound = { λ _. classes_sound };
}

/// The form of the state of an object that a request is refused for.
pub struct StateKinds;

impl Chosen for StateKinds {
    type Item = StateInfo;

    ghost arms = { state_kinds };

    ghost needs_no_memory = { true };

    fn of(_alloc: Global, element: Element<'_>, edition: Edition) -> Result<StateInfo, Unread> {
        let (kind, state) = numbered(element, edition, 1, 4)?;
        Ok(StateInfo { kind, state })
    }

    fn put_chosen(out: &mut Writer, x: &StateInfo) -> Result<(), Full> {
        put_numbered(out, 1, 4, x.kind, x.state)
    }

    ghost sound = { λ _. states_sound };
}

/// The form of a ServiceError, as initiate-Error and conclude-Error hold it; additionalCode and additionalDescription
/// are read, and not kept.
pub struct ServiceErrors;

impl Formed for ServiceErrors {
    type Item = ServiceError;

    ghost kind = { service_error };

    ghost needs_no_memory = { true };

    fn is_constructed() -> bool {
        true
    }

    fn read(alloc: Global, contents: &[u8], edition: Edition) -> Result<ServiceError, Unread> {
        let mut parts = cursor(edition, contents);
        let (class, code) = required::<OneOf<ErrorClasses>>(alloc, &mut parts, edition, 0)?;
        parts.optional_i32(1)?;
        parts.optional_visible(2)?;
        let info = optional::<OneOf<StateKinds>>(alloc, &mut parts, edition, 3)?;
        parts.end()?;
        Ok(ServiceError { class, code, info })
    }

    fn put(out: &mut Writer, x: &ServiceError) -> Result<(), Full> {
        OneOf::<ErrorClasses>::put_part(out, 0, &(x.class, x.code))?;
        put_optional::<OneOf<StateKinds>>(out, 3, x.info.as_ref())
    }

    ghost sound = { λ _. rw (classes_sound, states_sound) refl };
}

/// The form of a confirmed-Error that the server sends.
pub struct ConfirmedErrors;

impl Formed for ConfirmedErrors {
    type Item = ConfirmedError;

    ghost kind = { confirmed_error };

    ghost needs_no_memory = { true };

    fn is_constructed() -> bool {
        true
    }

    fn read(alloc: Global, contents: &[u8], edition: Edition) -> Result<ConfirmedError, Unread> {
        let mut parts = cursor(edition, contents);
        let invoke = parts.required_u32(0)?;
        let modifier = parts.optional_u32(1)?;
        let error = required::<ServiceErrors>(alloc, &mut parts, edition, 2)?;
        parts.end()?;
        Ok(ConfirmedError {
            invoke,
            modifier,
            error,
        })
    }

    fn put(out: &mut Writer, x: &ConfirmedError) -> Result<(), Full> {
        put_integer(out, 0, i64::from(x.invoke))?;
        put_optional_u32(out, 1, x.modifier)?;
        ServiceErrors::put_part(out, 2, &x.error)
    }

    ghost sound = { λ _. rw (classes_sound, states_sound) refl };
}

/// The form of a cancel-Error that the server sends.
pub struct CancelErrors;

impl Formed for CancelErrors {
    type Item = CancelError;

    ghost kind = { cancel_error };

    ghost needs_no_memory = { true };

    fn is_constructed() -> bool {
        true
    }

    fn read(alloc: Global, contents: &[u8], edition: Edition) -> Result<CancelError, Unread> {
        let mut parts = cursor(edition, contents);
        let invoke = parts.required_u32(0)?;
        let error = required::<ServiceErrors>(alloc, &mut parts, edition, 1)?;
        parts.end()?;
        Ok(CancelError { invoke, error })
    }

    fn put(out: &mut Writer, x: &CancelError) -> Result<(), Full> {
        put_integer(out, 0, i64::from(x.invoke))?;
        ServiceErrors::put_part(out, 1, &x.error)
    }

    ghost sound = { λ _. rw (classes_sound, states_sound) refl };
}

/// An error that tells no more of the refusal is of the form where its class is one of the thirteen and its code an
/// octet's number. So each error that the server answers is of the form, as `errors_have_their_numbers` tells theirs.
pub fn errors_are_of_the_form()
    ensures { (edition : Edition) (class code : ℕ) → class ≤ 12 → code ≤ 255
        → IsOf service_error edition (error class code) }
{}
