//! Forms of contents that are no elements.
#![tactic(auto, unfolding(ber_forms::specs::Spelling::appended), using(ber_forms::proofs::Joined::writing))]

ghost use Rattle.std.specs.Prelude.{◌≡◌, refl, true, false, Ok, Err, IfOk, IfErr};
ghost use Rattle.pdu_names.specs.Kinds.{null, boolean, int32, unsigned32, octet_string, visible_string, universal, explicit, application_reference};
ghost use Rattle.pdu_names.specs.Gives.{GivesContents};
ghost use Rattle.ber_forms.specs.Reads.{NeedsNoMemory};

use crate::edition::cursor;
use crate::formed::Formed;
use ber_core::{Memory as Full, Tag, Writer};
use ber_forms::{
    Unread, enclose, put_boolean, put_integer, put_null, put_octets, put_universal_integer,
};
use mms_types::{Edition, Octets};
use std::alloc::Global;

/// The form of NULL (ITU-T X.690, 8.8).
pub struct Null;

impl Formed for Null {
    type Item = ();

    ghost kind = { null };

    ghost needs_no_memory = { true };

    fn is_constructed() -> bool {
        false
    }

    fn read(_alloc: Global, contents: &[u8], _edition: Edition) -> Result<(), Unread> {
        ber_forms::null(contents)
    }

    fn put(_out: &mut Writer, _x: &()) -> Result<(), Full> {
        Ok(())
    }

    fn put_part(out: &mut Writer, number: u32, _x: &()) -> Result<(), Full> {
        put_null(out, number)
    }

    ghost sound = { λ _. refl };
}

/// The form of BOOLEAN (ITU-T X.690, 8.2).
pub struct Boolean;

impl Formed for Boolean {
    type Item = bool;

    ghost kind = { boolean };

    ghost needs_no_memory = { true };

    fn is_constructed() -> bool {
        false
    }

    fn read(_alloc: Global, contents: &[u8], _edition: Edition) -> Result<bool, Unread> {
        ber_forms::boolean(contents)
    }

    fn put(out: &mut Writer, x: &bool) -> Result<(), Full> {
        let octet = if *x { 255 } else { 0 };
        out.raw(&[octet])
    }

    fn put_part(out: &mut Writer, number: u32, x: &bool) -> Result<(), Full> {
        put_boolean(out, number, *x)
    }

    ghost sound = { λ _. refl };
}

/// The form of an INTEGER of 32 bits with a sign (ITU-T X.690, 8.3).
pub struct Signed32;

impl Formed for Signed32 {
    type Item = i32;

    ghost kind = { int32 };

    ghost needs_no_memory = { true };

    fn is_constructed() -> bool {
        false
    }

    fn read(_alloc: Global, contents: &[u8], _edition: Edition) -> Result<i32, Unread> {
        ber_forms::signed32(contents)
    }

    fn put(out: &mut Writer, x: &i32) -> Result<(), Full> {
        out.number(i64::from(*x))
    }

    fn put_part(out: &mut Writer, number: u32, x: &i32) -> Result<(), Full> {
        put_integer(out, number, i64::from(*x))
    }

    ghost sound = { λ _. refl };
}

/// The form of an INTEGER of 32 bits without a sign (ITU-T X.690, 8.3).
pub struct Unsigned32;

impl Formed for Unsigned32 {
    type Item = u32;

    ghost kind = { unsigned32 };

    ghost needs_no_memory = { true };

    fn is_constructed() -> bool {
        false
    }

    fn read(_alloc: Global, contents: &[u8], _edition: Edition) -> Result<u32, Unread> {
        ber_forms::unsigned32(contents)
    }

    fn put(out: &mut Writer, x: &u32) -> Result<(), Full> {
        out.number(i64::from(*x))
    }

    fn put_part(out: &mut Writer, number: u32, x: &u32) -> Result<(), Full> {
        put_integer(out, number, i64::from(*x))
    }

    ghost sound = { λ _. refl };
}

/// The octets, copied.
fn copied(alloc: Global, octets: &[u8]) -> Result<Octets, Unread>
    ensures ok { IfOk result (λ kept. kept ≡ octets.now) }
    ensures err { IfErr result (λ e. e ≡ Unread.Memory) }
{
    match Octets::from_slice(alloc, octets) {
        Ok(kept) => Ok(kept),
        Err(_) => Err(Unread::Memory),
    }
}

/// The form of OCTET STRING (ITU-T X.690, 8.7).
pub struct OctetString;

impl Formed for OctetString {
    type Item = Octets;

    ghost kind = { octet_string };

    ghost needs_no_memory = { false };

    fn is_constructed() -> bool {
        false
    }

    fn read(alloc: Global, contents: &[u8], _edition: Edition) -> Result<Octets, Unread> {
        copied(alloc, contents)
    }

    fn put(out: &mut Writer, x: &Octets) -> Result<(), Full> {
        out.raw(x.as_slice())
    }

    fn put_part(out: &mut Writer, number: u32, x: &Octets) -> Result<(), Full> {
        put_octets(out, number, x.as_slice())
    }

    ghost sound = { λ _. refl };
}

/// The form of VisibleString (ITU-T X.690, 8.23).
pub struct VisibleString;

impl Formed for VisibleString {
    type Item = Octets;

    ghost kind = { visible_string };

    ghost needs_no_memory = { false };

    fn is_constructed() -> bool {
        false
    }

    fn read(alloc: Global, contents: &[u8], _edition: Edition) -> Result<Octets, Unread> {
        let text = ber_forms::visible(contents)?;
        copied(alloc, text)
    }

    fn put(out: &mut Writer, x: &Octets) -> Result<(), Full> {
        out.raw(x.as_slice())
    }

    fn put_part(out: &mut Writer, number: u32, x: &Octets) -> Result<(), Full> {
        put_octets(out, number, x.as_slice())
    }

    ghost sound = { λ _. refl };
}

/// A number of 32 bits without a sign, the one element of an explicit tag.
fn explicit_u32(contents: &[u8], edition: Edition) -> Result<u32, Unread>
    ensures exact { GivesContents (explicit (universal 2 unsigned32)) edition contents.now result }
    ensures no_memory { NeedsNoMemory result }
{
    let mut parts = cursor(edition, contents);
    let number = parts.required_universal_u32()?;
    parts.end()?;
    Ok(number)
}

/// The form of an ApplicationReference: the client's number.
pub struct ApplicationReference;

impl Formed for ApplicationReference {
    type Item = u32;

    ghost kind = { application_reference };

    ghost needs_no_memory = { true };

    fn is_constructed() -> bool {
        true
    }

    #[tactic(auto, unfolding(ber_forms::specs::Reading::required_by))]
    fn read(_alloc: Global, contents: &[u8], edition: Edition) -> Result<u32, Unread> {
        let mut parts = cursor(edition, contents);
        let element = parts.required(Tag::constructed(1))?;
        let number = explicit_u32(element.contents, edition)?;
        parts.end()?;
        Ok(number)
    }

    fn put(out: &mut Writer, x: &u32) -> Result<(), Full> {
        let since = out.len();
        let written = put_universal_integer(out, i64::from(*x));
        enclose(out, since, written, Tag::constructed(1))
    }

    ghost sound = { λ _. refl };
}
