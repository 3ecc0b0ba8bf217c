//! Components of contents, written from left to right. Each call appends an element under a context tag, or
//! nothing where it answers that memory ran out.

ghost use Rattle.std.specs.Prelude.{◌≡◌, ◌<◌, ◌≤◌, ◌++◌, [], ◌∷◌, length, take, drop, OnOk, OnErr, Ok, Some, None, pos};
ghost use Rattle.ber_core.specs.Spelling.{element_octets};
ghost use Rattle.ber_forms.specs.Spelling.{tag_of, member_octets, optional_octets, defaulted_octets, Begins};
ghost use Rattle.ber_forms.specs.Form as form;
ghost use Rattle.ber_forms.specs.Value as value;

use ber_core::{Bits, Memory, Tag, Writer};

/// A number under the context tag `number`.
pub fn put_integer(out: &mut Writer, number: u32, n: i64) -> Result<(), Memory>
    requires { number < 16384 }
    ensures ok { OnOk result (out.new
        ≡ out.old ++ member_octets (form.context number form.int64) (value.number n)) }
    ensures err { OnErr result (out.new ≡ out.old) }
{
    out.integer(Tag::primitive(number), n)
}

/// A number under the universal tag of INTEGER.
pub fn put_universal_integer(out: &mut Writer, n: i64) -> Result<(), Memory>
    ensures ok { OnOk result (out.new
        ≡ out.old ++ member_octets (form.universal 2 form.int64) (value.number n)) }
    ensures err { OnErr result (out.new ≡ out.old) }
{
    out.integer(
        Tag {
            class: 0,
            constructed: false,
            number: 2,
        },
        n,
    )
}

/// A number, unless it is the default.
pub fn put_defaulted_integer(
    out: &mut Writer,
    number: u32,
    n: i64,
    default: i64,
) -> Result<(), Memory>
    requires { number < 16384 }
    ensures ok { OnOk result (out.new
        ≡ out.old ++ defaulted_octets (form.context number form.int64) (value.number default)
        (value.given (value.number n))) }
    ensures err { OnErr result (out.new ≡ out.old) }
{
    if n == default {
        Ok(())
    } else {
        put_integer(out, number, n)
    }
}

/// A number of 8 bits with a sign, if there is one.
pub fn put_optional_i8(out: &mut Writer, number: u32, n: Option<i8>) -> Result<(), Memory>
    requires { number < 16384 }
    ensures ok { OnOk result (out.new
        ≡ out.old ++ optional_octets (form.context number form.int8)
        (value.optionally value.number n)) }
    ensures err { OnErr result (out.new ≡ out.old) }
{
    match n {
        None => Ok(()),
        Some(n) => put_integer(out, number, i64::from(n)),
    }
}

/// A number of 16 bits with a sign, if there is one.
pub fn put_optional_i16(out: &mut Writer, number: u32, n: Option<i16>) -> Result<(), Memory>
    requires { number < 16384 }
    ensures ok { OnOk result (out.new
        ≡ out.old ++ optional_octets (form.context number form.int16)
        (value.optionally value.number n)) }
    ensures err { OnErr result (out.new ≡ out.old) }
{
    match n {
        None => Ok(()),
        Some(n) => put_integer(out, number, i64::from(n)),
    }
}

/// A number of 32 bits with a sign, if there is one.
pub fn put_optional_i32(out: &mut Writer, number: u32, n: Option<i32>) -> Result<(), Memory>
    requires { number < 16384 }
    ensures ok { OnOk result (out.new
        ≡ out.old ++ optional_octets (form.context number form.int32)
        (value.optionally value.number n)) }
    ensures err { OnErr result (out.new ≡ out.old) }
{
    match n {
        None => Ok(()),
        Some(n) => put_integer(out, number, i64::from(n)),
    }
}

/// A number of 8 bits without a sign, if there is one.
pub fn put_optional_u8(out: &mut Writer, number: u32, n: Option<u8>) -> Result<(), Memory>
    requires { number < 16384 }
    ensures ok { OnOk result (out.new
        ≡ out.old ++ optional_octets (form.context number form.unsigned8)
        (value.optionally (λ k. value.number (pos k)) n)) }
    ensures err { OnErr result (out.new ≡ out.old) }
{
    match n {
        None => Ok(()),
        Some(n) => put_integer(out, number, i64::from(n)),
    }
}

/// A number of 16 bits without a sign, if there is one.
pub fn put_optional_u16(out: &mut Writer, number: u32, n: Option<u16>) -> Result<(), Memory>
    requires { number < 16384 }
    ensures ok { OnOk result (out.new
        ≡ out.old ++ optional_octets (form.context number form.unsigned16)
        (value.optionally (λ k. value.number (pos k)) n)) }
    ensures err { OnErr result (out.new ≡ out.old) }
{
    match n {
        None => Ok(()),
        Some(n) => put_integer(out, number, i64::from(n)),
    }
}

/// A number of 32 bits without a sign, if there is one.
pub fn put_optional_u32(out: &mut Writer, number: u32, n: Option<u32>) -> Result<(), Memory>
    requires { number < 16384 }
    ensures ok { OnOk result (out.new
        ≡ out.old ++ optional_octets (form.context number form.unsigned32)
        (value.optionally (λ k. value.number (pos k)) n)) }
    ensures err { OnErr result (out.new ≡ out.old) }
{
    match n {
        None => Ok(()),
        Some(n) => put_integer(out, number, i64::from(n)),
    }
}

/// A truth value: TRUE is FF (ITU-T X.690, 11.1).
pub fn put_boolean(out: &mut Writer, number: u32, b: bool) -> Result<(), Memory>
    requires { number < 16384 }
    ensures ok { OnOk result (out.new
        ≡ out.old ++ member_octets (form.context number form.boolean) (value.truth b)) }
    ensures err { OnErr result (out.new ≡ out.old) }
{
    let octet = if b { 255 } else { 0 };
    out.element(Tag::primitive(number), &[octet])
}

/// A truth value, if there is one.
pub fn put_optional_boolean(out: &mut Writer, number: u32, b: Option<bool>) -> Result<(), Memory>
    requires { number < 16384 }
    ensures ok { OnOk result (out.new
        ≡ out.old ++ optional_octets (form.context number form.boolean)
        (value.optionally value.truth b)) }
    ensures err { OnErr result (out.new ≡ out.old) }
{
    match b {
        None => Ok(()),
        Some(b) => put_boolean(out, number, b),
    }
}

/// A truth value, unless it is the default.
pub fn put_defaulted_boolean(
    out: &mut Writer,
    number: u32,
    b: bool,
    default: bool,
) -> Result<(), Memory>
    requires { number < 16384 }
    ensures ok { OnOk result (out.new
        ≡ out.old ++ defaulted_octets (form.context number form.boolean) (value.truth default)
        (value.given (value.truth b))) }
    ensures err { OnErr result (out.new ≡ out.old) }
{
    if b == default {
        Ok(())
    } else {
        put_boolean(out, number, b)
    }
}

/// NULL.
pub fn put_null(out: &mut Writer, number: u32) -> Result<(), Memory>
    requires { number < 16384 }
    ensures ok { OnOk result (out.new
        ≡ out.old ++ member_octets (form.context number form.null) value.nothing) }
    ensures err { OnErr result (out.new ≡ out.old) }
{
    out.element(Tag::primitive(number), &[])
}

/// Octets, as an OCTET STRING or another string.
pub fn put_octets(out: &mut Writer, number: u32, octets: &[u8]) -> Result<(), Memory>
    requires { number < 16384 }
    ensures ok { OnOk result (out.new
        ≡ out.old ++ member_octets (form.context number (form.octet_string form.any_octets))
        (value.text octets.now)) }
    ensures err { OnErr result (out.new ≡ out.old) }
{
    out.element(Tag::primitive(number), octets)
}

/// Octets, if there are any to write.
pub fn put_optional_octets(
    out: &mut Writer,
    number: u32,
    octets: Option<&[u8]>,
) -> Result<(), Memory>
    requires { number < 16384 }
    ensures ok { OnOk result (out.new
        ≡ out.old ++ optional_octets (form.context number (form.octet_string form.any_octets))
        (value.optionally (λ s. value.text s.now) octets.entry)) }
    ensures err { OnErr result (out.new ≡ out.old) }
{
    match octets {
        None => Ok(()),
        Some(octets) => put_octets(out, number, octets),
    }
}

/// Appends how many bits are unused, and the octets.
#[tactic(auto, using(crate::proofs::Joined::writing))]
fn put_bits(out: &mut Writer, bits: Bits<'_>) -> Result<(), Memory>
    ensures ok { OnOk result (out.new ≡ out.old ++ bits.entry.unused ∷ bits.entry.octets.now) }
    ensures begins { Begins out.old out.new }
{
    out.raw(&[bits.unused])?;
    out.raw(bits.octets)
}

/// A bit string, whose unused bits are to be 0; also one of named bits.
#[tactic(auto, using(crate::proofs::Joined::writing))]
pub fn put_bit_string(out: &mut Writer, number: u32, bits: Bits<'_>) -> Result<(), Memory>
    requires { number < 16384 }
    ensures ok { OnOk result (out.new
        ≡ out.old ++ member_octets (form.context number form.bit_string)
        (value.bits bits.entry.unused bits.entry.octets.now)) }
    ensures err { OnErr result (out.new ≡ out.old) }
{
    let since = out.len();
    let written = put_bits(out, bits);
    let tag = Tag::primitive(number);
    enclose(out, since, written, tag)
}

/// Keeps what was written since the writer had this length, or takes it back where writing failed.
pub fn settle(out: &mut Writer, since: usize, written: Result<(), Memory>) -> Result<(), Memory>
    requires { since ≤ length out.old }
    ensures ok { OnOk result (out.new ≡ out.old) }
    ensures err { OnErr result (out.new ≡ take since out.old) }
    ensures same { result ≡ written }
{
    match written {
        Ok(()) => Ok(()),
        Err(memory) => {
            out.truncate(since);
            Err(memory)
        }
    }
}

/// Makes what was written since the writer had this length the contents of one element, or takes it back where
/// writing failed or memory runs out.
pub fn enclose(
    out: &mut Writer,
    since: usize,
    written: Result<(), Memory>,
    tag: Tag,
) -> Result<(), Memory>
    requires since { since ≤ length out.old }
    requires class { tag.class < 4 }
    requires number { tag.number < 16384 }
    ensures ok { OnOk result (out.new
        ≡ take since out.old ++ element_octets tag (drop since out.old)) }
    ensures written { OnOk result (written ≡ Ok tt) }
    ensures err { OnErr result (out.new ≡ take since out.old) }
{
    let written = match written {
        Ok(()) => out.enclose(since, tag),
        Err(memory) => Err(memory),
    };
    settle(out, since, written)
}
