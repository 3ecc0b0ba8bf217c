//! Data, as it is read.

ghost use Rattle.std.specs.Prelude.{◌≡◌, ◌≤◌, Ok, Err, IfOk, length};
ghost use Rattle.ber_core.specs.Part.{part};
ghost use Rattle.ber_forms.specs.Form as form;
ghost use Rattle.ber_forms.specs.Value as value;
ghost use Rattle.ber_forms.specs.Reading.{Gives, alternatives, members_by, required_at, text_value, bits_value};
ghost use Rattle.mms_types.specs.Datum.{row, depth, deepest};
ghost use Rattle.pdu_data.specs.Data.{simple_data, data_alternatives, data_value, row_values};

use ber_core::{Element, Lengths, Tag};
use ber_forms::{
    Cursor, Unread, bit_octets, bit_string, boolean, has_tag, integer, unsigned32, visible,
};
use mms_types::{BitString, Data, DataKind, Octets};
use std::alloc::Global;

/// Octets, copied.
fn kept(alloc: Global, contents: &[u8]) -> Result<Octets, Unread>
    ensures { Gives (λ o. value.text o) result (text_value form.any_octets contents.now) }
{
    Ok(Octets::new(Vec::from_slice(alloc, contents)?))
}

/// The octets of a VisibleString, copied.
fn kept_visible(alloc: Global, contents: &[u8]) -> Result<Octets, Unread>
    ensures { Gives (λ o. value.text o) result (text_value form.are_visible contents.now) }
{
    let text = visible(contents)?;
    Ok(Octets::new(Vec::from_slice(alloc, text)?))
}

/// A bit string with its unused bits 0.
fn kept_bits(alloc: Global, contents: &[u8]) -> Result<BitString, Unread>
    ensures { Gives (λ b. value.bits b.unused b.octets) result (bits_value contents.now) }
{
    let bits = bit_string(contents)?;
    let unused = bits.unused;
    let octets = bit_octets(alloc, bits)?;
    Ok(BitString {
        unused,
        octets: Octets::new(octets),
    })
}

/// A simple value.
fn simple(alloc: Global, element: Element<'_>, lengths: Lengths) -> Result<Data, Unread>
    ensures exact { Gives data_value result
        (alternatives lengths simple_data (part element.entry)) }
    ensures deep { IfOk result (λ x. depth x ≡ 0) }
{
    let Element { tag, contents } = element;
    if has_tag(tag, Tag::primitive(3)) {
        let kind = DataKind::Boolean(boolean(contents)?);
        Ok(Data { kind })
    } else if has_tag(tag, Tag::primitive(4)) {
        let kind = DataKind::Bits(kept_bits(alloc, contents)?);
        Ok(Data { kind })
    } else if has_tag(tag, Tag::primitive(5)) {
        let kind = DataKind::Integer(integer(contents, i64::MIN, i64::MAX)?);
        Ok(Data { kind })
    } else if has_tag(tag, Tag::primitive(6)) {
        let kind = DataKind::Unsigned(unsigned32(contents)?);
        Ok(Data { kind })
    } else if has_tag(tag, Tag::primitive(7)) {
        let kind = DataKind::Floating(kept(alloc, contents)?);
        Ok(Data { kind })
    } else if has_tag(tag, Tag::primitive(9)) {
        let kind = DataKind::Octets(kept(alloc, contents)?);
        Ok(Data { kind })
    } else if has_tag(tag, Tag::primitive(10)) {
        let kind = DataKind::Visible(kept_visible(alloc, contents)?);
        Ok(Data { kind })
    } else if has_tag(tag, Tag::primitive(12)) {
        let kind = DataKind::Time(kept(alloc, contents)?);
        Ok(Data { kind })
    } else {
        Err(Unread::Malformed)
    }
}

/// The data that the element is, where it nests no deeper than `most`.
#[cycle(data)]
#[tactic(auto, using(crate::proofs::DataLaws::data_simple), unfolding(crate::specs::Data::data_alternatives))]
pub(crate) fn one(
    alloc: Global,
    lengths: Lengths,
    element: Element<'_>,
    most: u8,
) -> Result<Data, Unread>
    requires { most ≤ 10 }
    ensures exact { Gives data_value result
        (alternatives lengths (data_alternatives most) (part element.entry)) }
    ensures deep { IfOk result (λ x. depth x ≤ most) }
{
    if has_tag(element.tag, Tag::constructed(1)) {
        if most == 0 {
            return Err(Unread::TooDeep);
        }
        let found = members(alloc, lengths, element.contents, most - 1)?;
        Ok(Data {
            kind: DataKind::Array(found),
        })
    } else if has_tag(element.tag, Tag::constructed(2)) {
        if most == 0 {
            return Err(Unread::TooDeep);
        }
        let found = members(alloc, lengths, element.contents, most - 1)?;
        Ok(Data {
            kind: DataKind::Structure(found),
        })
    } else {
        simple(alloc, element, lengths)
    }
}

#[cycle(data)]
fn members(alloc: Global, lengths: Lengths, contents: &[u8], most: u8) -> Result<Vec<Data>, Unread>
    requires { most ≤ 10 }
    ensures exact { Gives (λ v. row_values (row v.items)) result
        (members_by (required_at lengths (form.one_of (data_alternatives most)))
        (length contents.now) contents.now) }
    ensures deep { IfOk result (λ v. deepest (row v.items) ≤ most) }
{
    let mut found = Vec::new(alloc);
    let mut parts = Cursor::new(lengths, contents);
    while !parts.is_empty() {
        let element = parts.part()?;
        found.push(one(alloc, lengths, element, most)?)?;
    }
    Ok(found)
}
