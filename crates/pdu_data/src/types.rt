//! Types, as they are read.

ghost use Rattle.std.specs.Prelude.{◌≡◌, ◌≤◌, ◌<◌, ◌+◌, pos, false, Ok, Err, IfOk, OnOk, length};
ghost use Rattle.ber_core.specs.Part.{part};
ghost use Rattle.ber_forms.specs.Form as form;
ghost use Rattle.ber_forms.specs.Value as value;
ghost use Rattle.ber_forms.specs.Reading.{Gives, reading, alternatives, members_by, required_at, defaulted_at};
ghost use Rattle.ber_forms.specs.Reads.{NeedsNoMemory};
ghost use Rattle.mms_types.specs.Shape.{shape_depth, fields_depth};
ghost use Rattle.mms_types.specs.SeenType.{fields};
ghost use Rattle.pdu_names.specs.Editions.{lengths_of};
ghost use Rattle.pdu_data.specs.Types.{is_signed_width, is_unsigned_width, is_format, says_signed_width, says_unsigned_width, says_format, length_form, floating_form, floating_value, simple_types, array_form, array_value, component_form, component_member, component_value, structure_form, structure_value, type_alternatives, type_value, field_values};

use ber_core::{Element, Tag};
use ber_forms::{Cursor, Unread, boolean, has_tag, integer, null, unsigned8};
use mms_types::{Component, Edition, Identifier, TypeKind, TypeSpec};
use pdu_names::{cursor, optional};
use std::alloc::Global;

fn is_signed_width(width: u8) -> bool
    ensures { result ≡ is_signed_width width }
{
    width == 8 || width == 16 || width == 32 || width == 64
}

fn is_unsigned_width(width: u8) -> bool
    ensures { result ≡ is_unsigned_width width }
{
    width == 8 || width == 16 || width == 32
}

fn is_format(width: u8, exponent: u8) -> bool
    ensures { result ≡ is_format width exponent }
{
    width == 32 && exponent == 8 || width == 64 && exponent == 11
}

/// The width of an integer.
fn signed_width(contents: &[u8], _edition: Edition) -> Result<u8, Unread>
    ensures exact { Gives (λ n. value.number (pos n)) result
        (reading (lengths_of _edition)
        (form.such_that says_signed_width form.unsigned8) contents.now) }
    ensures no_memory { NeedsNoMemory result }
{
    let width = unsigned8(contents)?;
    if is_signed_width(width) {
        Ok(width)
    } else {
        Err(Unread::Malformed)
    }
}

/// The width of an unsigned.
fn unsigned_width(contents: &[u8], _edition: Edition) -> Result<u8, Unread>
    ensures exact { Gives (λ n. value.number (pos n)) result
        (reading (lengths_of _edition)
        (form.such_that says_unsigned_width form.unsigned8) contents.now) }
    ensures no_memory { NeedsNoMemory result }
{
    let width = unsigned8(contents)?;
    if is_unsigned_width(width) {
        Ok(width)
    } else {
        Err(Unread::Malformed)
    }
}

/// A number under the universal tag of INTEGER.
#[tactic(auto, unfolding(ber_forms::specs::Reading::required_by))]
fn universal_u8(parts: &mut Cursor<'_>) -> Result<u8, Unread>
    ensures exact { Gives (λ n. (value.number (pos n), parts.new.octets)) result
        (required_at parts.old.lengths (form.universal 2 form.unsigned8) parts.old.octets) }
    ensures kept { parts.new.lengths ≡ parts.old.lengths }
    ensures no_memory { NeedsNoMemory result }
{
    let element = parts.required(Tag::universal(2))?;
    unsigned8(element.contents)
}

fn two_widths(contents: &[u8], edition: Edition) -> Result<(u8, u8), Unread>
    ensures exact { Gives (λ f. floating_value f.0 f.1) result
        (reading (lengths_of edition) floating_form contents.now) }
    ensures no_memory { NeedsNoMemory result }
{
    let mut parts = cursor(edition, contents);
    let width = universal_u8(&mut parts)?;
    let exponent = universal_u8(&mut parts)?;
    parts.end()?;
    Ok((width, exponent))
}

/// The widths of a format and of its exponent.
fn widths(contents: &[u8], edition: Edition) -> Result<(u8, u8), Unread>
    ensures exact { Gives (λ f. floating_value f.0 f.1) result
        (reading (lengths_of edition) (form.such_that says_format floating_form) contents.now) }
    ensures no_memory { NeedsNoMemory result }
{
    let (width, exponent) = two_widths(contents, edition)?;
    if is_format(width, exponent) {
        Ok((width, exponent))
    } else {
        Err(Unread::Malformed)
    }
}

/// A length, or the greatest one as a number below 0.
fn length_of(contents: &[u8], _edition: Edition) -> Result<i32, Unread>
    ensures exact { Gives (λ n. value.number n) result
        (reading (lengths_of _edition) length_form contents.now) }
    ensures no_memory { NeedsNoMemory result }
{
    Ok(integer(contents, -60000, 60000)? as i32)
}

/// A simple type.
fn simple(element: Element<'_>, edition: Edition) -> Result<TypeSpec, Unread>
    ensures exact { Gives type_value result
        (alternatives (lengths_of edition) simple_types (part element.entry)) }
    ensures deep { IfOk result (λ s. shape_depth s ≡ 0) }
    ensures no_memory { NeedsNoMemory result }
{
    let Element { tag, contents } = element;
    if has_tag(tag, Tag::primitive(3)) {
        null(contents)?;
        let kind = TypeKind::Boolean;
        Ok(TypeSpec { kind })
    } else if has_tag(tag, Tag::primitive(4)) {
        let kind = TypeKind::Bits(length_of(contents, edition)?);
        Ok(TypeSpec { kind })
    } else if has_tag(tag, Tag::primitive(5)) {
        let kind = TypeKind::Integer(signed_width(contents, edition)?);
        Ok(TypeSpec { kind })
    } else if has_tag(tag, Tag::primitive(6)) {
        let kind = TypeKind::Unsigned(unsigned_width(contents, edition)?);
        Ok(TypeSpec { kind })
    } else if has_tag(tag, Tag::constructed(7)) {
        let (width, exponent) = widths(contents, edition)?;
        let kind = TypeKind::Floating { width, exponent };
        Ok(TypeSpec { kind })
    } else if has_tag(tag, Tag::primitive(9)) {
        let kind = TypeKind::Octets(length_of(contents, edition)?);
        Ok(TypeSpec { kind })
    } else if has_tag(tag, Tag::primitive(10)) {
        let kind = TypeKind::Visible(length_of(contents, edition)?);
        Ok(TypeSpec { kind })
    } else if has_tag(tag, Tag::primitive(12)) {
        let kind = TypeKind::Time(boolean(contents)?);
        Ok(TypeSpec { kind })
    } else {
        Err(Unread::Malformed)
    }
}

/// Whether it is packed, under the context tag 0: FALSE where it is missing.
fn packed(parts: &mut Cursor<'_>, edition: Edition) -> Result<bool, Unread>
    requires { parts.old.lengths ≡ lengths_of edition }
    ensures exact { Gives (λ b. (value.given (value.truth b), parts.new.octets)) result
        (defaulted_at (lengths_of edition)
        (form.context 0 form.boolean) (value.truth false) parts.old.octets) }
    ensures kept { parts.new.lengths ≡ parts.old.lengths }
    ensures no_memory { NeedsNoMemory result }
{
    parts.defaulted_boolean(0, false)
}

/// How many elements, under the context tag 1: at most 4,096.
fn count(parts: &mut Cursor<'_>, edition: Edition) -> Result<u32, Unread>
    requires { parts.old.lengths ≡ lengths_of edition }
    ensures exact { Gives (λ n. (value.number (pos n), parts.new.octets)) result
        (required_at (lengths_of edition)
        (form.context 1 (form.integer (pos 0) (pos 4096))) parts.old.octets) }
    ensures kept { parts.new.lengths ≡ parts.old.lengths }
    ensures no_memory { NeedsNoMemory result }
{
    Ok(parts.required_integer(1, 0, 4096)? as u32)
}

/// An array of a type.
fn array_of(alloc: Global, packed: bool, count: u32, inner: TypeSpec) -> Result<TypeSpec, Unread>
    requires { shape_depth inner < 10 }
    ensures exact { Gives type_value result
        (Ok (value.chosen 1 (array_value packed count (type_value inner)))) }
    ensures deep { IfOk result (λ s. shape_depth s ≡ shape_depth inner + 1) }
{
    let element = Box::new(alloc, inner)?;
    Ok(TypeSpec {
        kind: TypeKind::Array {
            packed,
            count,
            element,
        },
    })
}

/// The type that the element is, where it nests no deeper than `most`.
#[cycle(types)]
#[tactic(auto, using(crate::proofs::TypeLaws::type_simple), unfolding(crate::specs::Types::type_alternatives))]
pub(crate) fn one(
    alloc: Global,
    element: Element<'_>,
    edition: Edition,
    most: u8,
) -> Result<TypeSpec, Unread>
    requires { most ≤ 10 }
    ensures exact { Gives type_value result
        (alternatives (lengths_of edition)
        (type_alternatives edition most) (part element.entry)) }
    ensures deep { IfOk result (λ s. shape_depth s ≤ most) }
{
    if has_tag(element.tag, Tag::constructed(1)) {
        if most == 0 {
            return Err(Unread::TooDeep);
        }
        let (packed, count, inner) = array(alloc, element.contents, edition, most - 1)?;
        array_of(alloc, packed, count, inner)
    } else if has_tag(element.tag, Tag::constructed(2)) {
        if most == 0 {
            return Err(Unread::TooDeep);
        }
        let (packed, components) = structure(alloc, element.contents, edition, most - 1)?;
        Ok(TypeSpec {
            kind: TypeKind::Structure { packed, components },
        })
    } else {
        simple(element, edition)
    }
}

#[cycle(types)]
#[tactic(auto, unfolding(ber_forms::specs::Reading::chosen_by))]
fn whole(alloc: Global, contents: &[u8], edition: Edition, most: u8) -> Result<TypeSpec, Unread>
    requires { most ≤ 10 }
    ensures exact { Gives type_value result
        (reading (lengths_of edition) (form.choice (type_alternatives edition most)) contents.now) }
    ensures deep { IfOk result (λ s. shape_depth s ≤ most) }
{
    let mut parts = cursor(edition, contents);
    let element = parts.part()?;
    let found = one(alloc, element, edition, most)?;
    parts.end()?;
    Ok(found)
}

/// The next element, a type under the context tag `number`.
#[cycle(types)]
#[tactic(auto, unfolding(ber_forms::specs::Reading::required_by))]
fn required_type(
    alloc: Global,
    parts: &mut Cursor<'_>,
    number: u32,
    edition: Edition,
    most: u8,
) -> Result<TypeSpec, Unread>
    requires lengths { parts.old.lengths ≡ lengths_of edition }
    requires most { most ≤ 10 }
    ensures exact { Gives (λ s. (type_value s, parts.new.octets)) result
        (required_at (lengths_of edition)
        (form.context number (form.choice (type_alternatives edition most))) parts.old.octets) }
    ensures kept { parts.new.lengths ≡ parts.old.lengths }
    ensures deep { IfOk result (λ s. shape_depth s ≤ most) }
{
    let element = parts.required(Tag::constructed(number))?;
    whole(alloc, element.contents, edition, most)
}

#[cycle(types)]
fn array(
    alloc: Global,
    contents: &[u8],
    edition: Edition,
    most: u8,
) -> Result<(bool, u32, TypeSpec), Unread>
    requires { most ≤ 10 }
    ensures exact { Gives (λ a. array_value a.0 a.1 (type_value a.2)) result
        (reading (lengths_of edition) (array_form (type_alternatives edition most)) contents.now) }
    ensures deep { IfOk result (λ a. shape_depth a.2 ≤ most) }
{
    let mut parts = cursor(edition, contents);
    let packed = packed(&mut parts, edition)?;
    let count = count(&mut parts, edition)?;
    let inner = required_type(alloc, &mut parts, 2, edition, most)?;
    parts.end()?;
    Ok((packed, count, inner))
}

#[cycle(types)]
fn structure(
    alloc: Global,
    contents: &[u8],
    edition: Edition,
    most: u8,
) -> Result<(bool, Vec<Component>), Unread>
    requires { most ≤ 10 }
    ensures exact { Gives (λ s. structure_value s.0 (field_values (fields s.1.items))) result
        (reading (lengths_of edition) (structure_form edition (type_alternatives edition most))
        contents.now) }
    ensures deep { IfOk result (λ s. fields_depth (fields s.1.items) ≤ most) }
{
    let mut parts = cursor(edition, contents);
    let packed = packed(&mut parts, edition)?;
    let components = required_components(alloc, &mut parts, edition, most)?;
    parts.end()?;
    Ok((packed, components))
}

/// The next element, components under the context tag 1.
#[cycle(types)]
#[tactic(auto, unfolding(ber_forms::specs::Reading::required_by))]
fn required_components(
    alloc: Global,
    parts: &mut Cursor<'_>,
    edition: Edition,
    most: u8,
) -> Result<Vec<Component>, Unread>
    requires lengths { parts.old.lengths ≡ lengths_of edition }
    requires most { most ≤ 10 }
    ensures exact { Gives
        (λ v. (value.parts (value.all_of (field_values (fields v.items))), parts.new.octets)) result
        (required_at (lengths_of edition)
        (form.context 1 (form.list_of form.any_number
        (component_member edition (type_alternatives edition most)))) parts.old.octets) }
    ensures kept { parts.new.lengths ≡ parts.old.lengths }
    ensures deep { IfOk result (λ v. fields_depth (fields v.items) ≤ most) }
{
    let element = parts.required(Tag::constructed(1))?;
    components(alloc, element.contents, edition, most)
}

#[cycle(types)]
fn components(
    alloc: Global,
    contents: &[u8],
    edition: Edition,
    most: u8,
) -> Result<Vec<Component>, Unread>
    requires { most ≤ 10 }
    ensures exact { Gives (λ v. field_values (fields v.items)) result
        (members_by (required_at (lengths_of edition)
        (component_member edition (type_alternatives edition most)))
        (length contents.now) contents.now) }
    ensures deep { IfOk result (λ v. fields_depth (fields v.items) ≤ most) }
{
    let mut found = Vec::new(alloc);
    let mut parts = cursor(edition, contents);
    while !parts.is_empty() {
        found.push(next(alloc, &mut parts, edition, most)?)?;
    }
    Ok(found)
}

/// The next element, a component.
#[cycle(types)]
#[tactic(auto, unfolding(ber_forms::specs::Reading::required_by))]
fn next(
    alloc: Global,
    parts: &mut Cursor<'_>,
    edition: Edition,
    most: u8,
) -> Result<Component, Unread>
    requires lengths { parts.old.lengths ≡ lengths_of edition }
    requires most { most ≤ 10 }
    ensures exact { Gives
        (λ c. (component_value c.name (type_value c.spec), parts.new.octets)) result
        (required_at (lengths_of edition)
        (component_member edition (type_alternatives edition most)) parts.old.octets) }
    ensures kept { parts.new.lengths ≡ parts.old.lengths }
    ensures shorter { OnOk result (length parts.new.octets < length parts.old.octets) }
    ensures deep { IfOk result (λ c. shape_depth c.spec ≤ most) }
{
    let element = parts.required(Tag {
        class: 0,
        constructed: true,
        number: 16,
    })?;
    component(alloc, element.contents, edition, most)
}

#[cycle(types)]
fn component(
    alloc: Global,
    contents: &[u8],
    edition: Edition,
    most: u8,
) -> Result<Component, Unread>
    requires { most ≤ 10 }
    ensures exact { Gives (λ c. component_value c.name (type_value c.spec)) result
        (reading (lengths_of edition) (component_form edition (type_alternatives edition most))
        contents.now) }
    ensures deep { IfOk result (λ c. shape_depth c.spec ≤ most) }
{
    let mut parts = cursor(edition, contents);
    let name = optional::<Identifier>(alloc, &mut parts, edition, 0)?;
    let spec = required_type(alloc, &mut parts, 1, edition, most)?;
    parts.end()?;
    Ok(Component { name, spec })
}
