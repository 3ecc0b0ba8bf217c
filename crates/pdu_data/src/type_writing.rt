//! Types, as they are written.

ghost use Rattle.std.specs.Prelude.{◌≡◌, ◌≤◌, ◌<◌, ◌++◌, [], Ok, Err, Some, None, OnOk, OnErr};
ghost use Rattle.ber_core.specs.Spelling.{element_octets};
ghost use Rattle.ber_forms.specs.Form as form;
ghost use Rattle.ber_forms.specs.Spelling.{tag_of, alternative_octets, Begins};
ghost use Rattle.mms_types.specs.Shape.{shape_depth};
ghost use Rattle.mms_types.specs.SeenType.{fields};
ghost use Rattle.mms_types.specs.Spelling.{widest};
ghost use Rattle.pdu_data.specs.Types.{type_alternatives, type_value, type_octets, field_octets, array_octets, structure_octets, floating_octets, named_octets};

use ber_core::{Memory as Full, Tag, Writer};
use ber_forms::{
    enclose, put_boolean, put_defaulted_boolean, put_integer, put_null, put_universal_integer,
};
use mms_types::{Component, Identifier, TypeKind, TypeSpec};
use pdu_names::put_optional;

#[cycle(put_types)]
fn put_one(out: &mut Writer, of: &TypeSpec) -> Result<(), Full>
    ensures ok { OnOk result (out.new ≡ out.old ++ type_octets of.now) }
    ensures err { OnErr result (out.new ≡ out.old) }
    ensures shallow { shape_depth of.now ≤ 10 }
{
    match &of.kind {
        TypeKind::Array {
            packed,
            count,
            element,
        } => put_array_part(out, *packed, *count, element),
        TypeKind::Structure { packed, components } => put_structure_part(out, *packed, components),
        TypeKind::Boolean => put_null(out, 3),
        TypeKind::Bits(n) => put_integer(out, 4, i64::from(*n)),
        TypeKind::Integer(width) => put_integer(out, 5, i64::from(*width)),
        TypeKind::Unsigned(width) => put_integer(out, 6, i64::from(*width)),
        TypeKind::Floating { width, exponent } => put_floating_part(out, *width, *exponent),
        TypeKind::Octets(n) => put_integer(out, 9, i64::from(*n)),
        TypeKind::Visible(n) => put_integer(out, 10, i64::from(*n)),
        TypeKind::Time(dated) => put_boolean(out, 12, *dated),
    }
}

#[tactic(auto, using(ber_forms::proofs::Joined::writing))]
fn put_floating(out: &mut Writer, width: u8, exponent: u8) -> Result<(), Full>
    ensures ok { OnOk result (out.new ≡ floating_octets width exponent out.old) }
    ensures begins { Begins out.old out.new }
{
    put_universal_integer(out, i64::from(width))?;
    put_universal_integer(out, i64::from(exponent))
}

#[tactic(auto, using(ber_forms::proofs::Joined::writing, crate::proofs::TypeLaws::floating_after))]
fn put_floating_part(out: &mut Writer, width: u8, exponent: u8) -> Result<(), Full>
    ensures ok { OnOk result
        (out.new ≡ out.old ++ element_octets
        (tag_of 2 7 form.elements) (floating_octets width exponent [])) }
    ensures err { OnErr result (out.new ≡ out.old) }
{
    let since = out.len();
    let written = put_floating(out, width, exponent);
    enclose(out, since, written, Tag::constructed(7))
}

#[cycle(put_types)]
#[tactic(auto, using(ber_forms::proofs::Joined::writing))]
fn put_inner(out: &mut Writer, number: u32, of: &TypeSpec) -> Result<(), Full>
    requires { number < 16384 }
    ensures ok { OnOk result
        (out.new ≡ out.old ++ element_octets
        (tag_of 2 number form.elements) (type_octets of.now)) }
    ensures err { OnErr result (out.new ≡ out.old) }
{
    let since = out.len();
    let written = put_one(out, of);
    enclose(out, since, written, Tag::constructed(number))
}

#[cycle(put_types)]
#[tactic(auto, using(ber_forms::proofs::Joined::writing))]
fn put_array(out: &mut Writer, packed: bool, count: u32, of: &TypeSpec) -> Result<(), Full>
    ensures ok { OnOk result (out.new ≡ array_octets packed count (type_octets of.now) out.old) }
    ensures begins { Begins out.old out.new }
{
    put_defaulted_boolean(out, 0, packed, false)?;
    put_integer(out, 1, i64::from(count))?;
    put_inner(out, 2, of)
}

#[cycle(put_types)]
#[tactic(auto, using(ber_forms::proofs::Joined::writing, crate::proofs::TypeLaws::array_after))]
fn put_array_part(out: &mut Writer, packed: bool, count: u32, of: &TypeSpec) -> Result<(), Full>
    ensures ok { OnOk result
        (out.new ≡ out.old ++ element_octets
        (tag_of 2 1 form.elements) (array_octets packed count (type_octets of.now) [])) }
    ensures err { OnErr result (out.new ≡ out.old) }
{
    let since = out.len();
    let written = put_array(out, packed, count, of);
    enclose(out, since, written, Tag::constructed(1))
}

#[cycle(put_types)]
#[tactic(auto, using(ber_forms::proofs::Joined::writing))]
fn put_structure(out: &mut Writer, packed: bool, components: &[Component]) -> Result<(), Full>
    ensures ok { OnOk result
        (out.new ≡ structure_octets packed (field_octets (fields components.now)) out.old) }
    ensures begins { Begins out.old out.new }
{
    put_defaulted_boolean(out, 0, packed, false)?;
    put_components_part(out, components)
}

#[cycle(put_types)]
#[tactic(auto, using(ber_forms::proofs::Joined::writing, crate::proofs::TypeLaws::structure_after))]
fn put_structure_part(out: &mut Writer, packed: bool, components: &[Component]) -> Result<(), Full>
    ensures ok { OnOk result
        (out.new ≡ out.old ++ element_octets
        (tag_of 2 2 form.elements)
        (structure_octets packed (field_octets (fields components.now)) [])) }
    ensures err { OnErr result (out.new ≡ out.old) }
{
    let since = out.len();
    let written = put_structure(out, packed, components);
    enclose(out, since, written, Tag::constructed(2))
}

#[cycle(put_types)]
#[tactic(auto, using(ber_forms::proofs::Joined::writing))]
fn put_components_part(out: &mut Writer, components: &[Component]) -> Result<(), Full>
    ensures ok { OnOk result
        (out.new ≡ out.old ++ element_octets
        (tag_of 2 1 form.elements) (field_octets (fields components.now))) }
    ensures err { OnErr result (out.new ≡ out.old) }
{
    let since = out.len();
    let written = put_components(out, components);
    enclose(out, since, written, Tag::constructed(1))
}

#[cycle(put_types)]
#[tactic(auto, using(ber_forms::proofs::Joined::begins_more, ber_forms::proofs::Joined::begins_itself))]
fn put_components(out: &mut Writer, components: &[Component]) -> Result<(), Full>
    ensures ok { OnOk result (out.new ≡ out.old ++ field_octets (fields components.now)) }
    ensures begins { Begins out.old out.new }
{
    for component in components {
        put_component_part(out, component)?;
    }
    Ok(())
}

#[cycle(put_types)]
#[tactic(auto, using(ber_forms::proofs::Joined::writing))]
fn put_component(out: &mut Writer, component: &Component) -> Result<(), Full>
    ensures ok { OnOk result
        (out.new ≡ named_octets component.now.name (type_octets component.now.spec) out.old) }
    ensures begins { Begins out.old out.new }
{
    put_optional::<Identifier>(out, 0, component.name.as_ref())?;
    put_inner(out, 1, &component.spec)
}

#[cycle(put_types)]
#[tactic(auto, using(ber_forms::proofs::Joined::writing, crate::proofs::TypeLaws::named_after))]
fn put_component_part(out: &mut Writer, component: &Component) -> Result<(), Full>
    ensures ok { OnOk result
        (out.new ≡ out.old ++ element_octets
        (tag_of 0 16 form.elements)
        (named_octets component.now.name (type_octets component.now.spec) [])) }
    ensures err { OnErr result (out.new ≡ out.old) }
{
    let since = out.len();
    let written = put_component(out, component);
    enclose(
        out,
        since,
        written,
        Tag {
            class: 0,
            constructed: true,
            number: 16,
        },
    )
}

/// Appends the type as the element chosen.
pub(crate) fn put_type(out: &mut Writer, of: &TypeSpec) -> Result<(), Full>
    ensures ok { OnOk result
        (out.new ≡ out.old ++ alternative_octets
        (type_alternatives widest 10) (type_value of.now)) }
    ensures err { OnErr result (out.new ≡ out.old) }
{
    put_one(out, of)
}
