//! Named variables: their definition, their attributes and their deletion.
#![tactic(auto, unfolding(ber_forms::specs::Spelling::appended), using(ber_forms::proofs::Joined::writing))]

ghost use Rattle.std.specs.Prelude.{◌≡◌, refl, true, false, Ok, Err};
ghost use Rattle.pdu_data.specs.Types.{type_sound};
ghost use Rattle.ber_forms.specs.Reads.{NeedsNoMemory};
ghost use Rattle.ber_forms.specs.Spelling.{Begins};
ghost use Rattle.ber_forms.specs.Steps.{DefaultedGives};
ghost use Rattle.mms_types.specs.declared.variable.DeleteScope.TheVariants.{Specific};
ghost use Rattle.pdu_names.specs.Names.{names_sound};
ghost use Rattle.pdu_names.specs.Gives.{GivesContents, PutsContents};
ghost use Rattle.pdu_names.specs.Kinds.{context};
ghost use Rattle.pdu_vars.specs.Named.{define_variable, variable_attributes, delete_scope, delete_parts, delete_names, deleted_names, has_what_it_needs};

use crate::variables::{Addresses, Specification};
use ber_core::{Memory as Full, Tag, Writer};
use ber_forms::{Cursor, Unread, put_boolean, put_defaulted_integer, put_integer, unsigned8_in};
use mms_types::{
    DefineNamedVariable, DeleteNames, DeleteScope, Deleted, Edition, Identifier, VariableAttributes,
};
use pdu_data::TypeSpecification;
use pdu_names::{AnyNumber, Formed, ListOf, Name, OneOf, cursor, optional, put_optional, required};
use std::alloc::Global;

/// The form of a GetVariableAccessAttributes request. Its name is copied.
pub type GetVariableAccessAttributesRequest = OneOf<Specification>;

/// The form of a GetVariableAccessAttributes answer. The type is copied. It is too deep exactly where all before the
/// type is of its form, and the type nests deeper than 10.
pub struct GetVariableAccessAttributesResponse;

impl Formed for GetVariableAccessAttributesResponse {
    type Item = VariableAttributes;

    ghost kind = { variable_attributes };

    ghost needs_no_memory = { false };

    fn is_constructed() -> bool {
        true
    }

    fn read(
        alloc: Global,
        contents: &[u8],
        edition: Edition,
    ) -> Result<VariableAttributes, Unread> {
        let mut parts = cursor(edition, contents);
        let deletable = parts.required_boolean(0)?;
        let address = optional::<OneOf<Addresses>>(alloc, &mut parts, edition, 1)?;
        let of = required::<TypeSpecification>(alloc, &mut parts, edition, 2)?;
        parts.end()?;
        Ok(VariableAttributes {
            deletable,
            address,
            of,
        })
    }

    fn put(out: &mut Writer, x: &VariableAttributes) -> Result<(), Full> {
        put_boolean(out, 0, x.deletable)?;
        put_optional::<OneOf<Addresses>>(out, 1, x.address.as_ref())?;
        TypeSpecification::put_part(out, 2, &x.of)
    }

    ghost sound = { λ e. rw (type_sound e) refl };
}

/// The form of a DefineNamedVariable request. Names and the type are copied. It is too deep exactly where all before
/// the type is of its form, and the type nests deeper than 10.
pub struct DefineNamedVariableRequest;

impl Formed for DefineNamedVariableRequest {
    type Item = DefineNamedVariable;

    ghost kind = { define_variable };

    ghost needs_no_memory = { false };

    fn is_constructed() -> bool {
        true
    }

    fn read(
        alloc: Global,
        contents: &[u8],
        edition: Edition,
    ) -> Result<DefineNamedVariable, Unread> {
        let mut parts = cursor(edition, contents);
        let name = required::<Name>(alloc, &mut parts, edition, 0)?;
        let address = required::<OneOf<Addresses>>(alloc, &mut parts, edition, 1)?;
        let of = optional::<TypeSpecification>(alloc, &mut parts, edition, 2)?;
        parts.end()?;
        Ok(DefineNamedVariable { name, address, of })
    }

    fn put(out: &mut Writer, x: &DefineNamedVariable) -> Result<(), Full> {
        Name::put_part(out, 0, &x.name)?;
        OneOf::<Addresses>::put_part(out, 1, &x.address)?;
        put_optional::<TypeSpecification>(out, 2, x.of.as_ref())
    }

    ghost sound = { λ e. rw (names_sound e, type_sound e) refl };
}

/// The next element, a scope, or the scope specific where it is missing.
#[tactic(auto, unfolding(ber_forms::specs::Reading::optional_by, ber_forms::specs::Reading::defaulting))]
fn scope(parts: &mut Cursor<'_>, edition: Edition) -> Result<DeleteScope, Unread>
    ensures exact { DefaultedGives delete_scope.value ((context 0 delete_scope).member edition)
        (delete_scope.value Specific) parts.old parts.new result }
    ensures kept { parts.new.lengths ≡ parts.old.lengths }
    ensures no_memory { NeedsNoMemory result }
{
    match parts.optional(Tag::primitive(0))? {
        None => Ok(DeleteScope::Specific),
        Some(element) => {
            let number = unsigned8_in(element.contents, 0, 3)?;
            Ok(DeleteScope::numbered(number))
        }
    }
}

/// Names of variables, or of variable lists.
type Names = ListOf<Name, AnyNumber>;

/// The components of a deletion, whatever they are together.
fn delete_parts(alloc: Global, contents: &[u8], edition: Edition) -> Result<DeleteNames, Unread>
    ensures { GivesContents delete_parts edition contents.now result }
{
    let mut parts = cursor(edition, contents);
    let scope = scope(&mut parts, edition)?;
    let names = optional::<Names>(alloc, &mut parts, edition, 1)?;
    let domain = optional::<Identifier>(alloc, &mut parts, edition, 2)?;
    parts.end()?;
    Ok(DeleteNames {
        scope,
        names,
        domain,
    })
}

fn put_delete_parts(out: &mut Writer, x: &DeleteNames) -> Result<(), Full>
    ensures ok { PutsContents delete_parts x.now out.old out.new result }
    ensures begins { Begins out.old out.new }
{
    put_defaulted_integer(out, 0, i64::from(x.scope.number()), 0)?;
    put_optional::<Names>(out, 1, x.names.as_ref())?;
    put_optional::<Identifier>(out, 2, x.domain.as_ref())
}

/// Whether the scope has what it needs: the names, or the domain.
fn has_what_it_needs(x: &DeleteNames) -> bool
    ensures { result ≡ has_what_it_needs (delete_parts.value x.now) }
{
    match x.scope {
        DeleteScope::Specific => x.names.is_some(),
        DeleteScope::Domain => x.domain.is_some(),
        DeleteScope::Association | DeleteScope::Vmd => true,
    }
}

/// The form of a DeleteVariableAccess request. Names are copied. It is malformed where the scope is specific without
/// names, or a domain's without the domain.
pub struct DeleteVariableAccessRequest;

impl Formed for DeleteVariableAccessRequest {
    type Item = DeleteNames;

    ghost kind = { delete_names };

    ghost needs_no_memory = { false };

    fn is_constructed() -> bool {
        true
    }

    fn read(alloc: Global, contents: &[u8], edition: Edition) -> Result<DeleteNames, Unread> {
        let found = delete_parts(alloc, contents, edition)?;
        if has_what_it_needs(&found) {
            Ok(found)
        } else {
            Err(Unread::Malformed)
        }
    }

    fn put(out: &mut Writer, x: &DeleteNames) -> Result<(), Full> {
        put_delete_parts(out, x)
    }

    ghost sound = { λ e. rw (names_sound e) refl };
}

/// The form of a DeleteVariableAccess answer.
pub struct DeleteVariableAccessResponse;

impl Formed for DeleteVariableAccessResponse {
    type Item = Deleted;

    ghost kind = { deleted_names };

    ghost needs_no_memory = { true };

    fn is_constructed() -> bool {
        true
    }

    fn read(_alloc: Global, contents: &[u8], edition: Edition) -> Result<Deleted, Unread> {
        let mut parts = cursor(edition, contents);
        let matched = parts.required_u32(0)?;
        let deleted = parts.required_u32(1)?;
        parts.end()?;
        Ok(Deleted { matched, deleted })
    }

    fn put(out: &mut Writer, x: &Deleted) -> Result<(), Full> {
        put_integer(out, 0, i64::from(x.matched))?;
        put_integer(out, 1, i64::from(x.deleted))
    }

    ghost sound = { λ _. refl };
}
