//! Which variables are meant.
#![tactic(auto, unfolding(ber_forms::specs::Spelling::appended), using(ber_forms::proofs::Joined::writing))]

ghost use Rattle.std.specs.Prelude.{refl, true, false};
ghost use Rattle.pdu_vars.specs.Variables.{addresses, specifications, specifications_sound, listed_variable, accesses, accesses_sound};

use ber_core::{Element, Memory as Full, Tag, Writer};
use ber_forms::{Unread, has_tag, put_integer, unsigned32};
use mms_types::{Access, Edition, Spec};
use pdu_names::{Chosen, Formed, InSequence, ListOf, Name, OneOf, Own, Within, cursor};
use std::alloc::Global;

/// The alternatives of an address (ISO 9506-2, Address): the number of a cell.
pub struct Addresses;

impl Chosen for Addresses {
    type Item = u32;

    ghost arms = { addresses };

    ghost needs_no_memory = { true };

    fn of(_alloc: Global, element: Element<'_>, _edition: Edition) -> Result<u32, Unread> {
        if has_tag(element.tag, Tag::primitive(0)) {
            unsigned32(element.contents)
        } else {
            Err(Unread::Malformed)
        }
    }

    fn put_chosen(out: &mut Writer, x: &u32) -> Result<(), Full> {
        put_integer(out, 0, i64::from(*x))
    }

    ghost sound = { λ _. refl };
}

/// The alternatives of a variable (ISO 9506-2, VariableSpecification). Its name is copied.
pub struct Specification;

#[tactic(auto, unfolding(crate::specs::Variables::specifications))]
impl Chosen for Specification {
    type Item = Spec;

    ghost arms = { specifications };

    ghost needs_no_memory = { false };

    fn of(alloc: Global, element: Element<'_>, edition: Edition) -> Result<Spec, Unread> {
        let Element { tag, contents } = element;
        if has_tag(tag, Tag::constructed(0)) {
            Ok(Spec::Name(Name::read(alloc, contents, edition)?))
        } else if has_tag(tag, Tag::constructed(1)) {
            Ok(Spec::Address(OneOf::<Addresses>::read(alloc, contents, edition)?))
        } else {
            Err(Unread::Malformed)
        }
    }

    fn put_chosen(out: &mut Writer, x: &Spec) -> Result<(), Full> {
        match x {
            Spec::Name(name) => Name::put_part(out, 0, name),
            Spec::Address(number) => OneOf::<Addresses>::put_part(out, 1, number),
        }
    }

    ghost sound = { specifications_sound };
}

/// The form of a member of a list of variables. Its name is copied.
pub struct ListedVariable;

impl Formed for ListedVariable {
    type Item = Spec;

    ghost kind = { listed_variable };

    ghost needs_no_memory = { false };

    fn is_constructed() -> bool {
        true
    }

    fn read(alloc: Global, contents: &[u8], edition: Edition) -> Result<Spec, Unread> {
        let mut parts = cursor(edition, contents);
        let spec = OneOf::<Specification>::take(alloc, &mut parts, edition)?;
        parts.end()?;
        Ok(spec)
    }

    fn put(out: &mut Writer, x: &Spec) -> Result<(), Full> {
        OneOf::<Specification>::put_own(out, x)
    }

    ghost sound = { λ e. rw (specifications_sound e) refl };
}

/// The form of a list of variables, from the first number of members to the second. Their names are copied.
pub type Variables<const LEAST: usize, const MOST: usize> = ListOf<
    InSequence<ListedVariable>,
    Within<LEAST, MOST>,
>;

/// Those that one request may name: 1 to 1,024.
type AccessedVariables = Variables<1, 1024>;

/// The alternatives of what is read or written (ISO 9506-2, VariableAccessSpecification): 1 to 1,024 variables, or a
/// variable list by its name. Names are copied.
pub struct AccessSpecification;

#[tactic(auto, unfolding(crate::specs::Variables::accesses))]
impl Chosen for AccessSpecification {
    type Item = Access;

    ghost arms = { accesses };

    ghost needs_no_memory = { false };

    fn of(alloc: Global, element: Element<'_>, edition: Edition) -> Result<Access, Unread> {
        let Element { tag, contents } = element;
        if has_tag(tag, Tag::constructed(0)) {
            Ok(Access::Specs(AccessedVariables::read(alloc, contents, edition)?))
        } else if has_tag(tag, Tag::constructed(1)) {
            Ok(Access::List(Name::read(alloc, contents, edition)?))
        } else {
            Err(Unread::Malformed)
        }
    }

    fn put_chosen(out: &mut Writer, x: &Access) -> Result<(), Full> {
        match x {
            Access::Specs(specs) => AccessedVariables::put_part(out, 0, specs),
            Access::List(name) => Name::put_part(out, 1, name),
        }
    }

    ghost sound = { accesses_sound };
}
