//! GetNameList: its request and its answer.
#![tactic(auto, unfolding(ber_forms::specs::Spelling::appended), using(ber_forms::proofs::Joined::writing))]

ghost use Rattle.std.specs.Prelude.{refl, true, false};
ghost use Rattle.pdu_assoc.specs.NameList.{classes, scopes, name_list, name_list_answer};

use ber_core::{Element, Memory as Full, Tag, Writer};
use ber_forms::{Unread, has_tag, null, put_boolean, put_integer, put_null, unsigned8_in};
use mms_types::{
    Edition, GetNameList, GetNameListAnswer, Identifier, Identifiers, ObjectClass, ObjectScope,
};
use pdu_names::{Chosen, Formed, OneOf, cursor, optional, put_optional, required};
use std::alloc::Global;

/// The form of a class of objects (ISO 9506-2, GetNameList, objectClass).
pub struct Classes;

impl Chosen for Classes {
    type Item = ObjectClass;

    ghost arms = { classes };

    ghost needs_no_memory = { true };

    fn of(_alloc: Global, element: Element<'_>, _edition: Edition) -> Result<ObjectClass, Unread> {
        if has_tag(element.tag, Tag::primitive(0)) {
            let number = unsigned8_in(element.contents, 0, 11)?;
            Ok(ObjectClass::numbered(number))
        } else {
            Err(Unread::Malformed)
        }
    }

    fn put_chosen(out: &mut Writer, x: &ObjectClass) -> Result<(), Full> {
        put_integer(out, 0, i64::from(x.number()))
    }

    ghost sound = { λ _. refl };
}

/// The form of a scope (ISO 9506-2, GetNameList, objectScope). The domain's name is copied.
pub struct Scopes;

impl Chosen for Scopes {
    type Item = ObjectScope;

    ghost arms = { scopes };

    ghost needs_no_memory = { false };

    fn of(alloc: Global, element: Element<'_>, edition: Edition) -> Result<ObjectScope, Unread> {
        let Element { tag, contents } = element;
        if has_tag(tag, Tag::primitive(0)) {
            null(contents)?;
            Ok(ObjectScope::Vmd)
        } else if has_tag(tag, Tag::primitive(1)) {
            Ok(ObjectScope::Domain(<Identifier as Formed>::read(alloc, contents, edition)?))
        } else if has_tag(tag, Tag::primitive(2)) {
            null(contents)?;
            Ok(ObjectScope::Association)
        } else {
            Err(Unread::Malformed)
        }
    }

    fn put_chosen(out: &mut Writer, x: &ObjectScope) -> Result<(), Full> {
        match x {
            ObjectScope::Vmd => put_null(out, 0),
            ObjectScope::Domain(domain) => Identifier::put_part(out, 1, domain),
            ObjectScope::Association => put_null(out, 2),
        }
    }

    ghost sound = { λ _. refl };
}

/// The form of a GetNameList request. Its names are copied.
pub struct GetNameListRequest;

impl Formed for GetNameListRequest {
    type Item = GetNameList;

    ghost kind = { name_list };

    ghost needs_no_memory = { false };

    fn is_constructed() -> bool {
        true
    }

    fn read(alloc: Global, contents: &[u8], edition: Edition) -> Result<GetNameList, Unread> {
        let mut parts = cursor(edition, contents);
        let class = required::<OneOf<Classes>>(alloc, &mut parts, edition, 0)?;
        let scope = required::<OneOf<Scopes>>(alloc, &mut parts, edition, 1)?;
        let after = optional::<Identifier>(alloc, &mut parts, edition, 2)?;
        parts.end()?;
        Ok(GetNameList {
            class,
            scope,
            after,
        })
    }

    fn put(out: &mut Writer, x: &GetNameList) -> Result<(), Full> {
        OneOf::<Classes>::put_part(out, 0, &x.class)?;
        OneOf::<Scopes>::put_part(out, 1, &x.scope)?;
        put_optional::<Identifier>(out, 2, x.after.as_ref())
    }

    ghost sound = { λ _. refl };
}

/// The form of a GetNameList answer. Its names are copied, in their order.
pub struct GetNameListResponse;

impl Formed for GetNameListResponse {
    type Item = GetNameListAnswer;

    ghost kind = { name_list_answer };

    ghost needs_no_memory = { false };

    fn is_constructed() -> bool {
        true
    }

    fn read(alloc: Global, contents: &[u8], edition: Edition) -> Result<GetNameListAnswer, Unread> {
        let mut parts = cursor(edition, contents);
        let names = required::<Identifiers>(alloc, &mut parts, edition, 0)?;
        let more = parts.required_boolean(1)?;
        parts.end()?;
        Ok(GetNameListAnswer { names, more })
    }

    fn put(out: &mut Writer, x: &GetNameListAnswer) -> Result<(), Full> {
        Identifiers::put_part(out, 0, &x.names)?;
        put_boolean(out, 1, x.more)
    }

    ghost sound = { λ _. refl };
}
