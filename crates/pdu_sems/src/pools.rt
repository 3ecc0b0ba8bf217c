//! The tokens of a pool.
#![tactic(auto, unfolding(ber_forms::specs::Spelling::appended), using(ber_forms::proofs::Joined::writing))]

ghost use Rattle.std.specs.Prelude.{refl, true, false};
ghost use Rattle.pdu_names.specs.Names.{names_sound};
ghost use Rattle.pdu_sems.specs.Pools.{report_pool, named_tokens, pool_status};

use ber_core::{Element, Memory as Full, Tag, Writer};
use ber_forms::{Unread, has_tag, put_boolean};
use mms_types::{Edition, Identifier, NamedToken, PoolStatus, ReportPoolSemaphoreStatus};
use pdu_names::{
    AnyNumber, Chosen, Formed, ListOf, Name, OneOf, cursor, optional, put_optional, required,
};
use std::alloc::Global;

/// The form of a ReportPoolSemaphoreStatus request. Names are copied.
pub struct ReportPoolSemaphoreStatusRequest;

impl Formed for ReportPoolSemaphoreStatusRequest {
    type Item = ReportPoolSemaphoreStatus;

    ghost kind = { report_pool };

    ghost needs_no_memory = { false };

    fn is_constructed() -> bool {
        true
    }

    fn read(
        alloc: Global,
        contents: &[u8],
        edition: Edition,
    ) -> Result<ReportPoolSemaphoreStatus, Unread> {
        let mut parts = cursor(edition, contents);
        let name = required::<Name>(alloc, &mut parts, edition, 0)?;
        let after = optional::<Identifier>(alloc, &mut parts, edition, 1)?;
        parts.end()?;
        Ok(ReportPoolSemaphoreStatus { name, after })
    }

    fn put(out: &mut Writer, x: &ReportPoolSemaphoreStatus) -> Result<(), Full> {
        Name::put_part(out, 0, &x.name)?;
        put_optional::<Identifier>(out, 1, x.after.as_ref())
    }

    ghost sound = { λ e. rw (names_sound e) refl };
}

/// The alternatives of a token of a pool, by its name, which is copied.
pub struct NamedTokenAlternatives;

impl Chosen for NamedTokenAlternatives {
    type Item = NamedToken;

    ghost arms = { named_tokens };

    ghost needs_no_memory = { false };

    fn of(alloc: Global, element: Element<'_>, edition: Edition) -> Result<NamedToken, Unread> {
        let Element { tag, contents } = element;
        if has_tag(tag, Tag::primitive(0)) {
            Ok(NamedToken::Free(<Identifier as Formed>::read(alloc, contents, edition)?))
        } else if has_tag(tag, Tag::primitive(1)) {
            Ok(NamedToken::Owned(<Identifier as Formed>::read(alloc, contents, edition)?))
        } else if has_tag(tag, Tag::primitive(2)) {
            Ok(NamedToken::Hung(<Identifier as Formed>::read(alloc, contents, edition)?))
        } else {
            Err(Unread::Malformed)
        }
    }

    fn put_chosen(out: &mut Writer, x: &NamedToken) -> Result<(), Full> {
        match x {
            NamedToken::Free(name) => Identifier::put_part(out, 0, name),
            NamedToken::Owned(name) => Identifier::put_part(out, 1, name),
            NamedToken::Hung(name) => Identifier::put_part(out, 2, name),
        }
    }

    ghost sound = { λ _. refl };
}

/// The tokens of a pool, in an answer.
type Tokens = ListOf<OneOf<NamedTokenAlternatives>, AnyNumber>;

/// The form of a ReportPoolSemaphoreStatus answer. Names are copied, in their order.
pub struct ReportPoolSemaphoreStatusResponse;

impl Formed for ReportPoolSemaphoreStatusResponse {
    type Item = PoolStatus;

    ghost kind = { pool_status };

    ghost needs_no_memory = { false };

    fn is_constructed() -> bool {
        true
    }

    fn read(alloc: Global, contents: &[u8], edition: Edition) -> Result<PoolStatus, Unread> {
        let mut parts = cursor(edition, contents);
        let tokens = required::<Tokens>(alloc, &mut parts, edition, 0)?;
        let more = parts.required_boolean(1)?;
        parts.end()?;
        Ok(PoolStatus { tokens, more })
    }

    fn put(out: &mut Writer, x: &PoolStatus) -> Result<(), Full> {
        Tokens::put_part(out, 0, &x.tokens)?;
        put_boolean(out, 1, x.more)
    }

    ghost sound = { λ _. refl };
}
