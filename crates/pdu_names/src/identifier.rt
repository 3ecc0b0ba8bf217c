//! Identifiers, and lists of them.

ghost use Rattle.std.specs.Prelude.{◌≡◌, ◌<◌, refl, false, Ok, Err, OnErr};
ghost use Rattle.pdu_names.specs.Kinds.{settled, context};
ghost use Rattle.pdu_names.specs.Names.{identifier, own_identifier, identifiers};
ghost use Rattle.pdu_names.specs.Gives.{GivesContents, Puts};

use crate::formed::Formed;
use crate::own::{Own, put_each, read_each};
use ber_core::{Memory as Full, Tag, Writer};
use ber_forms::{Cursor, Unread};
use mms_types::{Edition, Identifier, Identifiers, Unnamed};
use std::alloc::Global;

/// The identifier that the contents say, copied.
fn named(alloc: Global, contents: &[u8], edition: Edition) -> Result<Identifier, Unread>
    ensures { GivesContents identifier edition contents.now result }
{
    match Identifier::read(alloc, contents, edition) {
        Ok(name) => Ok(name),
        Err(Unnamed::Bad(_)) => Err(Unread::Malformed),
        Err(Unnamed::Memory) => Err(Unread::Memory),
    }
}

/// A VisibleString that is an identifier of the edition (ISO 9506-2, Identifier).
impl Formed for Identifier {
    type Item = Identifier;

    ghost kind = { identifier };

    ghost needs_no_memory = { false };

    fn is_constructed() -> bool {
        false
    }

    fn read(alloc: Global, contents: &[u8], edition: Edition) -> Result<Identifier, Unread> {
        named(alloc, contents, edition)
    }

    #[tactic(auto, unfolding(ber_forms::specs::Spelling::appended), using(ber_forms::proofs::Joined::writing))]
    fn put(out: &mut Writer, x: &Identifier) -> Result<(), Full> {
        out.raw(x.octets())
    }

    fn put_part(out: &mut Writer, number: u32, x: &Identifier) -> Result<(), Full> {
        out.element(Tag::primitive(number), x.octets())
    }

    ghost sound = { λ _. refl };
}

/// An identifier under the universal tag of VisibleString (ITU-T X.680, 8.4).
impl Own for Identifier {
    type Item = Identifier;

    ghost tags = { settled };

    ghost item = { own_identifier };

    ghost needs_no_memory = { false };

    #[tactic(auto, unfolding(ber_forms::specs::Reading::required_by))]
    fn take(alloc: Global, parts: &mut Cursor<'_>, edition: Edition) -> Result<Identifier, Unread> {
        let element = parts.required(Tag::universal(26))?;
        named(alloc, element.contents, edition)
    }

    fn put_own(out: &mut Writer, x: &Identifier) -> Result<(), Full> {
        out.element(Tag::universal(26), x.octets())
    }

    ghost sound = { λ _. refl };
}

/// Identifiers one after the other.
impl Formed for Identifiers {
    type Item = Identifiers;

    ghost kind = { identifiers };

    ghost needs_no_memory = { false };

    fn is_constructed() -> bool {
        true
    }

    fn read(alloc: Global, contents: &[u8], edition: Edition) -> Result<Identifiers, Unread> {
        let found = read_each::<Identifier>(alloc, contents, edition)?;
        Ok(Identifiers::from(found))
    }

    #[tactic(auto, unfolding(ber_forms::specs::Spelling::appended))]
    fn put(out: &mut Writer, x: &Identifiers) -> Result<(), Full> {
        put_each::<Identifier>(out, x.as_slice())
    }

    ghost sound = { λ _. refl };
}
