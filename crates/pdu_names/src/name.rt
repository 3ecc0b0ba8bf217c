//! Names of objects.

ghost use Rattle.std.specs.Prelude.{◌≡◌, ◌++◌, false, Ok, Err, OnOk, OnErr};
ghost use Rattle.ber_forms.specs.Spelling.{Begins};
ghost use Rattle.pdu_names.specs.Kinds.{context};
ghost use Rattle.pdu_names.specs.Names.{in_domain, names, names_sound};
ghost use Rattle.pdu_names.specs.Gives.{GivesContents, PutsContents, Puts};

use crate::edition::cursor;
use crate::formed::Formed;
use crate::own::{Chosen, OneOf, Own};
use ber_core::{Element, Memory as Full, Tag, Writer};
use ber_forms::{Unread, enclose, has_tag};
use mms_types::{Edition, Identifier, ObjectName};
use std::alloc::Global;

/// The form of a name of an object (ISO 9506-2, ObjectName).
pub type Name = OneOf<ObjectName>;

/// A domain, and an item in it.
fn within(
    alloc: Global,
    contents: &[u8],
    edition: Edition,
) -> Result<(Identifier, Identifier), Unread>
    ensures { GivesContents in_domain edition contents.now result }
{
    let mut parts = cursor(edition, contents);
    let domain = Identifier::take(alloc, &mut parts, edition)?;
    let item = Identifier::take(alloc, &mut parts, edition)?;
    parts.end()?;
    Ok((domain, item))
}

#[tactic(auto, unfolding(ber_forms::specs::Spelling::appended), using(ber_forms::proofs::Joined::writing))]
fn put_within(out: &mut Writer, domain: &Identifier, item: &Identifier) -> Result<(), Full>
    ensures ok { PutsContents in_domain (domain.now, item.now) out.old out.new result }
    ensures begins { Begins out.old out.new }
{
    Identifier::put_own(out, domain)?;
    Identifier::put_own(out, item)
}

#[tactic(auto, using(ber_forms::proofs::Joined::writing))]
fn put_domain(out: &mut Writer, domain: &Identifier, item: &Identifier) -> Result<(), Full>
    ensures ok { Puts (context 1 in_domain) (domain.now, item.now) out.old out.new result }
    ensures err { OnErr result (out.new ≡ out.old) }
{
    let since = out.len();
    let written = put_within(out, domain, item);
    enclose(out, since, written, Tag::constructed(1))
}

#[tactic(auto, unfolding(crate::specs::Names::names))]
impl Chosen for ObjectName {
    type Item = ObjectName;

    ghost arms = { names };

    ghost needs_no_memory = { false };

    fn of(alloc: Global, element: Element<'_>, edition: Edition) -> Result<ObjectName, Unread> {
        let Element { tag, contents } = element;
        if has_tag(tag, Tag::primitive(0)) {
            Ok(ObjectName::Vmd(<Identifier as Formed>::read(alloc, contents, edition)?))
        } else if has_tag(tag, Tag::constructed(1)) {
            let (domain, item) = within(alloc, contents, edition)?;
            Ok(ObjectName::Domain { domain, item })
        } else if has_tag(tag, Tag::primitive(2)) {
            Ok(ObjectName::Association(<Identifier as Formed>::read(alloc, contents, edition)?))
        } else {
            Err(Unread::Malformed)
        }
    }

    fn put_chosen(out: &mut Writer, x: &ObjectName) -> Result<(), Full> {
        match x {
            ObjectName::Vmd(item) => Identifier::put_part(out, 0, item),
            ObjectName::Domain { domain, item } => put_domain(out, domain, item),
            ObjectName::Association(item) => Identifier::put_part(out, 2, item),
        }
    }

    ghost sound = { names_sound };
}
