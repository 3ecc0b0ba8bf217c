//! Components, each of a form and under a context tag.

ghost use Rattle.std.specs.Prelude.{◌≡◌, ◌<◌, ◌++◌, Ok, Err, Some, None, OnErr, IsTrue};
ghost use Rattle.std.specs.Option.{option_copied};
ghost use Rattle.ber_forms.specs.Reads.{NeedsNoMemory};
ghost use Rattle.pdu_names.specs.Editions.{lengths_of};
ghost use Rattle.pdu_names.specs.Kinds.{context};
ghost use Rattle.pdu_names.specs.Gives.{GivesNext, GivesNextIfThere, PutsIfThere};

use crate::formed::Formed;
use ber_core::{Memory as Full, Tag, Writer};
use ber_forms::{Cursor, Unread};
use mms_types::Edition;
use std::alloc::Global;

/// The next element, under the context tag `number`. Malformed where there is none, it has another tag or isn't of the
/// form.
#[tactic(auto, unfolding(ber_forms::specs::Reading::required_by))]
pub fn required<F: Formed>(
    alloc: Global,
    parts: &mut Cursor<'_>,
    edition: Edition,
    number: u32,
) -> Result<F::Item, Unread>
    requires { parts.old.lengths ≡ lengths_of edition }
    ensures exact { GivesNext (context number F.kind) edition parts.old parts.new result }
    ensures kept { parts.new.lengths ≡ parts.old.lengths }
    ensures no_memory { IsTrue F.needs_no_memory → NeedsNoMemory result }
{
    let element = parts.required(Tag {
        class: 2,
        constructed: F::is_constructed(),
        number,
    })?;
    F::read(alloc, element.contents, edition)
}

/// The next element, if it is under the context tag `number`. Malformed where it is and isn't of the form.
#[tactic(auto, unfolding(ber_forms::specs::Reading::optional_by))]
pub fn optional<F: Formed>(
    alloc: Global,
    parts: &mut Cursor<'_>,
    edition: Edition,
    number: u32,
) -> Result<Option<F::Item>, Unread>
    requires { parts.old.lengths ≡ lengths_of edition }
    ensures exact { GivesNextIfThere (context number F.kind) edition parts.old parts.new result }
    ensures kept { parts.new.lengths ≡ parts.old.lengths }
    ensures no_memory { IsTrue F.needs_no_memory → NeedsNoMemory result }
{
    match parts.optional(Tag {
        class: 2,
        constructed: F::is_constructed(),
        number,
    })? {
        None => Ok(None),
        Some(element) => Ok(Some(F::read(alloc, element.contents, edition)?)),
    }
}

/// Appends an element under the context tag `number`, if there is one, or nothing where memory runs out.
pub fn put_optional<F: Formed>(
    out: &mut Writer,
    number: u32,
    x: Option<&F::Item>,
) -> Result<(), Full>
    requires { number < 16384 }
    ensures ok { PutsIfThere (context number F.kind)
        (option_copied x.entry) out.old out.new result }
    ensures err { OnErr result (out.new ≡ out.old) }
{
    match x {
        None => Ok(()),
        Some(x) => F::put_part(out, number, x),
    }
}
