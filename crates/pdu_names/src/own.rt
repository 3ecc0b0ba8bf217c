//! What stands under a tag of its own: members of lists, and untagged choices.

ghost use Rattle.std.specs.Prelude.{◌≡◌, ◌<◌, ◌++◌, Bool, map, length, Ok, Err, OnOk, OnErr, IsTrue};
ghost use Rattle.ber_core.specs.Part.{part};
ghost use Rattle.ber_forms.specs.ByNumber.{read_as};
ghost use Rattle.ber_forms.specs.Value.{all_of, chosen};
ghost use Rattle.ber_forms.specs.Fits.{sound_member, sound_alternatives};
ghost use Rattle.ber_forms.specs.Reading.{Gives, alternatives, required_at, members_by};
ghost use Rattle.ber_forms.specs.Reads.{NeedsNoMemory};
ghost use Rattle.ber_forms.specs.Spelling.{member_octets, each_octets, alternative_octets, Begins};
ghost use Rattle.std.specs.Prelude.{Some};
ghost use Rattle.mms_types.specs.declared.identifier.Edition.{Edition};
ghost use Rattle.mms_types.specs.Spelling.{widest};
ghost use Rattle.pdu_names.specs.Editions.{lengths_of};
ghost use Rattle.pdu_names.specs.Kinds.{Tags, growing, Item, Choice, choice, one_of};
ghost use Rattle.pdu_names.specs.Gives.{GivesNext, Puts};

use crate::edition::cursor;
use crate::formed::Formed;
use ber_core::{Element, Memory as Full, Tag, Writer};
use ber_forms::{Cursor, Unread, has_tag};
use mms_types::Edition;
use std::alloc::Global;
use std::marker::PhantomData;

/// What stands under a tag of its own, as a member of a list does.
pub trait Own {
    /// What such an element says.
    type Item: Drop;

    /// Whether it begins with the same tags in each edition.
    ghost tags: { Tags };

    /// The element's form in each edition, and what an item says in it.
    ghost item: { Item tags Self.Item };

    /// Reading needs no memory.
    ghost needs_no_memory: { Bool };

    /// The next element. Malformed or TooDeep exactly where the form's reading is, and Memory where memory runs out.
    fn take(alloc: Global, parts: &mut Cursor<'_>, edition: Edition) -> Result<Self::Item, Unread>
        requires { parts.old.lengths ≡ lengths_of edition }
        ensures exact { GivesNext item edition parts.old parts.new result }
        ensures kept { parts.new.lengths ≡ parts.old.lengths }
        ensures shorter { OnOk result (length parts.new.octets < length parts.old.octets) }
        ensures no_memory { IsTrue needs_no_memory → NeedsNoMemory result };

    /// Appends the element, or nothing where memory runs out.
    fn put_own(out: &mut Writer, x: &Self::Item) -> Result<(), Full>
        ensures ok { Puts item x.now out.old out.new result }
        ensures err { OnErr result (out.new ≡ out.old) };

    ghost sound: { (edition : Edition) → IsTrue (sound_member (item.member edition)) };
}

/// What is one of several alternatives, each under its context tag.
pub trait Chosen {
    /// What the element chosen says.
    type Item: Drop;

    /// The alternatives in each edition, and which of them an item is.
    ghost arms: { Choice Self.Item };

    /// Reading needs no memory.
    ghost needs_no_memory: { Bool };

    /// What the element is. Malformed or TooDeep exactly where the choice's reading is, and Memory where memory runs
    /// out.
    fn of(alloc: Global, element: Element<'_>, edition: Edition) -> Result<Self::Item, Unread>
        ensures exact { Gives arms.value result
            (alternatives (lengths_of edition) (arms.alternatives edition) (part element.entry)) }
        ensures no_memory { IsTrue needs_no_memory → NeedsNoMemory result };

    /// Appends the element chosen, or nothing where memory runs out.
    fn put_chosen(out: &mut Writer, x: &Self::Item) -> Result<(), Full>
        ensures ok { OnOk result (out.new
            ≡ out.old ++ alternative_octets (arms.alternatives widest) (arms.value x.now)) }
        ensures err { OnErr result (out.new ≡ out.old) };

    ghost sound: { (edition : Edition) → IsTrue (sound_alternatives (arms.alternatives edition)) };
}

/// The form of a choice: its contents are the one element chosen.
pub struct OneOf<C: Chosen> {
    of: PhantomData<C>,
}

impl<C: Chosen> Formed for OneOf<C> {
    type Item = C::Item;

    ghost kind = { choice C.arms };

    ghost needs_no_memory = { C.needs_no_memory };

    fn is_constructed() -> bool {
        true
    }

    #[tactic(auto, unfolding(ber_forms::specs::Reading::chosen_by))]
    fn read(alloc: Global, contents: &[u8], edition: Edition) -> Result<Self::Item, Unread> {
        let mut parts = cursor(edition, contents);
        let element = parts.part()?;
        let found = C::of(alloc, element, edition)?;
        parts.end()?;
        Ok(found)
    }

    #[tactic(auto, unfolding(ber_forms::specs::Spelling::appended), using(ber_forms::proofs::Joined::writing))]
    fn put(out: &mut Writer, x: &Self::Item) -> Result<(), Full> {
        C::put_chosen(out, x)
    }

    ghost sound = { C.sound };
}

/// A choice with no tag of its own.
impl<C: Chosen> Own for OneOf<C> {
    type Item = C::Item;

    ghost tags = { growing };

    ghost item = { one_of C.arms };

    ghost needs_no_memory = { C.needs_no_memory };

    #[tactic(auto, unfolding(ber_forms::specs::Reading::chosen_by))]
    fn take(alloc: Global, parts: &mut Cursor<'_>, edition: Edition) -> Result<Self::Item, Unread> {
        let element = parts.part()?;
        C::of(alloc, element, edition)
    }

    fn put_own(out: &mut Writer, x: &Self::Item) -> Result<(), Full> {
        C::put_chosen(out, x)
    }

    ghost sound = { C.sound };
}

/// The element as an alternative of the form F, under the element's own number. Malformed where its constructed bit is
/// not the form's.
pub fn read_as<F: Formed>(
    alloc: Global,
    element: Element<'_>,
    edition: Edition,
) -> Result<F::Item, Unread>
    ensures exact { Gives (λ x. chosen element.entry.tag.number (F.kind.value x)) result
        (read_as (lengths_of edition) (part element.entry) (Some (F.kind.form edition))) }
    ensures no_memory { IsTrue F.needs_no_memory → NeedsNoMemory result }
{
    let want = Tag {
        class: 2,
        constructed: F::is_constructed(),
        number: element.tag.number,
    };
    if has_tag(element.tag, want) {
        F::read(alloc, element.contents, edition)
    } else {
        Err(Unread::Malformed)
    }
}

/// The members to the end of the contents of a SEQUENCE OF, in order (ITU-T X.690, 8.10).
pub fn read_each<T: Own>(
    alloc: Global,
    contents: &[u8],
    edition: Edition,
) -> Result<Vec<T::Item>, Unread>
    ensures { Gives (λ v. map T.item.value v.items) result
        (members_by (required_at (lengths_of edition) (T.item.member edition))
        (length contents.now) contents.now) }
{
    let mut found = Vec::new(alloc);
    let mut parts = cursor(edition, contents);
    while !parts.is_empty() {
        found.push(T::take(alloc, &mut parts, edition)?)?;
    }
    Ok(found)
}

/// Appends the members in order. Where memory runs out, some of them may be appended.
#[tactic(auto, using(ber_forms::proofs::Joined::begins_more, ber_forms::proofs::Joined::begins_itself))]
pub fn put_each<T: Own>(out: &mut Writer, items: &[T::Item]) -> Result<(), Full>
    ensures ok { OnOk result (out.new
        ≡ out.old ++ each_octets (member_octets (T.item.member widest))
        (all_of (map T.item.value items.now))) }
    ensures begins { Begins out.old out.new }
{
    for item in items {
        T::put_own(out, item)?;
    }
    Ok(())
}
