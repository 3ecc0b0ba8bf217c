//! The elements of contents, from left to right.

ghost use Rattle.std.specs.Prelude.{◌≡◌, ◌↔◌, ℕ, List, [], Ok, Err, Some, None, option_map, IsTrue, OnOk, IfOk, IfSome, ◌<◌, length};
ghost use Rattle.ber_core.specs.Part.{part};
ghost use Rattle.ber_core.specs.Reading.{tag_at, identifier_at, second_at};
ghost use Rattle.ber_forms.specs.Ahead.{ahead};
ghost use Rattle.ber_forms.specs.Reading.{Gives, is_tag, passes, is_ahead, next_at, part_at, at_end, optional_part, required_part, elements_at};
ghost use Rattle.ber_forms.specs.Reads.{NeedsNoMemory};

use crate::unread::Unread;
use ber_core::{Element, Lengths, Tag, first_element};
use std::marker::Model;

/// What is left of contents: which forms of lengths are read, and the octets. Each call takes from the front what
/// it answers, keeps the forms of lengths, and after an error the octets may be those before it or what is left.
#[derive(Drop)]
pub struct Cursor<'a> {
    lengths: Lengths,
    rest: &'a [u8],
}

impl<'a> Model for Cursor<'a> {
    ghost use Rattle.ber_forms.specs.Ahead.{Ahead, ahead};

    ghost Value = { Ahead };

    ghost view = { λ c. ahead c.lengths c.rest.now };
}

/// The tag is the one that is wanted.
pub fn has_tag(tag: Tag, want: Tag) -> bool
    ensures { result ≡ is_tag want.class want.constructed want.number tag }
{
    tag.class == want.class && tag.constructed == want.constructed && tag.number == want.number
}

/// The next element, or None at the end.
#[tactic(auto, unfolding(crate::specs::Reading::next_at))]
fn next(lengths: Lengths, octets: &[u8]) -> Result<Option<(Element<'_>, &[u8])>, Unread>
    ensures no_memory { NeedsNoMemory result }
    ensures exact { Gives (λ o. option_map (λ x. (part x.0, x.1.now)) o) result
        (next_at lengths octets.now) }
    ensures shorter { IfOk result (λ o. IfSome o (λ x. length x.1.now < length octets.now)) }
{
    if octets.is_empty() {
        return Ok(None);
    }
    let Ok(found) = first_element(lengths, octets) else {
        return Err(Unread::Malformed);
    };
    Ok(Some(found))
}

/// The tag of that number whose first identifier octet is given (ITU-T X.690, 8.1.2.2 and 8.1.2.5).
fn tag_of(first: u8, number: u32) -> Tag
    ensures { result ≡ tag_at first number }
{
    Tag {
        class: first / 64,
        constructed: (first / 32) % 2 == 1,
        number,
    }
}

/// An identifier of the tag that is wanted is in front, of more than one octet (ITU-T X.690, 8.1.2.4).
#[tactic(auto, unfolding(ber_core::specs::Reading::second_at, ber_core::specs::Reading::third_at))]
fn is_long_tag(first: u8, rest: &[u8], want: Tag) -> bool
    ensures { result ≡ passes (is_tag want.class want.constructed want.number)
        (second_at first rest.now) }
{
    match rest {
        [] => false,
        [b, rest @ ..] => {
            if *b < 31 || *b == 128 {
                false
            } else if *b < 128 {
                has_tag(tag_of(first, u32::from(*b)), want)
            } else {
                match rest {
                    [] => false,
                    [c, ..] => {
                        let number = 128 * u32::from(*b - 128) + u32::from(*c);
                        *c < 128 && has_tag(tag_of(first, number), want)
                    }
                }
            }
        }
    }
}

/// An identifier of the tag that is wanted is in front.
#[tactic(auto, unfolding(ber_core::specs::Reading::identifier_at))]
fn is_ahead(octets: &[u8], want: Tag) -> bool
    ensures { result ≡ is_ahead (is_tag want.class want.constructed want.number) octets.now }
{
    match octets {
        [] => false,
        [first, rest @ ..] => {
            let low = *first % 32;
            if low < 31 {
                has_tag(tag_of(*first, u32::from(low)), want)
            } else {
                is_long_tag(*first, rest, want)
            }
        }
    }
}

impl<'a> Cursor<'a> {
    /// Before all of the contents.
    pub fn new(lengths: Lengths, contents: &'a [u8]) -> Cursor<'a>
        ensures { result ≡ ahead lengths contents.entry.now }
    {
        Cursor {
            lengths,
            rest: contents,
        }
    }

    /// Which forms of lengths are read.
    pub fn lengths(&self) -> Lengths
        ensures { result ≡ self.now.lengths }
    {
        self.lengths
    }

    /// Nothing is left.
    pub fn is_empty(&self) -> bool
        ensures { IsTrue result ↔ (self.now.octets ≡ []) }
    {
        self.rest.is_empty()
    }

    /// The next element. Malformed where none is whole there.
    #[inline(always)]
    #[tactic(auto, unfolding(crate::specs::Reading::part_at))]
    pub fn part(&mut self) -> Result<Element<'a>, Unread>
        ensures exact { Gives (λ p. (part p, self.new.octets)) result
            (part_at self.old.lengths self.old.octets) }
        ensures kept { self.new.lengths ≡ self.old.lengths }
        ensures no_memory { NeedsNoMemory result }
        ensures shorter { OnOk result (length self.new.octets < length self.old.octets) }
    {
        match next(self.lengths, self.rest)? {
            None => Err(Unread::Malformed),
            Some((element, rest)) => {
                self.rest = rest;
                Ok(element)
            }
        }
    }

    /// The next element where this tag is in front. None where it isn't: nothing is taken, and what stands there
    /// needn't be whole. Malformed where the tag is in front and no whole element.
    #[inline(always)]
    #[tactic(auto, unfolding(crate::specs::Reading::optional_part))]
    pub fn optional(&mut self, want: Tag) -> Result<Option<Element<'a>>, Unread>
        ensures exact { Gives (λ o. (option_map part o, self.new.octets)) result
            (optional_part self.old.lengths
            (is_tag want.class want.constructed want.number) self.old.octets) }
        ensures kept { self.new.lengths ≡ self.old.lengths }
        ensures no_memory { NeedsNoMemory result }
    {
        if is_ahead(self.rest, want) {
            Ok(Some(self.part()?))
        } else {
            Ok(None)
        }
    }

    /// The next element, which has this tag. Malformed where it has another, or none is whole there.
    #[tactic(auto, unfolding(crate::specs::Reading::required_part))]
    pub fn required(&mut self, want: Tag) -> Result<Element<'a>, Unread>
        ensures exact { Gives (λ p. (part p, self.new.octets)) result
            (required_part self.old.lengths
            (is_tag want.class want.constructed want.number) self.old.octets) }
        ensures kept { self.new.lengths ≡ self.old.lengths }
        ensures no_memory { NeedsNoMemory result }
        ensures shorter { OnOk result (length self.new.octets < length self.old.octets) }
    {
        let element = self.part()?;
        if has_tag(element.tag, want) {
            Ok(element)
        } else {
            Err(Unread::Malformed)
        }
    }

    /// Nothing is left. Malformed where something is.
    #[tactic(auto, unfolding(crate::specs::Reading::at_end))]
    pub fn end(&self) -> Result<(), Unread>
        ensures exact { Gives (λ _. tt) result (at_end self.now.octets) }
        ensures no_memory { NeedsNoMemory result }
    {
        if self.rest.is_empty() {
            Ok(())
        } else {
            Err(Unread::Malformed)
        }
    }

    /// What is left is elements, which are not looked into and none of which is kept. Malformed where it isn't.
    pub fn elements(&self) -> Result<(), Unread>
        ensures exact { Gives (λ _. tt) result (elements_at self.now.lengths self.now.octets) }
        ensures no_memory { NeedsNoMemory result }
    {
        elements(self.lengths, self.rest)
    }
}

/// The contents are elements, which are not looked into. Malformed where they aren't.
pub fn elements(lengths: Lengths, contents: &[u8]) -> Result<(), Unread>
    ensures exact { Gives (λ _. tt) result (elements_at lengths contents.now) }
    ensures no_memory { NeedsNoMemory result }
{
    let mut parts = Cursor::new(lengths, contents);
    while !parts.is_empty() {
        parts.part()?;
    }
    Ok(())
}
