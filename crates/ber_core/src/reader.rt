//! Elements from left to right.

ghost use Rattle.std.specs.Prelude.{◌≡◌, ◌<◌, ◌≤◌, ◌↔◌, ℕ, List, [], length, slice_index, ◌^◌, Ok, Err, MatchResult, OnErr, OnOk, IfOk, IfErr, IsErrOf, IsOkAnd, IfSome, option_map, ◌+◌, ◌*◌, ◌++◌, ◌≢◌, IsTrue};
ghost use Rattle.ber_core.specs.Part.{Part, part, Remaining};
ghost use Rattle.ber_core.specs.Element.{number_of, begins_end, IsElement};
ghost use Rattle.ber_core.specs.Leaf.{complements};
ghost use Rattle.ber_core.specs.Reading.{tag_at, identifier_at, second_at, third_at, length_at, long_length_at, definite_at, opening_of, passed_at, closing, opening_at, either_at, element_at};
ghost use Rattle.ber_core.specs.Refusal.{HasBadTag, HasBadLength, EndsEarly};

use crate::element::{Element, Lengths, Tag};
use crate::fault::BerError;
use std::marker::Model;

/// Reads the elements of octets one after the other. It is seen as the forms of the length that it
/// reads and the octets that are left.
#[derive(Drop)]
pub struct Reader<'a> {
    lengths: Lengths,
    bytes: &'a [u8],
}

impl<'a> Model for Reader<'a> {
    ghost Value = { Remaining };

    ghost view = { λ r. record { lengths = r.lengths; octets = r.bytes.now } };
}

#[tactic(auto, unfolding(crate::specs::Reading::third_at))]
fn third(a: u8, b: u8, rest: &[u8]) -> Result<(Tag, &[u8]), BerError>
    requires { 128 < b }
    ensures exact { MatchResult result (λ x. third_at a b rest.now ≡ Ok (x.0, x.1.now))
        (λ e. third_at a b rest.now ≡ Err e) }
    ensures shorter { IfOk result (λ x. length x.1.now < length rest.now) }
{
    match rest {
        [] => Err(BerError::Short),
        [c, rest @ ..] => {
            if *c < 128 {
                let number = 128 * u32::from(b - 128) + u32::from(*c);
                Ok((tag_of(a, number), rest))
            } else {
                Err(BerError::BadTag)
            }
        }
    }
}

fn tag_of(a: u8, number: u32) -> Tag
    ensures { result ≡ tag_at a number }
{
    Tag {
        class: a / 64,
        constructed: (a / 32) % 2 == 1,
        number,
    }
}

#[tactic(auto, unfolding(crate::specs::Reading::second_at))]
fn second(a: u8, rest: &[u8]) -> Result<(Tag, &[u8]), BerError>
    ensures exact { MatchResult result (λ x. second_at a rest.now ≡ Ok (x.0, x.1.now))
        (λ e. second_at a rest.now ≡ Err e) }
    ensures shorter { IfOk result (λ x. length x.1.now < length rest.now) }
{
    match rest {
        [] => Err(BerError::Short),
        [b, rest @ ..] => {
            if *b < 31 {
                Err(BerError::BadTag)
            } else if *b < 128 {
                Ok((tag_of(a, u32::from(*b)), rest))
            } else if *b == 128 {
                Err(BerError::BadTag)
            } else {
                third(a, *b, rest)
            }
        }
    }
}

#[tactic(auto, unfolding(crate::specs::Reading::identifier_at))]
fn identifier(bytes: &[u8]) -> Result<(Tag, &[u8]), BerError>
    ensures exact { MatchResult result (λ x. identifier_at bytes.now ≡ Ok (x.0, x.1.now))
        (λ e. identifier_at bytes.now ≡ Err e) }
    ensures shorter { IfOk result (λ x. length x.1.now < length bytes.now) }
{
    match bytes {
        [] => Err(BerError::Short),
        [a, rest @ ..] => {
            if *a % 32 < 31 {
                Ok((tag_of(*a, u32::from(*a % 32)), rest))
            } else {
                second(*a, rest)
            }
        }
    }
}

/// The number that up to eight octets spell.
pub(crate) fn number(octets: &[u8]) -> u64
    requires { length octets.now ≤ 8 }
    ensures value { result ≡ number_of octets.now }
    ensures half { 0 < length octets.now → slice_index octets.now 0 < 128 → result < 2 ^ 63 }
{
    let mut n = 0u64;
    for b in octets {
        n = 256 * n + u64::from(*b);
    }
    n
}

#[tactic(auto, unfolding(crate::specs::Reading::long_length_at))]
fn long_length(count: u8, rest: &[u8]) -> Result<(u64, &[u8]), BerError>
    ensures exact { MatchResult result (λ x. long_length_at count rest.now ≡ Ok (x.0, x.1.now))
        (λ e. long_length_at count rest.now ≡ Err e) }
    ensures shorter { IfOk result (λ x. length x.1.now < length rest.now) }
{
    if count == 0 || count > 8 {
        return Err(BerError::BadLength);
    }
    let count = usize::from(count);
    if rest.len() < count {
        return Err(BerError::Short);
    }
    let (front, rest) = rest.split_at(count);
    Ok((number(front), rest))
}

#[tactic(auto, unfolding(crate::specs::Reading::length_at))]
fn length_of(bytes: &[u8]) -> Result<(u64, &[u8]), BerError>
    ensures exact { MatchResult result (λ x. length_at bytes.now ≡ Ok (x.0, x.1.now))
        (λ e. length_at bytes.now ≡ Err e) }
    ensures shorter { IfOk result (λ x. length x.1.now < length bytes.now) }
{
    match bytes {
        [] => Err(BerError::Short),
        [a, rest @ ..] => {
            if *a < 128 {
                Ok((u64::from(*a), rest))
            } else {
                long_length(*a - 128, rest)
            }
        }
    }
}

#[tactic(auto, unfolding(crate::specs::Reading::definite_at))]
#[inline(always)]
fn definite(bytes: &[u8]) -> Result<(Element<'_>, &[u8]), BerError>
    ensures exact { MatchResult result (λ x. definite_at bytes.now ≡ Ok (part x.0, x.1.now))
        (λ e. definite_at bytes.now ≡ Err e) }
    ensures shorter { IfOk result (λ x. length x.1.now < length bytes.now) }
{
    let (tag, rest) = identifier(bytes)?;
    let (size, rest) = length_of(rest)?;
    if (rest.len() as u64) < size {
        return Err(BerError::Short);
    }
    let (contents, rest) = rest.split_at(size as usize);
    Ok((Element { tag, contents }, rest))
}

/// 00 00, the end of contents of indefinite length, stands in front.
fn is_end(octets: &[u8]) -> bool
    ensures { result ≡ begins_end octets.now }
{
    match octets {
        [a, b, ..] => *a == 0 && *b == 0,
        _ => false,
    }
}

/// The octet 80 stands in front: the tag, and the octets after it.
#[inline(always)]
fn after_tag(tag: Tag, octets: &[u8]) -> Option<(Tag, &[u8])>
    ensures exact { option_map (λ x. (x.0, x.1.now)) result ≡ opening_of tag octets.now }
    ensures shorter { IfSome result (λ x. length x.1.now < length octets.now) }
{
    match octets {
        [] => None,
        [a, rest @ ..] => { if *a == 128 { Some((tag, rest)) } else { None } }
    }
}

/// An identifier with the octet 80 in the place of a length: its tag, and the octets after them.
#[tactic(auto, unfolding(crate::specs::Reading::opening_at))]
#[inline(always)]
fn opening(octets: &[u8]) -> Option<(Tag, &[u8])>
    ensures exact { option_map (λ x. (x.0, x.1.now)) result ≡ opening_at octets.now }
    ensures shorter { IfSome result (λ x. 1 + length x.1.now < length octets.now) }
{
    match identifier(octets) {
        Ok((tag, rest)) => after_tag(tag, rest),
        Err(_) => None,
    }
}

/// How many contents of indefinite length are open after one step within so many and one, and the octets after it.
#[tactic(auto, unfolding(crate::specs::Reading::passed_at))]
fn passed(depth: usize, octets: &[u8]) -> Result<(usize, &[u8]), BerError>
    requires { depth + length octets.now < 2 ^ 64 }
    ensures exact { MatchResult result (λ x. passed_at depth octets.now ≡ Ok (x.0, x.1.now))
        (λ e. passed_at depth octets.now ≡ Err e) }
    ensures fewer { IfOk result (λ x. x.0 + length x.1.now ≤ depth + length octets.now) }
    ensures ends { IfOk result (λ x. length x.1.now + 2 * depth + 2 ≤ length octets.now + 2 * x.0) }
    ensures shorter { IfOk result (λ x. length x.1.now < length octets.now) }
{
    if is_end(octets) {
        return Ok((depth, &octets[2..]));
    }
    match opening(octets) {
        Some((tag, rest)) => {
            if tag.constructed {
                Ok((depth + 2, rest))
            } else {
                Err(BerError::BadLength)
            }
        }
        None => {
            let (_element, rest) = definite(octets)?;
            Ok((depth + 1, rest))
        }
    }
}

/// The octets after the end of contents of indefinite length, which one pass over them finds.
fn close(octets: &[u8]) -> Result<&[u8], BerError>
    ensures exact { MatchResult result (λ r. closing (length octets.now) 1 octets.now ≡ Ok r.now)
        (λ e. closing (length octets.now) 1 octets.now ≡ Err e) }
    ensures shorter { IfOk result (λ r. length r.now + 2 ≤ length octets.now) }
{
    let mut depth = 1usize;
    let mut rest = octets;
    while depth > 0 {
        let (more, after) = passed(depth - 1, rest)?;
        depth = more;
        rest = after;
    }
    Ok(rest)
}

/// The first element and the octets after it, where it isn't one of definite length for this reason.
#[cold]
#[inline(never)]
#[tactic(auto, unfolding(crate::specs::Reading::either_at))]
fn indefinite(bytes: &[u8], refusal: BerError) -> Result<(Element<'_>, &[u8]), BerError>
    requires { definite_at bytes.now ≡ Err refusal }
    ensures exact { MatchResult result (λ x. either_at bytes.now ≡ Ok (part x.0, x.1.now))
        (λ e. either_at bytes.now ≡ Err e) }
    ensures shorter { IfOk result (λ x. length x.1.now < length bytes.now) }
{
    let Some((tag, inner)) = opening(bytes) else {
        return Err(refusal);
    };
    if !tag.constructed {
        return Err(BerError::BadLength);
    }
    let rest = close(inner)?;
    let contents = &inner[..inner.len() - rest.len() - 2];
    Ok((Element { tag, contents }, rest))
}

/// The first element with a length of these forms, and the octets after it. Nearly all lengths are definite, so these are
/// tried first.
#[tactic(auto, using(crate::proofs::Closed::either_ok))]
fn cut(lengths: Lengths, bytes: &[u8]) -> Result<(Element<'_>, &[u8]), BerError>
    ensures exact { MatchResult result (λ x. element_at lengths bytes.now ≡ Ok (part x.0, x.1.now))
        (λ e. element_at lengths bytes.now ≡ Err e) }
    ensures shorter { IfOk result (λ x. length x.1.now < length bytes.now) }
{
    match definite(bytes) {
        Ok(found) => Ok(found),
        Err(refusal) => match lengths {
            Lengths::Definite => Err(refusal),
            Lengths::Either => indefinite(bytes, refusal),
        },
    }
}

/// The first element, with a length of these forms, and the octets after it (ITU-T X.690, 8.1).
///
/// The octets that are there decide first: BadTag where the number of the tag is above 30 and is
/// spelled below 31, with 80 in front or by more than two octets; then BadLength where the length
/// octet is 80 or announces more than eight; and Short where the octets end within an element.
pub fn first_element(lengths: Lengths, bytes: &[u8]) -> Result<(Element<'_>, &[u8]), BerError>
    // What is taken from the front is that element.
    ensures found { IfOk result (λ x. (taken : List ℕ) × IsElement lengths taken (part x.0)
        × (bytes.now ≡ taken ++ x.1.now)) }
    // An element in front is taken.
    ensures only { (taken rest : List ℕ) (p : Part) → IsElement lengths taken p
        → bytes.now ≡ taken ++ rest → IsOkAnd result (λ x. (part x.0 ≡ p) × (x.1.now ≡ rest)) }

    ensures bad_tag { IsErrOf result BerError.BadTag ↔ HasBadTag lengths bytes.now }
    ensures bad_length { IsErrOf result BerError.BadLength ↔ HasBadLength lengths bytes.now }
    ensures short { IsErrOf result BerError.Short ↔ EndsEarly lengths bytes.now }
    ensures no_other { IfErr result (λ e. e ≢ BerError.BadContents) }

    // All of it at once, by the reading as it is computed.
    ensures exact { MatchResult result (λ x. element_at lengths bytes.now ≡ Ok (part x.0, x.1.now))
        (λ e. element_at lengths bytes.now ≡ Err e) }
    ensures shorter { IfOk result (λ x. length x.1.now < length bytes.now) }
{
    cut(lengths, bytes)
}

impl<'a> Reader<'a> {
    /// A reader of definite lengths, from the first of these octets.
    pub fn new(bytes: &'a [u8]) -> Reader<'a>
        ensures lengths { result.lengths ≡ Lengths.Definite }
        ensures octets { result.octets ≡ bytes.entry.now }
    {
        Reader {
            lengths: Lengths::Definite,
            bytes,
        }
    }

    /// A reader of definite and of indefinite lengths, from the first of these octets. What it hands out of contents of
    /// indefinite length is without the 00 00 after them.
    pub fn either(bytes: &'a [u8]) -> Reader<'a>
        ensures lengths { result.lengths ≡ Lengths.Either }
        ensures octets { result.octets ≡ bytes.entry.now }
    {
        Reader {
            lengths: Lengths::Either,
            bytes,
        }
    }

    /// Whether no octet is left.
    pub fn is_empty(&self) -> bool
        ensures { IsTrue result ↔ (self.now.octets ≡ []) }
    {
        self.bytes.is_empty()
    }

    /// Takes the first element of the octets that are left (ITU-T X.690, 8.1). After a refusal the
    /// reader is unchanged.
    ///
    /// The octets that are there decide first: BadTag where the number of the tag is above 30 and is
    /// spelled below 31, with 80 in front or by more than two octets; then BadLength where the length
    /// octet is 80 or announces more than eight; and Short where no octet is left, or they end within
    /// an element.
    pub fn next(&mut self) -> Result<Element<'a>, BerError>
        // What is taken from the front is that element.
        ensures found { IfOk result (λ e. (taken : List ℕ)
            × IsElement self.old.lengths taken (part e)
            × (self.old.octets ≡ taken ++ self.new.octets)) }
        // An element in front is taken.
        ensures only { (taken rest : List ℕ) (p : Part) → IsElement self.old.lengths taken p
            → self.old.octets ≡ taken ++ rest
            → IsOkAnd result (λ e. (part e ≡ p) × (self.new.octets ≡ rest)) }

        ensures bad_tag { IsErrOf result BerError.BadTag ↔ HasBadTag self.old.lengths self.old.octets }
        ensures bad_length { IsErrOf result BerError.BadLength
            ↔ HasBadLength self.old.lengths self.old.octets }
        ensures short { IsErrOf result BerError.Short ↔ EndsEarly self.old.lengths self.old.octets }
        ensures no_other { IfErr result (λ e. e ≢ BerError.BadContents) }

        // All of it at once, by the reading as it is computed.
        ensures exact { MatchResult result
            (λ e. element_at self.old.lengths self.old.octets ≡ Ok (part e, self.new.octets))
            (λ e. element_at self.old.lengths self.old.octets ≡ Err e) }
        ensures shorter { OnOk result (length self.new.octets < length self.old.octets) }

        ensures lengths { self.new.lengths ≡ self.old.lengths }
        ensures err { OnErr result (self.new ≡ self.old) }
    {
        let (found, rest) = first_element(self.lengths, self.bytes)?;
        self.bytes = rest;
        Ok(found)
    }
}

/// The number that the complements of up to eight octets spell.
pub(crate) fn complement(octets: &[u8]) -> u64
    requires { length octets.now ≤ 8 }
    ensures value { result ≡ number_of (complements octets.now) }
    ensures half { 0 < length octets.now → 128 ≤ slice_index octets.now 0 → result < 2 ^ 63 }
{
    let mut n = 0u64;
    for b in octets {
        n = 256 * n + u64::from(255 - *b);
    }
    n
}
