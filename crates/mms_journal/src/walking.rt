//! Spelled variables, from left to right.

ghost use Rattle.std.specs.Prelude.{◌≡◌, ◌<◌, ◌+◌, ◌≤◌, ◌∷◌, ◌++◌, ℕ, List, IfSome, IsSomeAnd, length};
ghost use Rattle.std.specs.List.{list_any};
ghost use Rattle.ber_core.specs.Spelling.{element_octets};
ghost use Rattle.ber_core.specs.declared.element.Tag.{Tag};
ghost use Rattle.mms_types.specs.declared.journal.JournalVariable.{JournalVariable};
ghost use Rattle.mms_journal.specs.Entries.{is_tagged};
ghost use Rattle.mms_journal.specs.Kept.{variables_octets};
ghost use Rattle.mms_journal.specs.Cuts.{FirstSome};

use crate::tags::Tags;
use ber_core::{Lengths, first_element};

/// The contents of the first element, and what is left after it.
fn contents_of(octets: &[u8]) -> Option<(&[u8], &[u8])>
    ensures contents { (tag : Tag) (contents rest : List ℕ) → tag.class < 4 → tag.number < 16384
        → octets.now ≡ element_octets tag contents ++ rest
        → IsSomeAnd result (λ x. (x.0.now ≡ contents) × (x.1.now ≡ rest)) }
    ensures shorter { IfSome result (λ x. length x.1.now < length octets.now) }
{
    match first_element(Lengths::Definite, octets) {
        Ok((element, rest)) => Some((element.contents, rest)),
        Err(_) => None,
    }
}

/// The tag of the first of spelled variables, and the others, where that one is as short as one octet tells, by how long
/// it and its tag are and what stands behind these.
#[inline(always)]
fn short_variable(count: u8, tag: u8, rest: &[u8]) -> Option<(&[u8], &[u8])>
    requires { length rest.now + 4 ≤ 18446744073709551615 }
    ensures tag { IfSome result (λ x. FirstSome
        (48 ∷ count ∷ 128 ∷ tag ∷ rest.now) x.0.now x.1.now) }
    ensures shorter { IfSome result (λ x. length x.1.now ≤ length rest.now) }
{
    let (count, tag) = (usize::from(count), usize::from(tag));
    if count >= 128 || count < tag + 2 || rest.len() < count - 2 {
        return None;
    }
    let (tag, _) = rest.split_at(tag);
    let (_, after) = rest.split_at(count - 2);
    Some((tag, after))
}

/// The tag of the first of spelled variables, and the others, however long that one is.
fn long_variable(octets: &[u8]) -> Option<(&[u8], &[u8])>
    ensures tag { (w : JournalVariable) (ws : List JournalVariable)
        → octets.now ≡ variables_octets (w ∷ ws)
        → IsSomeAnd result (λ x. (x.0.now ≡ w.tag) × (x.1.now ≡ variables_octets ws)) }
    ensures shorter { IfSome result (λ x. length x.1.now < length octets.now) }
{
    let Some((variable, after)) = contents_of(octets) else {
        return None;
    };
    let Some((tag, _)) = contents_of(variable) else {
        return None;
    };
    Some((tag, after))
}

/// The tag of the first of spelled variables, and the others.
#[inline(always)]
fn first_variable(octets: &[u8]) -> Option<(&[u8], &[u8])>
    ensures tag { (w : JournalVariable) (ws : List JournalVariable)
        → octets.now ≡ variables_octets (w ∷ ws)
        → IsSomeAnd result (λ x. (x.0.now ≡ w.tag) × (x.1.now ≡ variables_octets ws)) }
    ensures shorter { IfSome result (λ x. length x.1.now < length octets.now) }
{
    let [0x30, count, 0x80, tag, rest @ ..] = octets else {
        return long_variable(octets);
    };
    let Some(found) = short_variable(*count, *tag, rest) else {
        return long_variable(octets);
    };
    Some(found)
}

/// Whether one of the spelled variables has one of the tags. Nothing of a variable is looked at but its tag.
pub(crate) fn any_tagged(octets: &[u8], tags: &Tags<'_>) -> bool
    ensures { (variables : List JournalVariable) → octets.now ≡ variables_octets variables
        → result ≡ list_any (is_tagged tags.entry.now) variables }
{
    let mut rest = octets;
    while !rest.is_empty() {
        let Some((tag, after)) = first_variable(rest) else {
            return false;
        };
        if tags.has(tag) {
            return true;
        }
        rest = after;
    }
    false
}
