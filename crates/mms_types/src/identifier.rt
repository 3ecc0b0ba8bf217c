ghost use Rattle.std.specs.Prelude.{◌≡◌, nat_eq, is_ok, is_none, IfOk};
ghost use Rattle.std.proofs.Common.{rules};
ghost use Rattle.std.specs.Cmp.Rules.{comparing, hashing};
ghost use Rattle.std.specs.Cmp.{partial_order_from_own_ties};
ghost use Rattle.std.specs.Cmp.Lexicographic.{pointwise, slice_cmp};
ghost use Rattle.std.specs.Ordering.{nat_cmp, as_partial_cmp};
ghost use Rattle.std.specs.Hash as fed;
ghost use Rattle.std.specs.List.{list_all};
ghost use Rattle.std.specs.Result.{result_err};
ghost use Rattle.mms_types.specs.declared.identifier.Unnamed.TheVariants.{Bad, Memory as OutOfMemory};
ghost use Rattle.std.specs.String.{string_bytes};
ghost use Rattle.mms_types.specs.Spelling.{is_name_octet, begins_with_digit, is_spelled, longest, bad_name, rule_told, is_identifier, IsName};

use crate::Memory;
use std::alloc::{AllocError, Global};
use std::cmp::Ordering;
use std::hash::{Hash, Hasher};
use std::marker::Model;
use thiserror::Error;

/// The edition of the profile that octets are read by.
#[derive(Clone, Copy)]
pub enum Edition {
    /// Identifiers have at most 32 octets, and lengths are definite.
    One,
    /// Identifiers have at most 64 octets, and the length of a constructed element may be indefinite.
    Two,
}

/// Why octets are no identifier.
#[derive(Clone, Copy, Debug, PartialEq, Eq, Error)]
pub enum BadName {
    /// There is no octet.
    #[error("the name is empty")]
    Empty = 1,
    /// There are more octets than the edition allows.
    #[error("the name is too long")]
    TooLong = 2,
    /// An octet is no letter, digit, `_` or `$`, or a digit stands in front.
    #[error("the name has an octet that names do not have there")]
    BadOctet = 3,
}

/// Why no identifier was made of octets.
#[derive(Clone, Copy, Debug, PartialEq, Eq, Error)]
pub enum Unnamed {
    #[error("{0}")]
    Bad(BadName),
    #[error("out of memory")]
    Memory,
}

/// A name of ISO 9506-2: letters, digits, `_` and `$`, with no digit in front. Contracts see it as
/// its octets, which are an identifier of some edition.
pub struct Identifier {
    text: String,
}

impl Model for Identifier {
    ghost use Rattle.std.specs.Prelude.{ℕ, List};
    ghost use Rattle.std.specs.String.{string_bytes};
    ghost use Rattle.mms_types.specs.Spelling.{IsName};

    ghost Value = { List ℕ };

    ghost view = { λ name. string_bytes name.text };

    ghost invariant = { λ name. IsName (string_bytes name.text) };
}

impl From<BadName> for Unnamed {
    ghost from_gives = { λ bad e. e ≡ Bad bad };

    fn from(bad: BadName) -> Unnamed {
        Unnamed::Bad(bad)
    }
}

impl From<AllocError> for Unnamed {
    ghost from_gives = { λ _ e. e ≡ OutOfMemory };

    fn from(_lost: AllocError) -> Unnamed {
        Unnamed::Memory
    }
}

fn is_name_octet(octet: u8) -> bool
    ensures { result ≡ is_name_octet octet }
{
    octet.is_ascii_alphanumeric() || octet == b'_' || octet == b'$'
}

fn longest(edition: Edition) -> usize
    ensures { result ≡ longest edition }
{
    match edition {
        Edition::One => 32,
        Edition::Two => 64,
    }
}

fn begins_with_digit(octets: &[u8]) -> bool
    ensures { result ≡ begins_with_digit octets.now }
{
    match octets {
        [] => false,
        [front, ..] => front.is_ascii_digit(),
    }
}

fn are_name_octets(octets: &[u8]) -> bool
    ensures { result ≡ list_all is_name_octet octets.now }
{
    octets.iter().all(|&octet| is_name_octet(octet))
}

fn is_spelled(octets: &[u8]) -> bool
    ensures { result ≡ is_spelled octets.now }
{
    !begins_with_digit(octets) && are_name_octets(octets)
}

/// The octets as a text, copied.
fn text_of(alloc: Global, octets: &[u8]) -> Result<String, AllocError>
    requires { IsName octets.now }
    ensures { IfOk result (λ text. string_bytes text ≡ octets.now) }
{
    let copied = Vec::from_slice(alloc, octets)?;
    Ok(unsafe { String::from_utf8_unchecked(copied) })
}

impl Identifier {
    /// Whether the octets are an identifier of the edition, and else the first rule that they break.
    pub fn check(octets: &[u8], edition: Edition) -> Result<(), BadName>
        ensures rule { result_err result ≡ bad_name edition octets.now }
        ensures identifier { is_ok result ≡ is_identifier edition octets.now }
    {
        if octets.is_empty() {
            return Err(BadName::Empty);
        }
        if octets.len() > longest(edition) {
            return Err(BadName::TooLong);
        }
        if !is_spelled(octets) {
            return Err(BadName::BadOctet);
        }
        Ok(())
    }

    /// The identifier that the octets are, copied. Where they are none of the edition, `Bad` tells
    /// the rule that `check` tells; else the one refusal is want of memory.
    #[tactic(auto, using(crate::proofs::Texts::is_name))]
    pub fn read(alloc: Global, octets: &[u8], edition: Edition) -> Result<Identifier, Unnamed>
        ensures name { IfOk result (λ name. name ≡ octets.now) }
        ensures rule { rule_told result ≡ bad_name edition octets.now }
        ensures identifier { is_none (rule_told result) ≡ is_identifier edition octets.now }
    {
        Identifier::check(octets, edition)?;
        Ok(Identifier {
            text: text_of(alloc, octets)?,
        })
    }

    /// The octets.
    pub fn octets(&self) -> &[u8]
        ensures octets { result.now ≡ self.now }
        ensures name { IsName self.now }
    {
        self.text.as_bytes()
    }

    /// A copy.
    pub fn copy(&self, alloc: Global) -> Result<Identifier, Memory>
        ensures { IfOk result (λ name. name ≡ self.now) }
    {
        Ok(Identifier {
            text: String::from_str(alloc, &self.text)?,
        })
    }
}

impl PartialEq for Identifier {
    ghost eq = { pointwise nat_eq };

    ghost laws = { Prim.search (comparing, rules) };

    fn eq(&self, other: &Identifier) -> bool {
        self.text == other.text
    }
}

impl Eq for Identifier {
    ghost laws = { Prim.search (comparing, rules) };
}

/// Identifiers are ordered as lists of octets.
impl Ord for Identifier {
    ghost cmp = { slice_cmp nat_cmp };

    ghost total = { Prim.search (comparing, rules) };

    ghost matches_partial_cmp = { Prim.search (comparing, rules) };

    ghost matches_eq = { Prim.search (comparing, rules) };

    fn cmp(&self, other: &Identifier) -> Ordering {
        self.text.cmp(&other.text)
    }
}

impl PartialOrd for Identifier {
    ghost partial_cmp = { as_partial_cmp (slice_cmp nat_cmp) };

    ghost laws = { partial_order_from_own_ties (Prim.search (comparing, rules)) (Prim.search (comparing, rules)) };

    fn partial_cmp(&self, other: &Identifier) -> Option<Ordering> {
        Some(self.cmp(other))
    }
}

impl Hash for Identifier {
    ghost hash_input = { fed.str };

    ghost respects_eq = { Prim.search (hashing, rules) };

    fn hash<H: Hasher>(&self, state: &mut H) {
        self.text.hash(state);
    }
}

/// A copy of a name, where there is one. Memory where memory runs out.
pub fn copied_name(alloc: Global, name: &Option<Identifier>) -> Result<Option<Identifier>, Memory>
    ensures { IfOk result (λ copy. copy ≡ name.now) }
{
    match name {
        None => Ok(None),
        Some(name) => Ok(Some(name.copy(alloc)?)),
    }
}

impl Drop for Identifier {
    fn drop(self) {
        let Identifier { text: _text } = self;
    }
}
