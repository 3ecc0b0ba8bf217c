ghost use Rattle.std.specs.Prelude.{◌≡◌, ◌==◌, nat_eq, IfOk, length};
ghost use Rattle.std.proofs.Common.{rules};
ghost use Rattle.std.specs.Cmp.Lexicographic.{pointwise};
ghost use Rattle.std.specs.Cmp.Rules.{comparing};

use crate::Memory;
use smallvec::SmallVec;
use std::alloc::Global;
use std::marker::Model;

/// How many octets are kept in the value itself, without an allocation: most requests and answers are as short.
const SHORT: usize = 16;

/// Octets that are kept, as a PDU or a text: up to 16 in the value itself, and more in an allocation. Contracts see
/// the list of them.
pub struct Octets {
    held: SmallVec<u8, SHORT>,
}

impl Model for Octets {
    ghost use Rattle.std.specs.Prelude.{ℕ, List};

    ghost Value = { List ℕ };

    ghost view = { λ octets. octets.held.items };
}

impl Octets {
    /// The octets that a vector holds.
    pub fn new(held: Vec<u8>) -> Octets
        ensures { result ≡ held.items }
    {
        Octets {
            held: SmallVec::from_vec(held),
        }
    }

    /// The octets of a slice, copied.
    pub fn from_slice(alloc: Global, octets: &[u8]) -> Result<Octets, Memory>
        ensures { IfOk result (λ kept. kept ≡ octets.now) }
    {
        Ok(Octets {
            held: SmallVec::from_slice(alloc, octets)?,
        })
    }

    /// The octets.
    pub fn as_slice(&self) -> &[u8]
        ensures { result.now ≡ self.now }
    {
        self.held.as_slice()
    }

    /// How many there are.
    pub fn len(&self) -> usize
        ensures { result ≡ length self.now }
    {
        self.held.len()
    }

    /// Whether there is none.
    pub fn is_empty(&self) -> bool
        ensures { result ≡ (length self.now == 0) }
    {
        self.held.is_empty()
    }

    /// A copy.
    pub fn copy(&self, alloc: Global) -> Result<Octets, Memory>
        ensures { IfOk result (λ octets. octets ≡ self.now) }
    {
        Octets::from_slice(alloc, self.as_slice())
    }
}

impl PartialEq for Octets {
    ghost eq = { pointwise nat_eq };

    ghost laws = { Prim.search (comparing, rules) };

    fn eq(&self, other: &Octets) -> bool {
        self.held.as_slice() == other.held.as_slice()
    }
}

impl Eq for Octets {
    ghost laws = { Prim.search (comparing, rules) };
}

impl Drop for Octets {
    fn drop(self) {
        let Octets { held: _held } = self;
    }
}
