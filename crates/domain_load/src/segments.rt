ghost use Rattle.std.specs.Prelude.{◌≡◌, ◌+◌, ◌≤◌, ◌==◌, [], ◌∷◌, ◌++◌, IfOk, OnErr, OnOk, length};
ghost use Rattle.domain_load.specs.Segmented.{most_octets, octets_in, piece};

use crate::store::Store;
use mms_types::{Memory, Octets};
use std::alloc::Global;
use std::marker::Model;

/// The segments of a domain (ISO 9506-1, domain content), with at most 1,048,576 octets in all. Contracts see the list
/// of them in the order in which they came, each as its octets; an empty one is there as well. No service tells where
/// one ends, so their octets are kept joined.
pub struct Segments {
    joined: Store,
    /// How many octets each segment has.
    lengths: Vec<u32>,
}

impl Model for Segments {
    ghost use Rattle.std.specs.Prelude.{◌≡◌, ◌≤◌, ℕ, List, length, sum};
    ghost use Rattle.domain_load.specs.Kept.{cut};
    ghost use Rattle.domain_load.specs.Segmented.{most_octets};

    ghost Value = { List (List ℕ) };

    ghost view = { λ segments. cut segments.lengths.items segments.joined };

    ghost invariant = { λ segments. (sum segments.lengths.items ≡ length segments.joined)
        × (length segments.joined ≤ most_octets) };
}

impl Segments {
    /// No segments. Nothing is allocated.
    pub fn new(alloc: Global) -> Segments
        ensures { result ≡ [] }
    {
        Segments {
            joined: Store::new(alloc),
            lengths: Vec::new(alloc),
        }
    }

    /// How many segments there are.
    #[tactic(auto, using(crate::proofs::Cuts::length_cut))]
    pub fn len(&self) -> usize
        ensures { result ≡ length self.now }
    {
        self.lengths.len()
    }

    /// Whether there is none.
    #[tactic(auto, using(crate::proofs::Cuts::length_cut))]
    pub fn is_empty(&self) -> bool
        ensures { result ≡ (length self.now == 0) }
    {
        self.lengths.is_empty()
    }

    /// How many octets the segments have in all.
    pub fn octets(&self) -> u32
        ensures sum { result ≡ octets_in self.now }
        ensures most { octets_in self.now ≤ most_octets }
    {
        self.joined.len() as u32
    }

    /// Appends a segment, whose octets are copied once. The one refusal is want of memory; then all is as before.
    pub fn push(&mut self, alloc: Global, octets: &[u8]) -> Result<(), Memory>
        requires { octets_in self.old + length octets.now ≤ most_octets }
        ensures appended { OnOk result (self.new ≡ self.old ++ octets.now ∷ []) }
        ensures kept { OnErr result (self.new ≡ self.old) }
    {
        self.lengths.reserve(1)?;
        self.joined.append(alloc, octets)?;
        let Ok(()) = self.lengths.push(octets.len() as u32) else {
            unreachable!()
        };
        Ok(())
    }

    /// Of the segments joined, at most so many octets from that one on. The time grows with how many are told and not
    /// with the segments. The one refusal is want of memory.
    pub fn piece(&self, alloc: Global, from: u32, most: u32) -> Result<Octets, Memory>
        ensures { IfOk result (λ octets. octets ≡ piece from most self.now) }
    {
        let octets = self.joined.piece(alloc, from as usize, most as usize)?;
        Ok(Octets::new(octets))
    }

    /// A copy. The one refusal is want of memory.
    pub fn copy(&self, alloc: Global) -> Result<Segments, Memory>
        ensures { IfOk result (λ segments. segments ≡ self.now) }
    {
        Ok(Segments {
            joined: self.joined.copy(alloc)?,
            lengths: Vec::from_slice(alloc, &self.lengths)?,
        })
    }
}

impl Drop for Segments {
    fn drop(self) {
        let Segments {
            joined: _joined,
            lengths: _lengths,
        } = self;
    }
}
