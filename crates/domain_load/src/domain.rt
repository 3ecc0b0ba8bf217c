ghost use Rattle.std.specs.Prelude.{◌≡◌, ◌≤◌, IfOk};
ghost use Rattle.domain_load.specs.Segmented.{most_octets, octets_in, piece};
ghost use Rattle.domain_load.specs.Standing.{is_live, is_loaded_by, is_loading, state};

use crate::{Invocations, Segments};
use mms_types::{DomainState, Memory, Octets, Texts};
use std::alloc::Global;

/// A domain (ISO 9506-1, domain management): a part of the device's capabilities, with a program or data that a client
/// loads. Where it stands is told from who loads it and who has it.
pub struct Domain {
    /// What it may use of the device (listOfCapabilities).
    pub capabilities: Texts,
    /// Whether several program invocations may have it at a time.
    pub sharable: bool,
    /// The client that loads it, while it is LOADING.
    pub loader: Option<u32>,
    /// Its segments, in the order in which they came (loadData).
    pub segments: Segments,
    /// The names of the program invocations that have it.
    pub invocations: Invocations,
}

impl Domain {
    /// Where it stands (ISO 9506-2, DomainState).
    pub fn state(&self) -> DomainState
        ensures { result ≡ state self.now }
    {
        match self.loader {
            Some(_) => DomainState::Loading,
            None if self.invocations.is_empty() => DomainState::Ready,
            None => DomainState::InUse,
        }
    }

    /// Whether a client loads it: it is LOADING.
    pub fn is_loading(&self) -> bool
        ensures { result ≡ is_loading self.now }
    {
        self.loader.is_some()
    }

    /// Whether it is READY or IN-USE.
    pub fn is_live(&self) -> bool
        ensures { result ≡ is_live self.now }
    {
        self.loader.is_none()
    }

    /// Whether that client loads it.
    pub fn is_loaded_by(&self, client: u32) -> bool
        ensures { result ≡ is_loaded_by client self.now }
    {
        match self.loader {
            Some(loader) => loader == client,
            None => false,
        }
    }

    /// How many octets it has: the sum of its segments, which is at most 1,048,576.
    pub fn octets(&self) -> u32
        ensures sum { result ≡ octets_in self.now.segments }
        ensures most { octets_in self.now.segments ≤ most_octets }
    {
        self.segments.octets()
    }

    /// Of its segments joined, at most so many octets from that one on (ISO 9506-2, UploadSegment). The time doesn't
    /// grow with how many segments there are. The one refusal is want of memory.
    pub fn piece(&self, alloc: Global, from: u32, most: u32) -> Result<Octets, Memory>
        ensures { IfOk result (λ octets. octets ≡ piece from most self.now.segments) }
    {
        self.segments.piece(alloc, from, most)
    }

    /// A copy. The one refusal is want of memory.
    pub fn copy(&self, alloc: Global) -> Result<Domain, Memory>
        ensures { IfOk result (λ domain. domain ≡ self.now) }
    {
        Ok(Domain {
            capabilities: self.capabilities.copy(alloc)?,
            sharable: self.sharable,
            loader: self.loader,
            segments: self.segments.copy(alloc)?,
            invocations: self.invocations.copy(alloc)?,
        })
    }
}

impl Drop for Domain {
    fn drop(self) {
        let Domain {
            capabilities: _capabilities,
            sharable: _,
            loader: _,
            segments: _segments,
            invocations: _invocations,
        } = self;
    }
}
