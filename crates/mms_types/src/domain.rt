//! The requests and answers of the services for domains (ISO 9506-2, domain management).

ghost use Rattle.std.specs.Prelude.{◌≡◌, ◌≤◌, IfOk};
ghost use Rattle.mms_types.specs.DomainStates.{domain_state_number};

use crate::{Identifier, Identifiers, Listed, Memory, Octets, ServiceError};
use std::alloc::Global;

/// Texts in order. Contracts see the list of them.
pub type Texts = Listed<Octets>;

impl Listed<Octets> {
    /// A copy. Memory where memory runs out.
    pub fn copy(&self, alloc: Global) -> Result<Texts, Memory>
        ensures { IfOk result (λ texts. texts ≡ self.now) }
    {
        let mut texts = Texts::new(alloc);
        for text in self.as_slice() {
            texts.push(text.copy(alloc)?)?;
        }
        Ok(texts)
    }
}

/// Which domain is loaded, and what it is for (ISO 9506-2, InitiateDownloadSequence-Request).
pub struct InitiateDownloadSequence {
    /// Its name.
    pub domain: Identifier,
    /// What it may use of the device: at most 16 texts of at most 64 octets in what is read.
    pub capabilities: Texts,
    /// Whether several program invocations may have it at a time.
    pub sharable: bool,
}

/// A piece of a domain, as a client or the server sends it (ISO 9506-2, DownloadSegment-Response and
/// UploadSegment-Response).
pub struct Segment {
    /// Its octets (loadData).
    pub octets: Octets,
    /// Whether more pieces come after it (moreFollows).
    pub more: bool,
}

/// Which load ends, as the server asks it of the client (ISO 9506-2, TerminateDownloadSequence-Request).
pub struct TerminateDownloadSequence {
    /// The name of the domain.
    pub domain: Identifier,
    /// Why what was loaded is thrown away, where it is.
    pub discard: Option<ServiceError>,
}

/// The upload that has begun (ISO 9506-2, InitiateUploadSequence-Response).
pub struct InitiateUploadSequenceAnswer {
    /// Its number (ulsmID).
    pub number: i32,
    /// What the domain may use of the device.
    pub capabilities: Texts,
}

/// Where a domain stands (ISO 9506-2, DomainState): of its states, those that are reached here.
#[derive(Clone, Copy)]
pub enum DomainState {
    /// A client is loading it.
    Loading,
    /// It is loaded, and no program invocation has it.
    Ready,
    /// A program invocation has it.
    InUse,
}

impl DomainState {
    /// The state of that number, from 1 to 3.
    pub fn numbered(number: u8) -> DomainState
        requires first { 1 ≤ number }
        requires last { number ≤ 3 }
        ensures { domain_state_number result ≡ number }
    {
        match number {
            1 => DomainState::Loading,
            2 => DomainState::Ready,
            _ => DomainState::InUse,
        }
    }

    /// Its number, from 1 to 3.
    pub fn number(self) -> u8
        ensures { result ≡ domain_state_number self }
    {
        match self {
            DomainState::Loading => 1,
            DomainState::Ready => 2,
            DomainState::InUse => 3,
        }
    }
}

/// What a domain is (ISO 9506-2, GetDomainAttributes-Response).
pub struct DomainAttributes {
    /// What it may use of the device.
    pub capabilities: Texts,
    /// Where it stands.
    pub state: DomainState,
    /// Whether it can be deleted.
    pub deletable: bool,
    /// Whether several program invocations may have it at a time.
    pub sharable: bool,
    /// The names of the program invocations that have it.
    pub invocations: Identifiers,
    /// How many uploads of it are open.
    pub uploads: i8,
}

impl Drop for InitiateDownloadSequence {
    fn drop(self) {
        let InitiateDownloadSequence {
            domain: _domain,
            capabilities: _capabilities,
            sharable: _,
        } = self;
    }
}

impl Drop for Segment {
    fn drop(self) {
        let Segment {
            octets: _octets,
            more: _,
        } = self;
    }
}

impl Drop for TerminateDownloadSequence {
    fn drop(self) {
        let TerminateDownloadSequence {
            domain: _domain,
            discard: _,
        } = self;
    }
}

impl Drop for InitiateUploadSequenceAnswer {
    fn drop(self) {
        let InitiateUploadSequenceAnswer {
            number: _,
            capabilities: _capabilities,
        } = self;
    }
}

impl Drop for DomainAttributes {
    fn drop(self) {
        let DomainAttributes {
            capabilities: _capabilities,
            state: _,
            deletable: _,
            sharable: _,
            invocations: _invocations,
            uploads: _,
        } = self;
    }
}
