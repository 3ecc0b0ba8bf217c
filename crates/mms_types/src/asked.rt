//! What the server asks of a client, and what the client answers.

use crate::{Identifier, Octets};

/// What the server asks of the client that loads a domain (ISO 9506-1, domain management).
#[derive(Clone, Copy)]
pub enum Asked {
    /// The next segment: DownloadSegment.
    Segment,
    /// That the load ends, as all segments came: TerminateDownloadSequence.
    Terminate,
    /// That the load ends, as it failed: TerminateDownloadSequence with a discard.
    Discard,
}

/// What a client answers to what the server asked of it (ISO 9506-1, domain management).
pub enum Reply {
    /// The segment: the positive answer to DownloadSegment.
    Segment {
        /// The name of the domain.
        domain: Identifier,
        /// The octets of the segment.
        octets: Octets,
        /// Whether more segments come after it.
        more: bool,
    },
    /// The load has ended: the positive answer to TerminateDownloadSequence without a discard.
    Ended {
        /// The name of the domain.
        domain: Identifier,
    },
    /// The request was answered by an error, or rejected.
    Failed {
        /// The name of the domain.
        domain: Identifier,
        /// What was asked.
        asked: Asked,
    },
}

/// What a service causes beside its answer (ISO 9506-1).
pub enum Also {
    /// The server asks something of a client.
    Ask {
        /// Of which client.
        client: u32,
        /// What it asks.
        kind: Asked,
        /// Of which domain.
        domain: Identifier,
    },
}

impl Drop for Reply {
    fn drop(self) {
        match self {
            Reply::Segment {
                domain: _domain,
                octets: _octets,
                more: _,
            } => {}
            Reply::Ended { domain: _domain } => {}
            Reply::Failed {
                domain: _domain,
                asked: _,
            } => {}
        }
    }
}

impl Drop for Also {
    fn drop(self) {
        let Also::Ask {
            client: _,
            kind: _,
            domain: _domain,
        } = self;
    }
}
