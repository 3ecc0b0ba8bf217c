//! What clients do on the tables.

use crate::Came;
use mms_types::Request;

/// What a client does on the tables that its part alone doesn't settle: by what it sends, or by being lost.
#[derive(Clone, Copy)]
pub enum Act<'a> {
    /// Its request of that invokeID is served.
    Request { invoke: u32, asked: &'a Request },
    /// It answers the server's request of that number, which is of a load.
    Reply { number: u32, answer: Came<'a> },
    /// Its request of that invokeID is answered, and its association is aborted: no number is left for what would be asked
    /// of it.
    Exhausts { invoke: u32 },
    /// Its conclusion is granted.
    Conclusion,
    /// Its request of that invokeID, which waits, is cancelled.
    Cancel { invoke: u32 },
    /// Its association is aborted by a proposal.
    Abort,
    /// It is lost.
    Loss,
}
