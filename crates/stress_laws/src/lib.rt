//! How many PDUs answer the trial: a law over the histories of contending clients. Nothing is built on it.
//!
//! Whatever bodies serve the phases of C clients and R rounds, C + 1 + R C PDUs are sent: as many as there are
//! Initiates and confirmed requests. A reject is a PDU too; that nothing is rejected isn't said here.
#![tactic(auto)]

mod laws;

pub use laws::stress_is_answered;
