//! The association of one client (ISO 9506-1, environment and general management): its negotiation,
//! the requests of the client that wait at the server, the requests of the server that the client
//! has not answered, and what is to be sent to it.
//!
//! Negotiation tells the first cause of refusal (`outcome_of`). What the server asks has numbers that count from 1 in each
//! association and are given once. Room for what is to be sent is made before it is used.
#![tactic(auto)]

mod client_part;
mod constants;
mod negotiation;
mod unanswered;
mod waiting;

pub use client_part::{ClientPart, NotAdmitted};
pub use constants::Constants;
pub use negotiation::{Association, Negotiated, outcome_of};
pub use unanswered::Unanswered;
pub use waiting::Waiting;
