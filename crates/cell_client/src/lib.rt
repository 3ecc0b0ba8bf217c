//! A client of the device (ISO 9506-1, environment and general management): what its octets come to, its part, what it is
//! told, and how that is spelled. Nothing here knows of the tables of the device.
//!
//! What octets come to, a verdict, is told exactly (`verdict_of`); the octets of an event are read once, by the edition of
//! its client (`read_event`). What the part becomes by what it hears and is told, what it is told of a request that its row
//! alone answers, and what is left to be done on the tables, are told exactly; without memory the part stays as it is
//! (`Client`).
#![tactic(auto)]

mod acts;
mod client;
mod plain;
mod reading;
mod spelling;
mod told;
mod verdict;

pub use acts::Act;
pub use client::{Client, size_of};
pub use plain::{STATUS, identity};
pub use reading::{Reading, read, read_event, wants_memory};
pub use spelling::{
    answer_octets, answer_within, cancel_response, conclude_error, conclude_response, notification,
    refusal,
};
pub use told::{ClientTold, one_told};
pub use verdict::{AtOnce, Came, Found, verdict_of};
