//! The recording by which a device tries itself: clients that contend for a variable and a
//! semaphore by random words.
//! Its configuration and its phases are values, and a phase is made when it is served.
//!
//! Each phase that is made is that of the definition, octet by octet the one spelling of its PDUs, by the random words of
//! PCG's own definition (`stress_is_heard`, `stress_is_recorded`). Whatever bodies serve them there are R + 2 phases,
//! (C + 1) * (R + 1) + 1 events and 1 + R * C confirmed requests (`stress_is_counted`).
#![tactic(auto)]

mod config;
mod counts;
mod laws;
mod phases;
mod requests;

pub use config::stress_config;
pub use counts::{count_events, count_replies, count_requests};
pub use laws::{stress_is_counted, stress_is_heard, stress_is_recorded};
pub use phases::StressPhases;
