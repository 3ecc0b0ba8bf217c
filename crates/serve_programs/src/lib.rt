//! The services for program invocations (ISO 9506-1, program invocation management): each on the table of them and on
//! the part of its client, and those that make and delete them on the tables of domains, too. Nothing here knows of the
//! tables of other areas.
#![tactic(auto)]

mod commands;
mod laws;
mod making;
mod serving;

pub use laws::{what_is_loaded_is_not_used, what_is_used_stays_used};
pub use serving::{make, serve};
