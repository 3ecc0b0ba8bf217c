//! The services for variables and their lists (ISO 9506-1, variable access), each on the tables that hold them and on
//! the part of its client. Nothing here knows of the tables of other areas: what these tell is given.
//!
//! A request is refused for its first cause, or answered and done, or refused where the answer is too long; without memory
//! the tables and the client's part are as before (`serve`). Which domain is named, and what else is asked of other tables,
//! is told exactly.
//!
//! - serve_variables: which guards are asked for (`is_guarded`).
//! - serve_domains: what a client answers to the server is done so too: its load goes on or ends, and it is asked for what
//!   comes next (`reply`). Whether a number is left for what would be asked is told (`lacks_number`, `reply_lacks_number`).
//! - serve_events: what tells clients of transitions changes nothing at first: what is told to whom is left to be done, the
//!   client's own answer first, and `finish` changes the tables without memory.
#![tactic(auto)]

mod attributes;
mod defining;
mod deleting;
mod domains;
mod guarding;
mod reading;
mod serving;
mod writing;

pub use domains::{domain_asked, names_domain};
pub use guarding::is_guarded;
pub use serving::serve;
