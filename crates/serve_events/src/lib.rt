//! The services for event conditions and event enrollments (ISO 9506-1, event management), each on the tables that hold
//! them and on the part of its client; and how clients are told of transitions. Nothing here knows of the tables of other
//! areas: what these tell is given.
#![tactic(auto)]

mod asked;
mod conditions;
mod enrolments;
mod laws;
mod moving;
mod notices;
mod others;
mod serving;
mod tables;
mod turning;

pub use asked::{cell_watched, domain_asked, names_domain, variable_asked};
pub use laws::{each_request_is_answered, what_is_enrolled_on_is_there};
pub use notices::{tell_notices, tell_turns};
pub use others::tells;
pub use serving::{finish, serve};
pub use tables::EventTables;
pub use turning::Turning;
