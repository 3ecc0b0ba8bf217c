//! Program invocations (ISO 9506-1, program invocation management): the table of them and of their states.
//!
//! Each service is refused exactly for its first cause, those of a new one among all its domains before the next. A command
//! changes the state exactly as the table says, and tells the state that refuses. An end is never refused and takes no
//! memory; a loss changes nothing.
#![tactic(auto)]

mod command;
mod commands;
mod create;
mod invocation;
mod laws;
mod programs;

pub use command::Command;
pub use invocation::Invocation;
pub use laws::a_new_program_may_have_its_domains;
pub use programs::Programs;
