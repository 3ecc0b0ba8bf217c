//! The words of the command: which form of it they are.
//!
//! The words ask for exactly the command that the definition says, for every list of words, and to tell it no memory is
//! needed (`command_of`).
#![tactic(auto)]

mod options;
mod words;

pub use words::{Command, command_of};
