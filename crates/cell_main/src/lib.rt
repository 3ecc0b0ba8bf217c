//! What the program does: its words, standard input, output and error, and its exit status.
//!
//! The process ends with the status of `run_cell` for the words after the program's name (`run_words`). Of `program`
//! itself the clause says that the status fits some words, input and output, since nothing is known of those that std
//! gives. A word that isn't UTF-8 is no form of the command. Without memory for the words nothing is read or written,
//! and the status is 3. What is told on standard error is exactly the line of that status, or a prefix of it where that
//! fails too (`tell`, `failure`).
#![tactic(auto)]

mod told;
mod top;
mod words;

pub use told::{failure, tell};
pub use top::{program, run_words, serve_words};
pub use words::{Words, after_name};
