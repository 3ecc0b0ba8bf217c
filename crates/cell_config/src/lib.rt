//! The configuration of a cell: a TOML document, the rules that it keeps, and what it says.
//!
//! A TOML text is a configuration, which keeps all rules and says what the document says; or it breaks a rule, of which the
//! least is told. Each exactly where it is so (`read_config`). In a configuration each cell has a number of its own and a
//! value of its type, each variable a name of its own and a cell, and each pool a name of its own and 1 to 256 tokens, none
//! twice.
#![tactic(auto)]

mod cells;
mod config;
mod keys;
mod names;
mod numbers;
mod pools;
mod read;
mod rows;
mod table;
mod texts;
mod variables;

pub use config::{BadConfig, Config};
pub use read::read_config;
