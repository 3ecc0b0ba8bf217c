//! Tables of named objects: values under names, in the order in which they were put in, and the names
//! of one scope in order of octets.
//!
//! Rows are found by hashing, also by a name as a client gives it, of which no key is made. The names of a scope are told
//! from the name after which a list goes on, once each (`names_stand_in_order`, `each_name_stands_once`); the row at each
//! place in order of names (`rows_stand_in_order`). How many rows have a name that a deletion selects is told, each once,
//! and the table without those that can be deleted (`Selection`).
#![tactic(auto)]

mod borrowed;
mod copying;
mod deletion;
mod index;
mod lends;
mod listing;
mod ranking;
mod table;

pub use borrowed::KeyRef;
pub use copying::{Copied, each_name_stands_once};
pub use deletion::{Deletable, Selection};
pub use listing::{Names, names_stand_in_order};
pub use ranking::rows_stand_in_order;
pub use table::{Named, Unplaced};
