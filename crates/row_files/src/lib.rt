//! The files of rows: recordings with the reports that they must have, as docs/ROWS.md says how they are written, and the
//! history that a report tells. The program `cell_rows` runs them. Of what is read here it is proved alone that it is
//! safe and returns: it is a part of a test, and nothing of the device stands on it.
#![tactic(auto)]

mod history;
mod number;
mod row;
mod row_file;
mod shorthand;
mod steps;

pub use history::{by_actors, recorded, refusal};
pub use row::{Limits, Row};
pub use row_file::rows_of;
pub use shorthand::Shorthands;
