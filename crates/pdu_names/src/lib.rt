//! Forms of contents as types, with all that is said of every form, and the forms that the crates of PDUs share:
//! leaves, identifiers and names of objects (ISO 9506-2, Identifier and ObjectName).
//!
//! Of each form a reader answers the value exactly where the octets are of the form, and is malformed exactly elsewhere
//! (`read_form`). A writer appends the one spelling, or nothing (`write_form`). Spellings are read back, say one value, and
//! none begins another (`spells_each`).
#![tactic(auto)]

mod edition;
mod formed;
mod identifier;
mod laws;
mod leaves;
mod listed;
mod name;
mod own;
mod parts;
mod whole;

pub use edition::{cursor, lengths};
pub use formed::Formed;
pub use laws::spells_each;
pub use leaves::{
    ApplicationReference, Boolean, Null, OctetString, Signed32, Unsigned32, VisibleString,
};
pub use listed::{AnyNumber, Count, InSequence, ListOf, Within};
pub use name::Name;
pub use own::{Chosen, OneOf, Own, put_each, read_as, read_each};
pub use parts::{optional, put_optional, required};
pub use whole::{as_memory, read_form, write_form};
