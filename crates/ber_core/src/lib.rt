//! The basic encoding rules: elements from octets and back (ITU-T X.690, clause 8).
//!
//! The reader gives exactly the elements that the octets hold, with definite lengths alone or with either kind, and each
//! refusal exactly where it applies. The writer appends the one shortest spelling. Spellings are read back, are the
//! shortest, say one value, and none begins another; what has definite lengths is read with either as the same, and what
//! is read with either has a spelling with definite lengths (`laws`).
#![tactic(auto)]

mod element;
mod fault;
mod laws;
mod leaf;
mod reader;
mod writer;

pub use element::{Bits, Element, Lengths, Tag};
pub use fault::{BerError, Memory};
pub use laws::{
    begins_no_other, reads_definite_lengths, reads_the_element, says_one_number, says_one_part,
    spells_an_element, spells_anew, spells_the_number, spells_the_shortest,
};
pub use leaf::{bits, boolean, integer};
pub use reader::{Reader, first_element};
pub use writer::Writer;
