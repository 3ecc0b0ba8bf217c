//! Data and types of variables in octets, both ways (ISO 9506-2, Data and TypeSpecification).
//!
//! Both nest no deeper than 10. They are too deep exactly where all before some array or structure is of its form and that
//! one nests deeper (`tells_deep_data`, `tells_deep_types`), and malformed exactly elsewhere where the octets are none.
#![tactic(auto)]

mod data;
mod forms;
mod laws;
mod type_writing;
mod types;
mod writing;

pub use forms::{DataAlternatives, DataValue, TypeAlternatives, TypeSpecification};
pub use laws::{tells_deep_data, tells_deep_types};
