//! Lists of variables under names (ISO 9506-1, named variable list).
//!
//! A list keeps its variables as they were given. A new name is refused for its first cause; a deletion is as that of
//! variables.
#![tactic(auto)]

mod lists;
mod row;

pub use lists::Lists;
pub use row::VariableList;
