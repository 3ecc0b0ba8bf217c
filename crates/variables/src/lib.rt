//! The variables of a device: cells, which have an address, and the names that they are given (ISO 9506-1, variable
//! access).
//!
//! Each variable that is read tells its data, or that it is missing. Data are written one after the other, each where the
//! cell has no guard or the client owns it, and where it is of the cell's type, and a later one sees what an earlier one
//! did. Which guard each variable has, and whether any has one, is told exactly. A new name is refused for its first cause.
//! Of a deletion configured names are counted and stay; a lost client's names go. Without memory all is as before.
#![tactic(auto)]

mod access;
mod defining;
mod deleting;
mod opening;
mod rows;
mod truth;
mod updating;
mod vars;

pub use rows::{NewValue, NewValues, StoredCell, Variable};
pub use updating::OwnsGuards;
pub use vars::Vars;
