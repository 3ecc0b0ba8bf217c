//! The device's state, the parts that it is cut into, its step on those that are held, and what these show (ISO 9506-1,
//! the virtual manufacturing device).
#![tactic(auto)]

mod cell;
pub mod held;
mod part;
pub mod slots;
pub mod tables;

pub use cell::Cell;
pub use part::Part;
pub use tables::clients_of;
