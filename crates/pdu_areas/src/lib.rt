//! Areas of services, as they are read and written: what an area has to say of its services, and what then holds of
//! any list of areas.
#![tactic(auto)]

mod area;

pub use area::{Area, boxed, own};
