//! A state that is cut into parts, of which a caller holds some: what an event wants of them, in stages, and what its
//! step makes of those that are held. Definitions and laws stand in `specs/`: `Cut` and `CutLaws` for any state that is
//! cut into parts, `Served`, `DeviceLaws` and `ServedLaws` for a device of tables and clients, of which an event is
//! said once. The module `example` has such a device. `Parts` are sets of parts, and `Sets` says of what they are sets.
#![tactic(auto)]

pub mod example;
mod parts;

pub use parts::{Numbers, Parts, a_set_is_one_list};
