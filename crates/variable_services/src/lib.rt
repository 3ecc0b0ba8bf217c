//! The services for variables and variable lists on the tables that hold them (ISO 9506-2, variable access). Each is
//! refused or answered before anything changes; what changes the tables takes memory before it changes them, or none.
//! `serve_variables` has the same services with the part of the client that asks.
//!
//! Each service is refused exactly for its first cause, and answers else. A write tells and does what the guards that its
//! client owns say. What changes the tables changes them as defined, with no memory or all as before.
#![tactic(auto)]

mod access;
mod deleting;
mod listing;
mod tables;

pub use deleting::delete_cause;
pub use tables::VariableTables;
