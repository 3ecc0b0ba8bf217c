//! Jobs that take turns on few workers: each comes back at its place, made of the job that was given there.
#![tactic(auto)]

pub mod example;
mod given;
mod item;
mod order;
mod phase;
mod rule;
mod turn;
mod work;

pub use phase::{PhaseStopped, serve_phase};
pub use turn::{Step, Turn};
