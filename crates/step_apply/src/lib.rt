//! One event on the parts of the device that are held: what it makes of them (ISO 9506-1, the virtual manufacturing
//! device).
//!
//! An event is its step on whatever parts are held, where these are all that it needs (`apply`, `apply_by`). Parts that
//! aren't held stay as they are, and without memory nothing is changed.
#![tactic(auto)]

mod applying;
mod areas;
mod domains;
mod events;
mod journals;
mod lifted;
mod opening;
mod passing;
mod placing;
mod programs;
mod serving;
mod telling;

pub use applying::{apply, apply_by, drain};
pub use opening::start_parts;
