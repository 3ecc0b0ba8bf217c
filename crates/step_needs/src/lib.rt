//! Which parts an event needs, by its words and by the held parts alone; what octets come to, found once.
#![tactic(auto)]

mod asks;
mod heard;
mod needs;
mod time;

pub use needs::{footprint, need, need_by, verdict};
