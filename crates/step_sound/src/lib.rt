//! Laws over all states and histories of the device. Every state that a history reaches is sound.
#![tactic(auto)]

pub mod laws;

pub use laws::{a_step_is_of_the_held_parts, all_parts_are_enough, each_state_is_sound};
