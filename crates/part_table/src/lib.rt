//! Any object that is cut into parts, of which a caller holds some: what a step of such an object is,
//! the hand that holds parts, and a table of the parts that many callers share.
//!
//! Whatever turns the callers of a table take, there is one history of their events, and what a caller holds is what the
//! object has there after it, replayed from its start. Each caller's places are its own, and it knows all events that it
//! made (`a_caller_knows_its_own_events`). A commit adds one event, of a caller who may make it and holds all that it
//! touches (`a_step_changes_held_parts_alone`). Passes that gather know the same places, and a table closes with the parts
//! after the longest history.
#![tactic(auto)]

mod closing;
pub mod example;
mod hand;
mod laws;
mod lends;
mod lines;
mod meeting;
mod memory;
mod object;
mod pass;
mod plays;
mod steps;
mod table;
mod view;

pub use closing::Unclosed;
pub use hand::Hand;
pub use laws::{a_caller_knows_its_own_events, a_step_changes_held_parts_alone};
pub use memory::{Held, Memory};
pub use object::Object;
pub use pass::{
    Pass, a_pass_has_a_place_for_each_part, a_pass_has_its_parts_in_order,
    a_pass_knows_its_own_places,
};
pub use table::PartTable;
