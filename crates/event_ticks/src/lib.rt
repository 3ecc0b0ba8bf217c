//! Time goes by for the event conditions and enrollments of a device: every evaluation up to a moment is made at its
//! own moment, clients are lost meanwhile, and what is told of it, in order (ISO 9506-1, event management).
//!
//! The least evaluation of all is met at its moment, by names of one moment and after the losses of that moment, again and
//! again up to the end (`a_tick_meets_what_comes_next`). It comes to the same where each condition is met at its first
//! evaluation alone (`evaluations_are_skipped`). After a tick every evaluation lies ahead, two ticks with nothing between
//! are one, and the evaluations of two conditions commute. What is told is found before anything changes, and the change
//! takes no memory.
#![tactic(auto)]

mod laws;
mod losing;
mod ticking;
mod ticks;

pub use laws::{
    a_tick_meets_what_comes_next, evaluations_are_skipped, evaluations_commute,
    every_evaluation_lies_ahead, the_conditions_stay_sound, two_ticks_are_one,
};
pub use ticking::{tick, tick_told};
pub use ticks::{Loss, TurnTold};
