//! Time goes by for a device: the deadlines of its semaphores and the evaluations of its event conditions are met, each
//! at its own moment, one after the other, also those that arise meanwhile, and what happens is told in order (ISO
//! 9506-1, semaphore management and event management).
//!
//! Of one moment control time-outs are met first, then acceptable delays, then evaluations. A client that is aborted is
//! lost before the evaluations of that moment, and after those of earlier ones. What becomes of the device is found
//! before anything changes (`tick_told`), and to put it into place takes no memory (`DeviceTicked::put`).
//!
//! Laws: a tick has two parts (`a_tick_has_two_parts`). The semaphores' part is what it is without conditions, the
//! events' part what it is with the aborts as losses; what happens is both by moments, the semaphores' first. After a
//! tick every deadline lies ahead, two ticks with nothing between are one, and no deadline comes before the next one.
#![tactic(auto)]

mod due;
mod happening;
mod laws;
mod merging;
mod ticking;

pub use due::{EVALUATION, is_due, next_due};
pub use happening::{DatedHappening, Happening};
pub use laws::{
    a_tick_has_two_parts, a_tick_meets_what_comes_next, every_deadline_lies_ahead,
    the_device_stays_sound, the_next_deadline_is_the_least, two_ticks_are_one,
};
pub use ticking::{DeviceTicked, tick, tick_told};
