//! Time goes by for the semaphores of a device (ISO 9506-1, TakeControl): every deadline up to a moment is met at its
//! own moment, one after the other, also those that arise meanwhile.
//!
//! What happens is told in its order: waits that end, tokens that are granted, clients whose association is aborted.
//! The semaphores that are given stay as they are, until what has become of them is put into their table, which takes
//! no memory (`Renewed::put`). Who is granted a token, where one is given back or a client is lost, is told with the
//! answer to its request (`Granted`).
//!
//! Laws: two ticks with nothing between are one. Whatever happens has its moment, in order, and nothing happens before
//! the next deadline. Whatever a request, a cancel, a loss or time does, every deadline lies ahead and every semaphore
//! is sound: no token is owned twice, and no free token is waited for.
#![tactic(auto)]

mod drafts;
mod granted;
mod laws;
mod losing;
mod meeting;
mod renewed;
mod ticks;

pub use granted::{Granted, lose_told, relinquish_told};
pub use laws::{
    a_tick_meets_what_comes_next, every_deadline_lies_ahead, the_semaphores_stay_sound,
    two_ticks_are_one, what_happens_has_its_moment,
};
pub use renewed::Renewed;
pub use ticks::{DatedTicked, Happening, Ticked, tick, tick_dated};
