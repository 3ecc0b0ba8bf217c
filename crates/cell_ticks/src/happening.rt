//! What happens on a device as time goes by.

use event_ticks::TurnTold;
use mms_types::Moment;

/// What happens.
#[derive(Drop)]
pub enum Happening {
    /// A wait for a token ends, a token is granted, or an association is aborted.
    Semaphores(sem_ticks::Happening),
    /// An event condition comes to another state, and clients are told of it.
    Turns(TurnTold),
}

/// What happens at a moment.
#[derive(Drop)]
pub struct DatedHappening {
    /// When.
    pub at: Moment,
    /// What.
    pub happening: Happening,
}
