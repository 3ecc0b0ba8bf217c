//! What time does to event conditions and enrollments.

use mms_types::{Moment, Notices, Turned};

/// A client is lost at a moment.
#[derive(Clone, Copy)]
pub struct Loss {
    /// When it is lost.
    pub at: Moment,
    /// The client.
    pub client: u32,
}

/// A transition of an event condition, and who is told of it.
#[derive(Drop)]
pub struct TurnTold {
    /// The transition.
    pub turned: Turned,
    /// Who is told, in order.
    pub notices: Notices,
}
