//! The device (ISO 9506-1, the virtual manufacturing device), in two forms over one step. `Whole` is the device as one
//! thread serves it: it holds all parts, and serves events one after the other. `Device` is the device of many callers,
//! the cell itself and its clients: each serves its own events by a pass of its own, on the parts that they want, and
//! all events have one history. Jobs of its actors take turns on it in a pool of workers.
//!
//! Of `Whole` each event that is served is one step, its answer the place in the history; without memory all is as
//! before.
//!
//! Of `Device` a call that answers a ticket has committed its event once, under its caller's number, and nothing of the
//! pass has changed beside. What a client takes is what the history before that place has for it; a drain takes no
//! memory. A call is busy only where it lost a claim, once, to another caller, on a part that the event wants in the
//! state to which the history leads that the pass then knows. After that, and without memory, nothing of the pass has
//! changed but what it knows of others. Passes that gather know the same places, and the parts at the end are those of
//! the state to which the longest history leads.
//!
//! A turn of a job (`CellTurns`) serves its first event that is left, exactly where it answers `Moved`. It is done
//! exactly where none was left, and held up exactly where a claim was lost.
#![tactic(auto)]

mod answers;
mod giving;
mod many;
mod serving;
mod stepping;
mod taking;
mod turns;
mod whole;

pub use answers::{Busy, Refused, Served, Unclosed};
pub use many::Device;
pub use turns::{CellJob, CellTurns, Tickets};
pub use whole::{Drained, Whole};
