//! The top call: a recording is read, served and reported.
//!
//! `run_cell` promises how a run ends for the words, the text, the source and the sink, over the bodies by which a
//! command may serve the phases: for `run` whatever turns the workers take. `serve_alone` is what it does for `replay`:
//! it promises the same, takes no runtime, and returns. What is printed of a text, refused or not, and what is written
//! where the source fails, tells one history (`what_is_printed_has_one_history`). `stress` leaves the source as it was,
//! and writes its four lines, counted over a history that interleaves its phases.
#![tactic(auto)]

mod crew;
mod draining;
mod engine;
mod jobs;
mod last_line;
mod laws;
mod laying;
mod running;
mod server;
mod serving;
mod status;
mod stressing;
mod top;
mod workers;

pub use engine::serve_alone;
pub use laws::what_is_printed_has_one_history;
pub use status::Status;
pub use top::run_cell;
