//! The recording, read phase by phase, and the report, written phase by phase.
#![tactic(auto)]

mod counts;
mod cut;
mod digits;
mod event_line;
mod laws;
mod numbered;
mod opening;
mod phase_lines;
mod recording;
mod refusal;
mod report;
mod said;
mod told;
mod words;

pub use cell_io::WriteError;
pub use laws::{
    a_report_has_one_history, a_report_so_far_has_one_history, a_text_tells_a_configuration,
    phases_end_before_the_refusal, recordings_are_read, refusals_are_the_first,
};
pub use recording::{Phase, Recording};
pub use refusal::{BadWord, RecordError};
pub use report::write_phase;
pub use told::{ClientOutputs, PlacedEvents, Told};
