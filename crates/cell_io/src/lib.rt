//! Sources and sinks of octets that count their faults, in memory and over std's readers and
//! writers, and what stands on them: whole writes, the lines of a source, and text in large pieces.
//!
//! Sources and sinks count each call that fails, and nothing else. A fault is told exactly where one more is counted, and
//! no call is tried again. Lines are those of the text; after a refusal the reader stands in the line where it stopped.
//! Text goes to a sink whole, or a prefix of it. What isn't put for want of memory leaves the text as it was.
#![tactic(auto)]

mod ends;
mod first_part;
mod gate;
mod hex;
mod in_memory;
mod laws;
mod lines;
mod outside;
mod spelled;
mod text;
mod want;
mod whole_write;

pub use ends::{Failed, Sink, Source};
pub use gate::{Gate, Open, Point};
pub use in_memory::{MemorySink, MemorySource};
pub use laws::lines_are_the_text;
pub use lines::{KEPT, Lines, MOST, Stop};
pub use outside::{StdSink, StdSource};
pub use text::Text;
pub use want::{Memory, WriteError};
pub use whole_write::write_all;
