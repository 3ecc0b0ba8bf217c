//! The journals of a device under their names: what their services tell and do (ISO 9506-1, journal management). Entries
//! are kept as they are spelled, and only those that are told are read back. Each service is refused or told before
//! anything changes; what changes the table takes memory before it changes it, or none.
//!
//! Entries are written all or none, with the numbers that come next, which go on after entries were removed. A read tells
//! the first 16 of those that every given condition leaves, in order, and whether more were asked for; where tags are
//! listed, of each entry its event and the variables that have one of them. A journal has at most 65,536 entries and
//! 16,777,216 octets; numbers rise, and none is greater than how many were written (`each_journal_is_sound`). A loss takes
//! the journals of the client's association, and no entry of another.
#![tactic(auto)]

mod creating;
mod formed;
mod initializing;
mod journal;
mod journals;
mod kept;
mod laws;
mod reading;
mod tags;
mod walking;
mod writing;

pub use journal::Journal;
pub use journals::Journals;
pub use laws::each_journal_is_sound;
pub use writing::Prepared;
