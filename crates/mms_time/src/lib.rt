//! The semaphores of a device under their names, of equal tokens and pools, with what their services do on them, and
//! the deadlines of all of them (ISO 9506-1, semaphore management).
//!
//! Each service is refused exactly for its first cause. Otherwise it tells its answer, the entry in which the client
//! waits, or who is granted the token; and nothing has changed yet. What changes the table takes memory before it
//! changes it, or none, and comes to what was told (`a_take_is_as_told`, `a_grant_is_as_told`).
//!
//! - The tokens of a pool are told in order of octets, each as free, owned or hung.
//! - The answer to who is granted a token names it where a pool was asked for any (`grant_answer`).
//! - A client owns a guard exactly where it has an owner entry of the VMD's semaphore of that name (`owns_guard`).
//! - The next deadline is the least of all, by moment, kind, name and number (`next_due`). Whether one is due is told
//!   exactly. While the moment that is kept lies ahead, no semaphore is asked (`is_due`, `comes_due`).
//! - A lost client's queued entries go, then its owner entries, by name and number. Who is granted a token is told in
//!   that order (`lose_told`, `lose`).
//! - Every semaphore of the table is sound at any time (`each_semaphore_is_sound`).
#![tactic(auto)]

mod defining;
mod due;
mod guards;
mod laws;
mod lends;
mod losing;
mod opening;
mod row;
mod status;
mod table;
mod taking;
mod tokens;

pub use defining::{
    define_semaphore, define_semaphore_cause, delete_semaphore, delete_semaphore_cause,
};
pub use due::{Due, expire, next_due};
pub use guards::owns_guard;
pub use laws::{
    a_grant_is_as_told, a_take_is_as_told, a_take_is_entered, each_semaphore_is_sound,
    the_next_deadline_is_the_least,
};
pub use losing::{lose, lose_told};
pub use opening::configured;
pub use row::{Semaphore, SemaphoreRow};
pub use status::{
    report_pool_semaphore_status, report_semaphore_entry_status, report_semaphore_status,
};
pub use table::Semaphores;
pub use taking::{
    TakeDone, cancel_take, relinquish_control, relinquish_control_told, take_control,
    take_control_told,
};
pub use tokens::grant_answer;
