//! A token semaphore: equal tokens, and the entries that own one or wait for one (ISO 9506-1, semaphore management).
//!
//! A request is refused exactly where its client waits or owns; it preempts, gets a token, waits or times out exactly as
//! defined. A request wants memory only where it makes an entry, and then leaves all as before. No more tokens are owned
//! or hung than there are, and where one is free no entry waits. A freed token goes to the queued entry of least rank
//! (`a_freed_token_is_served`), and no deadline comes before the first (`the_first_deadline_is_the_least`).
//!
//! `Entries` has what semaphores of equal tokens and pools do alike: who is served with a token that is freed, what ends
//! a wait or a time of control, and what a lost client leaves. It keeps a row of `sem_queue` for each entry that waits
//! or has a deadline, so that one on which none does has no rows there.
#![tactic(auto)]

pub mod entries;
mod entry;
mod laws;
mod sem;
mod table;

pub use entry::{
    Ask, Deadline, Expired, Grant, LostOne, NotOwner, SemEntry, SemState, TakeOutcome, TakeRefused,
    Taken,
};
pub use laws::{
    a_freed_token_is_served, a_loss_is_made_one_by_one, the_first_deadline_is_the_least,
};
pub use sem::TokenSem;
pub use table::Entries;
