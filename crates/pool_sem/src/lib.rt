//! A pool: tokens with names, and the entries that own one or wait for one (ISO 9506-1, semaphore management).
//!
//! A request is refused exactly where its client waits for a token of the pool or owns the one that it names; otherwise
//! it is as in `token_sem`. Each token is owned by one entry at most, or one is hung with it (`a_token_is_had_once`,
//! `no_more_are_had_than_there_are`). Where nobody has a token no entry waits that wants it or any
//! (`no_free_token_is_wanted`). A freed token goes to the queued entry of least rank that wants it
//! (`a_freed_token_is_served`).
#![tactic(auto)]

mod entries;
mod laws;
mod marks;
mod outcome;
mod pool;

pub use laws::{
    a_freed_token_is_served, a_loss_is_made_one_by_one, a_token_is_had_once,
    no_free_token_is_wanted, no_more_are_had_than_there_are,
};
pub use outcome::{PoolOutcome, TokenState};
pub use pool::PoolSem;
