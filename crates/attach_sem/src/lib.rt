//! Requests that are attached to a semaphore (ISO 9506-1, semaphore management, attachToSemaphore): each waits with its
//! entry, and is carried out when that has a token. Room is made by `reserve` alone; after it a request comes and goes
//! without memory.
//!
//! A table may have the requests of more than one semaphore: a request is known by the semaphore's name and by its
//! entry's number, and no two have both alike. When a token is freed, those that are attached are carried out one after
//! the other, in order of rank, up to the first entry that isn't attached: that is the semaphore's chain
//! (`a_chain_is_in_order_of_rank`, `a_chain_ends_with_a_take`). Of k such entries among n that wait, `chain` asks the
//! queue k + 1 times who is next, and none of these is looked for.
#![tactic(auto)]

mod chain;
mod copies;
mod laws;
mod table;
mod waiting;

pub use chain::{Chain, Numbers};
pub use laws::{a_chain_ends_with_a_take, a_chain_is_in_order_of_rank};
pub use table::{Attached, Pair};
pub use waiting::Waiting;
