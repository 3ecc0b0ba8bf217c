//! The entries of a semaphore by rank and by deadline: who is served first, and which deadline is met first
//! (ISO 9506-1, semaphore management).
//!
//! `Ranks` is seen as a list of rows in order of number. Inside, the rows lie in a slab, and their keys stand in three
//! orders: by number, by rank in the list of the token that is wanted, and by deadline. Room is made by `reserve` alone;
//! after it a row comes and goes without memory.
//!
//! `find` counts the rows that it looks at: of n rows, 2 to that number is at most 2n + 1. That each look is counted is
//! seen in the code, where one function looks and counts; no clause says it. `attach_sem` alone calls `after`, and
//! nothing `find`: `insert` and `remove` search by the same loop, and have no bound.
//!
//! Who is served first is exactly the row that wants the token and that none that wants it comes before
//! (`the_least_is_served_first`); which deadline is first is told likewise (`the_first_deadline_is_the_least`).
#![tactic(auto)]

mod keys;
mod laws;
mod order;
mod ranks;
mod row;
mod served;
mod steps;

pub use laws::{the_first_deadline_is_the_least, the_least_is_served_first};
pub use ranks::Ranks;
pub use row::{Due, Row};
pub use served::Served;
pub use steps::Steps;
