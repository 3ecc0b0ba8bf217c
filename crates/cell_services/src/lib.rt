//! The services of the device on its tables (ISO 9506-1, the virtual manufacturing device): requests by area, with what
//! the tables of other areas tell them; a client that is lost, time that goes by, and who is told what. Nothing here
//! knows of parts that callers share.
//!
//! A request of any area is on its own table, beside the others as they are, what it is among all of them: each has
//! its crate, which serves it, and is told what other tables know (`GuardsOf`, `is_scope_used`). What changes several
//! tables or tells several clients is planned first (`planned`, `time_planned`): a plan changes nothing, and is exactly
//! what is done. Tables change as planned (`Tables::change`); where memory is wanting, which a loss alone may want, they
//! stay as they are. What is heard of a client is done on its part where no table is used (`left_of`, `hear`).
#![tactic(auto)]

mod areas;
mod clock;
mod device;
mod hearing;
mod laws;
mod others;
mod planning;
mod tables;

pub use areas::{GuardsOf, is_scope_used};
pub use clock::Clock;
pub use device::{NameTables, serve_device};
pub use hearing::{hear, left_of};
pub use laws::an_act_is_done_as_its_verdict;
pub use others::{ToldTables, also_told, happened_to, is_lossy, loss_told, told_meanwhile};
pub use planning::{Plan, planned, time_planned};
pub use tables::{CellsOf, Change, Tables};
