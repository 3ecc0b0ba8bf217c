//! The services for journals (ISO 9506-1, journal management): each on the table of them and on the part of its client.
//! Nothing here knows of the tables of other areas.
#![tactic(auto)]

mod asked;
mod entries;
mod laws;
mod making;
mod serving;

pub use asked::{domain_asked, names_domain};
pub use laws::each_request_is_answered;
pub use serving::serve;
