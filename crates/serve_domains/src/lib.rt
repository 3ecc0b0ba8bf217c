//! The services for domains (ISO 9506-1, domain management), and what clients answer to the server's: each on the
//! tables of domains and uploads and on the part of its client. Nothing here knows of the tables of other areas: what
//! these tell is given.
#![tactic(auto)]

mod attributes;
mod deleting;
mod download;
mod laws;
mod numbers;
mod replies;
mod scopes;
mod serving;
mod tables;
mod upload;

pub use laws::{what_is_asked_is_loaded, what_is_asked_stays_loaded};
pub use numbers::{lacks_number, reply_lacks_number};
pub use replies::reply;
pub use scopes::scope_asked;
pub use serving::serve;
pub use tables::DomainTables;
