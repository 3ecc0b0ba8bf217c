//! The services for semaphores (ISO 9506-1, semaphore management), each on the semaphores and on the part of its
//! client. Nothing here knows of the tables of other areas: what these tell is given.
//!
//! A request is refused for its first cause, or answered and done, or refused where the answer is too long; without
//! memory the semaphores and the client's part are as before (`serve`). A token that is given back and granted tells a
//! second client. Then nothing changes at first: what is told to whom is left to be done, the client's own answer
//! first, and `finish` changes the semaphores without memory. Which domain is named (`names_domain`) and who else is
//! told something (`tells`) are told exactly.
#![tactic(auto)]

mod back;
mod cancelling;
mod defining;
mod domains;
mod granting;
mod laws;
mod others;
mod serving;
mod status;
mod take;

pub use cancelling::cancel;
pub use domains::{domain_asked, names_domain};
pub use granting::{tell_grant, tell_grants};
pub use laws::a_request_tells_its_client_alone;
pub use others::tells;
pub use serving::{finish, serve};
