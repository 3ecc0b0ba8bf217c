//! Uploads of domains: clients get the octets of a domain in pieces (ISO 9506-1, domain management).
//!
//! Numbers count for the device and are given once (`numbers_are_given_once`). A piece has the octets that come next, as
//! many as the size allows, and more follow unless all are sent with it; so pieces one after the other are the octets of
//! the domain (`pieces_are_the_octets`). What is told of an upload is what becomes of it (`what_is_told_is_done`). The
//! domain of each open upload is there and not LOADING, whatever is done to uploads or to domains
//! (`uploads_keep_their_domains`, `domains_keep_their_uploads`).
#![tactic(auto)]

mod initiate;
mod laws;
mod pieces;
mod segment;
mod upload;
mod uploads;

pub use laws::{
    domains_keep_their_uploads, numbers_are_given_once, pieces_are_the_octets,
    uploads_keep_their_domains, what_is_told_is_done,
};
pub use upload::Upload;
pub use uploads::Uploads;
