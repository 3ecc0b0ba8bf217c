//! Domains, as clients load them and program invocations have them (ISO 9506-1, domain management): the table of them
//! and their segments.
//!
//! A load begins exactly where nothing stands against it. The client's answers do to it exactly what is defined: a segment
//! is appended whole, and more are asked for or the end of the load. Where the octets would be more than 1,048,576, or the
//! client refuses, the domain is gone, and a discard is asked for where it has to be. READY comes by the answer to the end
//! alone. Want of memory, the one refusal of an answer, leaves all as before. A piece of a domain is the octets from a
//! place on, in a time that doesn't grow with the segments.
#![tactic(auto)]

mod domain;
mod domains;
mod invocations;
mod laws;
mod loading;
mod segments;
mod sorted;
mod store;
mod used;

pub use domain::Domain;
pub use domains::Domains;
pub use invocations::Invocations;
pub use laws::{
    a_deleted_domain_is_gone, a_load_begins_empty, a_load_goes_on_as_asked,
    a_loaded_domain_is_what_came, a_lost_client_loads_nothing,
};
pub use segments::Segments;
pub use sorted::{comes_after, copied_names, put_name};
