//! Event enrollments (ISO 9506-1, event management): who is told of which transitions of which event conditions.
//!
//! A notice goes to each enrollment on the condition that has the bit of the transition, in the order of definition, and to
//! no other. Both names stand as the enrollment's own client gives them (`notices_are_in_their_clients_words`). A deletion
//! by names reaches everybody's enrollments and counts each missing name once; one by a condition reaches the client's own
//! alone. With a condition all on it go, with a client its own, whatever their names. What stays keeps its order, and
//! deletions take no memory.
#![tactic(auto)]

mod defining;
mod deleting;
mod enrolment;
mod enrolments;
mod going;
mod group;
mod laws;
mod naming;
mod notices;

pub use deleting::Deletion;
pub use enrolment::Enrolment;
pub use enrolments::Enrolments;
pub use laws::notices_are_in_their_clients_words;
