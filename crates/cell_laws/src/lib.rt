//! What holds of the device over all histories, where that needs more than the soundness of a state. Nothing is built
//! on it but `stress_laws`.
//!
//! - Requests that wait are the queued entries: each has an entry of its client and its invokeID, and each queued entry
//!   is such a request; no two of one client have one invokeID (`each_waiting_request_is_queued`).
//! - Each confirmed request that is taken has one answer, or waits: the outputs since the association opened are
//!   counted by their octets (`each_request_is_answered_once`). What is sent is what the outbox gains, until it is
//!   drained (`what_is_sent_is_in_the_outbox`).
//! - A token that is freed goes at that point of the event to the queued entry of least rank that wants it, or is free
//!   (`a_freed_token_is_passed_on`). Of a pool a client may own several: they are freed by the numbers of their entries
//!   (`tokens_of_a_pool_are_passed_on_in_order`).
//! - An entry loses its token for one of five causes alone: it is given back, preempted where it is hung, its control
//!   times out, its client is lost and doesn't keep it, or the semaphore goes with its association
//!   (`a_token_is_lost_for_a_cause`).
//! - No deadline of an entry is more than 2^32 - 1 milliseconds away, so a status always tells what is left
//!   (`no_deadline_is_far`).
//! - A domain that is READY or IN-USE has the segments with which the one client answered that began the last load of
//!   its name; one that is LOADING has those that came so far (`each_domain_is_what_its_client_answered`). A load ends
//!   before it is whole for four causes alone, and nothing of it stays: too many octets, an error or a reject, the loss
//!   of its client, an abort by time (`nothing_of_an_ended_load_stays`). No client is asked more than its association
//!   allows (`no_client_is_asked_too_much`).
//! - Each domain that is the scope of a name is there and isn't being loaded (`each_scope_is_live`). Each has the names
//!   of the program invocations that name it, in order of octets, and at most one where it isn't sharable
//!   (`each_domain_knows_its_programs`).
//! - The condition of each enrollment is there, the client that defined it has an association, and every evaluation
//!   lies ahead (`each_enrollment_has_its_condition_and_client`). Two ticks with nothing between are one
//!   (`time_may_be_cut_anywhere`).
//! - A client that time aborts is lost as any client is, in all tables (`an_abort_by_time_is_a_loss`). Nothing is left of
//!   an association that has ended but hung entries (`nothing_is_left_of_an_association`).
//! - Each table keeps its limit, and no name stands twice in it (`each_table_keeps_its_limit`).
//! - An entry of a journal stays as it was written until it goes for a cause (`an_entry_stays_as_it_was_written`); read
//!   on after an entry, a journal tells what comes behind it (`a_journal_is_read_on_from_an_entry`).
//! - Names that are listed on after a name are those that stood behind it (`a_name_list_is_read_on_from_a_name`).
//! - Each service asks other tables all that it uses (`each_service_asks_what_it_uses`).
//! - What the segments of an upload told is a front of its domain's octets (`an_upload_tells_a_front_of_its_domain`).
#![tactic(auto)]

mod asking;
mod conditions;
mod journals;
mod laws;
mod loads;
mod losses;
mod names;
mod programs;
mod scopes;
mod tables;
mod time;
mod uploads;

pub use asking::each_service_asks_what_it_uses;
pub use conditions::each_enrollment_has_its_condition_and_client;
pub use journals::{a_journal_is_read_on_from_an_entry, an_entry_stays_as_it_was_written};
pub use laws::{
    a_freed_token_is_passed_on, a_token_is_lost_for_a_cause, each_request_is_answered_once,
    each_waiting_request_is_queued, no_deadline_is_far, tokens_of_a_pool_are_passed_on_in_order,
    what_is_sent_is_in_the_outbox,
};
pub use loads::{
    each_domain_is_what_its_client_answered, no_client_is_asked_too_much,
    nothing_of_an_ended_load_stays,
};
pub use losses::{an_abort_by_time_is_a_loss, nothing_is_left_of_an_association};
pub use names::a_name_list_is_read_on_from_a_name;
pub use programs::each_domain_knows_its_programs;
pub use scopes::each_scope_is_live;
pub use tables::each_table_keeps_its_limit;
pub use time::time_may_be_cut_anywhere;
pub use uploads::an_upload_tells_a_front_of_its_domain;
