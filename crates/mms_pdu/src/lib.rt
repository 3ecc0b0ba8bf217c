//! Whole PDUs in octets, both ways (ISO 9506-2, MMSpdu), and the order in which what a client sends is refused.
//!
//! What octets a client sends are, a PDU or a refusal, is told exactly, and a refusal exactly where its cause is the first
//! that holds of the octets (`read_pdu`; `hears_each_form`, `refusals_have_the_first_cause`). Each PDU is written in its
//! one spelling. Requests by a client are read back, say one PDU, and none begins another (`spells_each_asking`); what a
//! server sends says one PDU as well (`spells_each_sent`). Octets alone tell whether they answer a request, and of which
//! invokeID (`an_answer_is_told_by_its_octets`). Edition 2 keeps what edition 1 keeps
//! (`edition_2_keeps_what_edition_1_keeps`), and of an element the same as with definite lengths alone
//! (`keeps_the_same_with_definite_lengths`).
#![tactic(auto)]

mod depth;
mod laws;
mod modified;
mod reading;
mod refusal;
mod request;
mod response;
mod writing;

pub use ber_core::Writer;
pub use laws::{
    an_answer_is_told_by_its_octets, edition_2_keeps_what_edition_1_keeps, hears_each_form,
    hears_what_the_octets_are, keeps_the_same_with_definite_lengths, refusals_have_the_first_cause,
    spells_each_asking, spells_each_sent,
};
pub use mms_types::{Edition, Memory, Pdu};
pub use reading::{Read, read_pdu, read_pdu_to};
pub use refusal::{Refusal, reject_for};
pub use writing::{
    put_answer, put_cancel_error, put_cancel_response, put_conclude_error, put_conclude_response,
    put_confirmed_error, put_event_notification, put_initiate_error, put_initiate_response,
    put_pdu, put_reject, put_server_request, write_pdu,
};
