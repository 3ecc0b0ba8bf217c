//! The forms of the association's PDUs and of Status, GetNameList and Identify, both ways (ISO 9506-2): each is a
//! type for `pdu_names::read_form`, `write_form` and `spells_each`.
//!
//! The errors that the server answers are of the form (`errors_are_of_the_form`).
#![tactic(auto)]

mod errors;
mod heard;
mod initiate;
mod name_list;
mod reject;
mod services;
mod status;

pub use errors::{
    CancelErrors, ConfirmedErrors, ErrorClasses, ServiceErrors, StateKinds, errors_are_of_the_form,
};
pub use heard::{HeardErrors, read_heard_reject};
pub use initiate::{Detail, InitiateRequest, InitiateResponse};
pub use name_list::{Classes, GetNameListRequest, GetNameListResponse, Scopes};
pub use reject::{Reasons, Rejects};
pub use services::DeviceServices;
pub use status::{IdentifyResponse, StatusRequest, StatusResponse};
