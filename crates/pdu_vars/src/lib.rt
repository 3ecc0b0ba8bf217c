//! The forms of the services for variables and variable lists, in octets, both ways (ISO 9506-2, variable access):
//! Read, Write, GetVariableAccessAttributes, DefineNamedVariable, DeleteVariableAccess, DefineNamedVariableList,
//! GetNamedVariableListAttributes and DeleteNamedVariableList. A definition is answered by `pdu_names::Null`.
//!
//! A request or an answer is too deep exactly where all before some data or type is of its form and that one nests deeper
//! than 10, and malformed exactly elsewhere where the contents are of no form.
#![tactic(auto)]

mod lists;
mod named;
mod read_write;
mod results;
mod services;
mod variables;

pub use lists::{
    DefineNamedVariableListRequest, DeleteNamedVariableListRequest,
    DeleteNamedVariableListResponse, GetNamedVariableListAttributesRequest,
    GetNamedVariableListAttributesResponse,
};
pub use named::{
    DefineNamedVariableRequest, DeleteVariableAccessRequest, DeleteVariableAccessResponse,
    GetVariableAccessAttributesRequest, GetVariableAccessAttributesResponse,
};
pub use read_write::{ReadRequest, ReadResponse, WriteRequest, WriteResponse};
pub use results::{AccessResultAlternatives, WriteResultAlternatives};
pub use services::VariableServices;
pub use variables::{AccessSpecification, Addresses, ListedVariable, Specification, Variables};
