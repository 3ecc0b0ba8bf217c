//! Services for variables by their numbers.

ghost use Rattle.pdu_vars.specs.Services.{variable_area};

use crate::lists::{
    DefineNamedVariableListRequest, DeleteNamedVariableListRequest,
    DeleteNamedVariableListResponse, GetNamedVariableListAttributesRequest,
    GetNamedVariableListAttributesResponse,
};
use crate::named::{
    DefineNamedVariableRequest, DeleteVariableAccessRequest, DeleteVariableAccessResponse,
    GetVariableAccessAttributesRequest, GetVariableAccessAttributesResponse,
};
use crate::read_write::{ReadRequest, ReadResponse, WriteRequest, WriteResponse};
use ber_core::{Element, Memory as Full, Writer};
use ber_forms::Unread;
use mms_types::{Answer, Edition, Request};
use pdu_areas::{Area, own};
use pdu_names::{Formed, Null, read_as};
use std::alloc::Global;

/// The services for variables and variable lists: each by its number, with its argument and its result.
pub struct VariableServices;

impl Area for VariableServices {
    ghost area = { variable_area };

    #[inline]
    fn read_request(
        alloc: Global,
        service: Element<'_>,
        edition: Edition,
    ) -> Result<Option<Request>, Unread> {
        match service.tag.number {
            4 => Ok(Some(Request::Read(read_as::<ReadRequest>(alloc, service, edition)?))),
            5 => Ok(Some(Request::Write(read_as::<WriteRequest>(alloc, service, edition)?))),
            6 => Ok(Some(Request::GetVariableAccessAttributes(read_as::<
                GetVariableAccessAttributesRequest,
            >(alloc, service, edition)?))),
            7 => Ok(Some(Request::DefineNamedVariable(read_as::<DefineNamedVariableRequest>(
                alloc, service, edition,
            )?))),
            10 => Ok(Some(Request::DeleteVariableAccess(read_as::<DeleteVariableAccessRequest>(
                alloc, service, edition,
            )?))),
            11 => Ok(Some(Request::DefineNamedVariableList(read_as::<
                DefineNamedVariableListRequest,
            >(alloc, service, edition)?))),
            12 => Ok(Some(Request::GetNamedVariableListAttributes(read_as::<
                GetNamedVariableListAttributesRequest,
            >(alloc, service, edition)?))),
            13 => Ok(Some(Request::DeleteNamedVariableList(read_as::<
                DeleteNamedVariableListRequest,
            >(alloc, service, edition)?))),
            _ => Ok(None),
        }
    }

    #[inline]
    fn put_request(out: &mut Writer, request: &Request) -> Result<bool, Full> {
        match request {
            Request::Read(x) => own(ReadRequest::put_part(out, 4, x)),
            Request::Write(x) => own(WriteRequest::put_part(out, 5, x)),
            Request::GetVariableAccessAttributes(x) => own(
                GetVariableAccessAttributesRequest::put_part(out, 6, x),
            ),
            Request::DefineNamedVariable(x) => own(DefineNamedVariableRequest::put_part(out, 7, x)),
            Request::DeleteVariableAccess(x) => own(DeleteVariableAccessRequest::put_part(
                out, 10, x,
            )),
            Request::DefineNamedVariableList(x) => own(DefineNamedVariableListRequest::put_part(
                out, 11, x,
            )),
            Request::GetNamedVariableListAttributes(x) => own(
                GetNamedVariableListAttributesRequest::put_part(out, 12, x),
            ),
            Request::DeleteNamedVariableList(x) => own(DeleteNamedVariableListRequest::put_part(
                out, 13, x,
            )),
            _ => Ok(false),
        }
    }

    #[inline]
    fn put_answer(out: &mut Writer, answer: &Answer) -> Result<bool, Full> {
        match answer {
            Answer::Read(x) => own(ReadResponse::put_part(out, 4, x)),
            Answer::Write(x) => own(WriteResponse::put_part(out, 5, x)),
            Answer::GetVariableAccessAttributes(x) => own(
                GetVariableAccessAttributesResponse::put_part(out, 6, x),
            ),
            Answer::DefineNamedVariable => own(Null::put_part(out, 7, &())),
            Answer::DeleteVariableAccess(x) => own(DeleteVariableAccessResponse::put_part(
                out, 10, x,
            )),
            Answer::DefineNamedVariableList => own(Null::put_part(out, 11, &())),
            Answer::GetNamedVariableListAttributes(x) => own(
                GetNamedVariableListAttributesResponse::put_part(out, 12, x),
            ),
            Answer::DeleteNamedVariableList(x) => own(DeleteNamedVariableListResponse::put_part(
                out, 13, x,
            )),
            _ => Ok(false),
        }
    }
}
