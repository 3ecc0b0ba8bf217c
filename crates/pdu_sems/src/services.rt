//! Services for semaphores by their numbers.

ghost use Rattle.pdu_sems.specs.Services.{semaphore_area};

use crate::control::{RelinquishControlRequest, TakeControlRequest, TakeControlResponse};
use crate::definitions::{
    DefineSemaphoreRequest, DeleteSemaphoreRequest, ReportSemaphoreStatusRequest,
    ReportSemaphoreStatusResponse,
};
use crate::entries::{ReportSemaphoreEntryStatusRequest, ReportSemaphoreEntryStatusResponse};
use crate::pools::{ReportPoolSemaphoreStatusRequest, ReportPoolSemaphoreStatusResponse};
use ber_core::{Element, Memory as Full, Writer};
use ber_forms::Unread;
use mms_types::{Answer, Edition, Request};
use pdu_areas::{Area, boxed, own};
use pdu_names::{Formed, Null, read_as};
use std::alloc::Global;

/// The services for semaphores: each by its number, with its argument and its result.
pub struct SemaphoreServices;

impl Area for SemaphoreServices {
    ghost area = { semaphore_area };

    #[inline]
    fn read_request(
        alloc: Global,
        service: Element<'_>,
        edition: Edition,
    ) -> Result<Option<Request>, Unread> {
        match service.tag.number {
            19 => {
                let found = read_as::<TakeControlRequest>(alloc, service, edition)?;
                Ok(Some(Request::TakeControl(boxed(alloc, found)?)))
            }
            20 => Ok(Some(Request::RelinquishControl(read_as::<RelinquishControlRequest>(
                alloc, service, edition,
            )?))),
            21 => Ok(Some(Request::DefineSemaphore(read_as::<DefineSemaphoreRequest>(
                alloc, service, edition,
            )?))),
            22 => Ok(Some(Request::DeleteSemaphore(read_as::<DeleteSemaphoreRequest>(
                alloc, service, edition,
            )?))),
            23 => Ok(Some(Request::ReportSemaphoreStatus(read_as::<ReportSemaphoreStatusRequest>(
                alloc, service, edition,
            )?))),
            24 => Ok(Some(Request::ReportPoolSemaphoreStatus(read_as::<
                ReportPoolSemaphoreStatusRequest,
            >(alloc, service, edition)?))),
            25 => Ok(Some(Request::ReportSemaphoreEntryStatus(read_as::<
                ReportSemaphoreEntryStatusRequest,
            >(alloc, service, edition)?))),
            _ => Ok(None),
        }
    }

    #[inline]
    fn put_request(out: &mut Writer, request: &Request) -> Result<bool, Full> {
        match request {
            Request::TakeControl(x) => own(TakeControlRequest::put_part(out, 19, x.get())),
            Request::RelinquishControl(x) => own(RelinquishControlRequest::put_part(out, 20, x)),
            Request::DefineSemaphore(x) => own(DefineSemaphoreRequest::put_part(out, 21, x)),
            Request::DeleteSemaphore(x) => own(DeleteSemaphoreRequest::put_part(out, 22, x)),
            Request::ReportSemaphoreStatus(x) => own(ReportSemaphoreStatusRequest::put_part(
                out, 23, x,
            )),
            Request::ReportPoolSemaphoreStatus(x) => own(ReportPoolSemaphoreStatusRequest::put_part(
                out, 24, x,
            )),
            Request::ReportSemaphoreEntryStatus(x) => own(
                ReportSemaphoreEntryStatusRequest::put_part(out, 25, x),
            ),
            _ => Ok(false),
        }
    }

    #[inline]
    fn put_answer(out: &mut Writer, answer: &Answer) -> Result<bool, Full> {
        match answer {
            Answer::TakeControl(x) => own(TakeControlResponse::put_part(out, 19, x)),
            Answer::RelinquishControl => own(Null::put_part(out, 20, &())),
            Answer::DefineSemaphore => own(Null::put_part(out, 21, &())),
            Answer::DeleteSemaphore => own(Null::put_part(out, 22, &())),
            Answer::ReportSemaphoreStatus(x) => own(ReportSemaphoreStatusResponse::put_part(
                out, 23, x,
            )),
            Answer::ReportPoolSemaphoreStatus(x) => own(ReportPoolSemaphoreStatusResponse::put_part(
                out, 24, x,
            )),
            Answer::ReportSemaphoreEntryStatus(x) => own(
                ReportSemaphoreEntryStatusResponse::put_part(out, 25, x),
            ),
            _ => Ok(false),
        }
    }
}
