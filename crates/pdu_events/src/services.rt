//! Services for event conditions, event enrollments and journals by their numbers.

ghost use Rattle.pdu_events.specs.Services.{event_area};

use crate::changes::{AlterEventConditionMonitoringRequest, TriggerEventRequest};
use crate::conditions::{
    DefineEventConditionRequest, DeleteEventConditionRequest, DeleteEventConditionResponse,
    ReportEventConditionStatusRequest, ReportEventConditionStatusResponse,
};
use crate::enrollments::{
    DefineEventEnrollmentRequest, DeleteEventEnrollmentRequest, DeleteEventEnrollmentResponse,
};
use crate::journals::{
    CreateJournalRequest, DeleteJournalRequest, InitializeJournalRequest,
    InitializeJournalResponse, ReadJournalResponse, ReportJournalStatusRequest,
    ReportJournalStatusResponse, WriteJournalRequest,
};
use crate::selections::ReadJournalRequest;
use ber_core::{Element, Memory as Full, Writer};
use ber_forms::Unread;
use mms_types::{Answer, Edition, Request};
use pdu_areas::{Area, boxed, own};
use pdu_names::{Formed, Null, read_as};
use std::alloc::Global;

/// The services for event conditions, event enrollments and journals: each by its number, with its argument and its
/// result.
pub struct EventServices;

impl Area for EventServices {
    ghost area = { event_area };

    #[inline]
    fn read_request(
        alloc: Global,
        service: Element<'_>,
        edition: Edition,
    ) -> Result<Option<Request>, Unread> {
        match service.tag.number {
            47 => {
                let found = read_as::<DefineEventConditionRequest>(alloc, service, edition)?;
                Ok(Some(Request::DefineEventCondition(boxed(alloc, found)?)))
            }
            48 => Ok(Some(Request::DeleteEventCondition(read_as::<DeleteEventConditionRequest>(
                alloc, service, edition,
            )?))),
            50 => Ok(Some(Request::ReportEventConditionStatus(read_as::<
                ReportEventConditionStatusRequest,
            >(alloc, service, edition)?))),
            51 => Ok(Some(Request::AlterEventConditionMonitoring(read_as::<
                AlterEventConditionMonitoringRequest,
            >(alloc, service, edition)?))),
            52 => Ok(Some(Request::TriggerEvent(read_as::<TriggerEventRequest>(
                alloc, service, edition,
            )?))),
            57 => {
                let found = read_as::<DefineEventEnrollmentRequest>(alloc, service, edition)?;
                Ok(Some(Request::DefineEventEnrollment(boxed(alloc, found)?)))
            }
            58 => Ok(Some(Request::DeleteEventEnrollment(read_as::<DeleteEventEnrollmentRequest>(
                alloc, service, edition,
            )?))),
            65 => {
                let found = read_as::<ReadJournalRequest>(alloc, service, edition)?;
                Ok(Some(Request::ReadJournal(boxed(alloc, found)?)))
            }
            66 => Ok(Some(Request::WriteJournal(read_as::<WriteJournalRequest>(
                alloc, service, edition,
            )?))),
            67 => Ok(Some(Request::InitializeJournal(read_as::<InitializeJournalRequest>(
                alloc, service, edition,
            )?))),
            68 => Ok(Some(Request::ReportJournalStatus(read_as::<ReportJournalStatusRequest>(
                alloc, service, edition,
            )?))),
            69 => Ok(Some(Request::CreateJournal(read_as::<CreateJournalRequest>(
                alloc, service, edition,
            )?))),
            70 => Ok(Some(Request::DeleteJournal(read_as::<DeleteJournalRequest>(
                alloc, service, edition,
            )?))),
            _ => Ok(None),
        }
    }

    #[inline]
    fn put_request(out: &mut Writer, request: &Request) -> Result<bool, Full> {
        match request {
            Request::DefineEventCondition(x) => own(DefineEventConditionRequest::put_part(
                out,
                47,
                x.get(),
            )),
            Request::DeleteEventCondition(x) => own(DeleteEventConditionRequest::put_part(
                out, 48, x,
            )),
            Request::ReportEventConditionStatus(x) => {
                own(ReportEventConditionStatusRequest::put_part(out, 50, x))
            }
            Request::AlterEventConditionMonitoring(x) => {
                own(AlterEventConditionMonitoringRequest::put_part(out, 51, x))
            }
            Request::TriggerEvent(x) => own(TriggerEventRequest::put_part(out, 52, x)),
            Request::DefineEventEnrollment(x) => own(DefineEventEnrollmentRequest::put_part(
                out,
                57,
                x.get(),
            )),
            Request::DeleteEventEnrollment(x) => own(DeleteEventEnrollmentRequest::put_part(
                out, 58, x,
            )),
            Request::ReadJournal(x) => own(ReadJournalRequest::put_part(out, 65, x.get())),
            Request::WriteJournal(x) => own(WriteJournalRequest::put_part(out, 66, x)),
            Request::InitializeJournal(x) => own(InitializeJournalRequest::put_part(out, 67, x)),
            Request::ReportJournalStatus(x) => own(ReportJournalStatusRequest::put_part(
                out, 68, x,
            )),
            Request::CreateJournal(x) => own(CreateJournalRequest::put_part(out, 69, x)),
            Request::DeleteJournal(x) => own(DeleteJournalRequest::put_part(out, 70, x)),
            _ => Ok(false),
        }
    }

    #[inline]
    fn put_answer(out: &mut Writer, answer: &Answer) -> Result<bool, Full> {
        match answer {
            Answer::DefineEventCondition => own(Null::put_part(out, 47, &())),
            Answer::DeleteEventCondition(x) => own(DeleteEventConditionResponse::put_part(
                out, 48, x,
            )),
            Answer::ReportEventConditionStatus(x) => {
                own(ReportEventConditionStatusResponse::put_part(out, 50, x))
            }
            Answer::AlterEventConditionMonitoring => own(Null::put_part(out, 51, &())),
            Answer::TriggerEvent => own(Null::put_part(out, 52, &())),
            Answer::DefineEventEnrollment => own(Null::put_part(out, 57, &())),
            Answer::DeleteEventEnrollment(x) => own(DeleteEventEnrollmentResponse::put_part(
                out, 58, x,
            )),
            Answer::ReadJournal(x) => own(ReadJournalResponse::put_part(out, 65, x)),
            Answer::WriteJournal => own(Null::put_part(out, 66, &())),
            Answer::InitializeJournal(x) => own(InitializeJournalResponse::put_part(out, 67, x)),
            Answer::ReportJournalStatus(x) => own(ReportJournalStatusResponse::put_part(
                out, 68, x,
            )),
            Answer::CreateJournal => own(Null::put_part(out, 69, &())),
            Answer::DeleteJournal => own(Null::put_part(out, 70, &())),
            _ => Ok(false),
        }
    }
}
