//! Services for domains and for program invocations by their numbers: those that clients ask, and those that the server
//! asks.

ghost use Rattle.std.specs.Prelude.{false};
ghost use Rattle.pdu_programs.specs.Services.{domain_area, program_area, server_requests, server_requests_sound, client_answers, client_answers_sound};

use crate::attributes::{
    DeleteDomainRequest, GetDomainAttributesRequest, GetDomainAttributesResponse,
};
use crate::download::{
    DownloadSegmentResponse, InitiateDownloadSequenceRequest, TerminateDownloadSequenceRequest,
};
use crate::invocations::{
    CreateProgramInvocationRequest, DeleteProgramInvocationRequest,
    GetProgramInvocationAttributesRequest, GetProgramInvocationAttributesResponse, KillRequest,
    ResetRequest, ResumeRequest, StartRequest, StopRequest,
};
use crate::upload::{
    InitiateUploadSequenceRequest, InitiateUploadSequenceResponse, TerminateUploadSequenceRequest,
    UploadSegmentRequest, UploadSegmentResponse,
};
use ber_core::{Element, Memory as Full, Tag, Writer};
use ber_forms::{Unread, has_tag};
use mms_types::{Answer, ClientAnswer, Edition, Identifier, Request, ServerRequest};
use pdu_areas::{Area, own};
use pdu_names::{Chosen, Formed, Null, read_as};
use std::alloc::Global;

/// The services for domains that clients ask: each by its number, with its argument and its result.
pub struct DomainServices;

impl Area for DomainServices {
    ghost area = { domain_area };

    #[inline]
    fn read_request(
        alloc: Global,
        service: Element<'_>,
        edition: Edition,
    ) -> Result<Option<Request>, Unread> {
        match service.tag.number {
            26 => Ok(Some(Request::InitiateDownloadSequence(read_as::<
                InitiateDownloadSequenceRequest,
            >(alloc, service, edition)?))),
            29 => Ok(Some(Request::InitiateUploadSequence(read_as::<InitiateUploadSequenceRequest>(
                alloc, service, edition,
            )?))),
            30 => Ok(Some(Request::UploadSegment(read_as::<UploadSegmentRequest>(
                alloc, service, edition,
            )?))),
            31 => Ok(Some(Request::TerminateUploadSequence(read_as::<
                TerminateUploadSequenceRequest,
            >(alloc, service, edition)?))),
            36 => Ok(Some(Request::DeleteDomain(read_as::<DeleteDomainRequest>(
                alloc, service, edition,
            )?))),
            37 => Ok(Some(Request::GetDomainAttributes(read_as::<GetDomainAttributesRequest>(
                alloc, service, edition,
            )?))),
            _ => Ok(None),
        }
    }

    #[inline]
    fn put_request(out: &mut Writer, request: &Request) -> Result<bool, Full> {
        match request {
            Request::InitiateDownloadSequence(x) => own(InitiateDownloadSequenceRequest::put_part(
                out, 26, x,
            )),
            Request::InitiateUploadSequence(x) => own(InitiateUploadSequenceRequest::put_part(
                out, 29, x,
            )),
            Request::UploadSegment(x) => own(UploadSegmentRequest::put_part(out, 30, x)),
            Request::TerminateUploadSequence(x) => own(TerminateUploadSequenceRequest::put_part(
                out, 31, x,
            )),
            Request::DeleteDomain(x) => own(DeleteDomainRequest::put_part(out, 36, x)),
            Request::GetDomainAttributes(x) => own(GetDomainAttributesRequest::put_part(
                out, 37, x,
            )),
            _ => Ok(false),
        }
    }

    #[inline]
    fn put_answer(out: &mut Writer, answer: &Answer) -> Result<bool, Full> {
        match answer {
            Answer::InitiateDownloadSequence => own(Null::put_part(out, 26, &())),
            Answer::InitiateUploadSequence(x) => own(InitiateUploadSequenceResponse::put_part(
                out, 29, x,
            )),
            Answer::UploadSegment(x) => own(UploadSegmentResponse::put_part(out, 30, x)),
            Answer::TerminateUploadSequence => own(Null::put_part(out, 31, &())),
            Answer::DeleteDomain => own(Null::put_part(out, 36, &())),
            Answer::GetDomainAttributes(x) => own(GetDomainAttributesResponse::put_part(
                out, 37, x,
            )),
            _ => Ok(false),
        }
    }
}

/// The services for program invocations: each by its number, with its argument and its result.
pub struct ProgramServices;

impl Area for ProgramServices {
    ghost area = { program_area };

    #[inline]
    fn read_request(
        alloc: Global,
        service: Element<'_>,
        edition: Edition,
    ) -> Result<Option<Request>, Unread> {
        match service.tag.number {
            38 => Ok(Some(Request::CreateProgramInvocation(read_as::<
                CreateProgramInvocationRequest,
            >(alloc, service, edition)?))),
            39 => Ok(Some(Request::DeleteProgramInvocation(read_as::<
                DeleteProgramInvocationRequest,
            >(alloc, service, edition)?))),
            40 => Ok(Some(Request::Start(read_as::<StartRequest>(alloc, service, edition)?))),
            41 => Ok(Some(Request::Stop(read_as::<StopRequest>(alloc, service, edition)?))),
            42 => Ok(Some(Request::Resume(read_as::<ResumeRequest>(alloc, service, edition)?))),
            43 => Ok(Some(Request::Reset(read_as::<ResetRequest>(alloc, service, edition)?))),
            44 => Ok(Some(Request::Kill(read_as::<KillRequest>(alloc, service, edition)?))),
            45 => Ok(Some(Request::GetProgramInvocationAttributes(read_as::<
                GetProgramInvocationAttributesRequest,
            >(alloc, service, edition)?))),
            _ => Ok(None),
        }
    }

    #[inline]
    fn put_request(out: &mut Writer, request: &Request) -> Result<bool, Full> {
        match request {
            Request::CreateProgramInvocation(x) => own(CreateProgramInvocationRequest::put_part(
                out, 38, x,
            )),
            Request::DeleteProgramInvocation(x) => own(DeleteProgramInvocationRequest::put_part(
                out, 39, x,
            )),
            Request::Start(x) => own(StartRequest::put_part(out, 40, x)),
            Request::Stop(x) => own(StopRequest::put_part(out, 41, x)),
            Request::Resume(x) => own(ResumeRequest::put_part(out, 42, x)),
            Request::Reset(x) => own(ResetRequest::put_part(out, 43, x)),
            Request::Kill(x) => own(KillRequest::put_part(out, 44, x)),
            Request::GetProgramInvocationAttributes(x) => {
                own(GetProgramInvocationAttributesRequest::put_part(out, 45, x))
            }
            _ => Ok(false),
        }
    }

    #[inline]
    fn put_answer(out: &mut Writer, answer: &Answer) -> Result<bool, Full> {
        match answer {
            Answer::CreateProgramInvocation => own(Null::put_part(out, 38, &())),
            Answer::DeleteProgramInvocation => own(Null::put_part(out, 39, &())),
            Answer::Start => own(Null::put_part(out, 40, &())),
            Answer::Stop => own(Null::put_part(out, 41, &())),
            Answer::Resume => own(Null::put_part(out, 42, &())),
            Answer::Reset => own(Null::put_part(out, 43, &())),
            Answer::Kill => own(Null::put_part(out, 44, &())),
            Answer::GetProgramInvocationAttributes(x) => {
                own(GetProgramInvocationAttributesResponse::put_part(out, 45, x))
            }
            _ => Ok(false),
        }
    }
}

/// The services that the server asks, each by its number, with its argument. Names are copied.
pub struct ServerRequests;

impl Chosen for ServerRequests {
    type Item = ServerRequest;

    ghost arms = { server_requests };

    ghost needs_no_memory = { false };

    fn of(alloc: Global, element: Element<'_>, edition: Edition) -> Result<ServerRequest, Unread> {
        let Element { tag, contents } = element;
        if has_tag(tag, Tag::primitive(27)) {
            let name = <Identifier as Formed>::read(alloc, contents, edition)?;
            Ok(ServerRequest::DownloadSegment(name))
        } else if has_tag(tag, Tag::constructed(28)) {
            let ended = TerminateDownloadSequenceRequest::read(alloc, contents, edition)?;
            Ok(ServerRequest::TerminateDownloadSequence(ended))
        } else {
            Err(Unread::Malformed)
        }
    }

    fn put_chosen(out: &mut Writer, x: &ServerRequest) -> Result<(), Full> {
        match x {
            ServerRequest::DownloadSegment(name) => Identifier::put_part(out, 27, name),
            ServerRequest::TerminateDownloadSequence(ended) => {
                TerminateDownloadSequenceRequest::put_part(out, 28, ended)
            }
        }
    }

    ghost sound = { server_requests_sound };
}

/// The services that the server asks, each by its number, with what a client answers. Octets are copied.
pub struct ClientAnswers;

impl Chosen for ClientAnswers {
    type Item = ClientAnswer;

    ghost arms = { client_answers };

    ghost needs_no_memory = { false };

    fn of(alloc: Global, element: Element<'_>, edition: Edition) -> Result<ClientAnswer, Unread> {
        let Element { tag, contents } = element;
        if has_tag(tag, Tag::constructed(27)) {
            let segment = DownloadSegmentResponse::read(alloc, contents, edition)?;
            Ok(ClientAnswer::DownloadSegment(segment))
        } else if has_tag(tag, Tag::primitive(28)) {
            Null::read(alloc, contents, edition)?;
            Ok(ClientAnswer::TerminateDownloadSequence)
        } else {
            Err(Unread::Malformed)
        }
    }

    fn put_chosen(out: &mut Writer, x: &ClientAnswer) -> Result<(), Full> {
        match x {
            ClientAnswer::DownloadSegment(segment) => {
                DownloadSegmentResponse::put_part(out, 27, segment)
            }
            ClientAnswer::TerminateDownloadSequence => Null::put_part(out, 28, &()),
        }
    }

    ghost sound = { client_answers_sound };
}
