//! The forms of the services for domains and program invocations, in octets, both ways (ISO 9506-2, domain management
//! and program invocation management): what clients ask and the server answers, and DownloadSegment and
//! TerminateDownloadSequence, which the server asks and clients answer. A begun load, the end of a load or of an upload,
//! a deletion, and whatever changes a program invocation are answered by `pdu_names::Null`.
#![tactic(auto)]

mod attributes;
mod download;
mod invocations;
mod services;
mod texts;
mod upload;

pub use attributes::{
    DeleteDomainRequest, GetDomainAttributesRequest, GetDomainAttributesResponse,
};
pub use download::{
    DownloadSegmentRequest, DownloadSegmentResponse, InitiateDownloadSequenceRequest,
    TerminateDownloadSequenceRequest,
};
pub use invocations::{
    CreateProgramInvocationRequest, DeleteProgramInvocationRequest, ExecutionArgument,
    GetProgramInvocationAttributesRequest, GetProgramInvocationAttributesResponse, KillRequest,
    ResetRequest, ResumeRequest, SomeDomains, StartRequest, StopRequest,
};
pub use services::{ClientAnswers, DomainServices, ProgramServices, ServerRequests};
pub use texts::{Capability, InText};
pub use upload::{
    InitiateUploadSequenceRequest, InitiateUploadSequenceResponse, TerminateUploadSequenceRequest,
    UploadSegmentRequest, UploadSegmentResponse,
};
