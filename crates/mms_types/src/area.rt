//! Requests, as the areas of the device look at them that serve them.

ghost use Rattle.std.specs.Prelude.{◌≡◌};
ghost use Rattle.mms_types.specs.Areas.{request_of};

use crate::{
    AlterEventConditionMonitoring, CreateProgramInvocation, DefineEventCondition,
    DefineEventEnrollment, DefineNamedVariable, DefineNamedVariableList, DefineSemaphore,
    DeleteEventEnrollment, DeleteNames, GetNameList, Identifier, InitializeJournal,
    InitiateDownloadSequence, ObjectName, ObjectNames, Read, ReadJournal, RelinquishControl,
    ReportPoolSemaphoreStatus, ReportSemaphoreEntryStatus, Request, RunProgram, Spec, Status,
    TakeControl, TriggerEvent, Write, WriteJournal,
};

/// What is asked of the device itself (ISO 9506-1, VMD support).
#[derive(Clone, Copy)]
pub enum DeviceRequest<'a> {
    Status(&'a Status),
    GetNameList(&'a GetNameList),
    Identify,
}

/// What is asked of variables and of their lists (ISO 9506-1, variable access).
#[derive(Clone, Copy)]
pub enum VariableRequest<'a> {
    Read(&'a Read),
    Write(&'a Write),
    GetVariableAccessAttributes(&'a Spec),
    DefineNamedVariable(&'a DefineNamedVariable),
    DeleteVariableAccess(&'a DeleteNames),
    DefineNamedVariableList(&'a DefineNamedVariableList),
    GetNamedVariableListAttributes(&'a ObjectName),
    DeleteNamedVariableList(&'a DeleteNames),
}

/// What is asked of semaphores (ISO 9506-1, semaphore management).
#[derive(Clone, Copy)]
pub enum SemaphoreRequest<'a> {
    TakeControl(&'a TakeControl),
    RelinquishControl(&'a RelinquishControl),
    DefineSemaphore(&'a DefineSemaphore),
    DeleteSemaphore(&'a ObjectName),
    ReportSemaphoreStatus(&'a ObjectName),
    ReportPoolSemaphoreStatus(&'a ReportPoolSemaphoreStatus),
    ReportSemaphoreEntryStatus(&'a ReportSemaphoreEntryStatus),
}

/// What is asked of domains (ISO 9506-1, domain management).
#[derive(Clone, Copy)]
pub enum DomainRequest<'a> {
    InitiateDownloadSequence(&'a InitiateDownloadSequence),
    InitiateUploadSequence(&'a Identifier),
    UploadSegment(i32),
    TerminateUploadSequence(i32),
    DeleteDomain(&'a Identifier),
    GetDomainAttributes(&'a Identifier),
}

/// What makes and deletes program invocations, by which domains are put to use and given free (ISO 9506-1, program
/// invocation management).
#[derive(Clone, Copy)]
pub enum InvocationRequest<'a> {
    CreateProgramInvocation(&'a CreateProgramInvocation),
    DeleteProgramInvocation(&'a Identifier),
}

/// What is asked of program invocations that are there (ISO 9506-1, program invocation management).
#[derive(Clone, Copy)]
pub enum ProgramRequest<'a> {
    Start(&'a RunProgram),
    Stop(&'a Identifier),
    Resume(&'a RunProgram),
    Reset(&'a Identifier),
    Kill(&'a Identifier),
    GetProgramInvocationAttributes(&'a Identifier),
}

/// What is asked of event conditions and event enrollments (ISO 9506-1, event management).
#[derive(Clone, Copy)]
pub enum EventRequest<'a> {
    DefineEventCondition(&'a DefineEventCondition),
    DeleteEventCondition(&'a ObjectNames),
    ReportEventConditionStatus(&'a ObjectName),
    AlterEventConditionMonitoring(&'a AlterEventConditionMonitoring),
    TriggerEvent(&'a TriggerEvent),
    DefineEventEnrollment(&'a DefineEventEnrollment),
    DeleteEventEnrollment(&'a DeleteEventEnrollment),
}

/// What is asked of journals (ISO 9506-1, journal management).
#[derive(Clone, Copy)]
pub enum JournalRequest<'a> {
    ReadJournal(&'a ReadJournal),
    WriteJournal(&'a WriteJournal),
    InitializeJournal(&'a InitializeJournal),
    ReportJournalStatus(&'a ObjectName),
    CreateJournal(&'a ObjectName),
    DeleteJournal(&'a ObjectName),
}

/// A request, by the area of the device that serves it.
#[derive(Clone, Copy)]
pub enum AreaRequest<'a> {
    Device(DeviceRequest<'a>),
    Variables(VariableRequest<'a>),
    Semaphores(SemaphoreRequest<'a>),
    Domains(DomainRequest<'a>),
    Invocations(InvocationRequest<'a>),
    Programs(ProgramRequest<'a>),
    Events(EventRequest<'a>),
    Journals(JournalRequest<'a>),
}

impl Request {
    /// What is asked, by the area that serves it.
    pub fn area(&self) -> AreaRequest<'_>
        ensures { request_of result ≡ self.now }
    {
        match self {
            Request::Status(asked) => AreaRequest::Device(DeviceRequest::Status(asked)),
            Request::GetNameList(asked) => AreaRequest::Device(DeviceRequest::GetNameList(asked)),
            Request::Identify => AreaRequest::Device(DeviceRequest::Identify),
            Request::Read(asked) => AreaRequest::Variables(VariableRequest::Read(asked)),
            Request::Write(asked) => AreaRequest::Variables(VariableRequest::Write(asked)),
            Request::GetVariableAccessAttributes(asked) => {
                AreaRequest::Variables(VariableRequest::GetVariableAccessAttributes(asked))
            }
            Request::DefineNamedVariable(asked) => {
                AreaRequest::Variables(VariableRequest::DefineNamedVariable(asked))
            }
            Request::DeleteVariableAccess(asked) => {
                AreaRequest::Variables(VariableRequest::DeleteVariableAccess(asked))
            }
            Request::DefineNamedVariableList(asked) => {
                AreaRequest::Variables(VariableRequest::DefineNamedVariableList(asked))
            }
            Request::GetNamedVariableListAttributes(asked) => {
                AreaRequest::Variables(VariableRequest::GetNamedVariableListAttributes(asked))
            }
            Request::DeleteNamedVariableList(asked) => {
                AreaRequest::Variables(VariableRequest::DeleteNamedVariableList(asked))
            }
            Request::TakeControl(asked) => {
                AreaRequest::Semaphores(SemaphoreRequest::TakeControl(asked.get()))
            }
            Request::RelinquishControl(asked) => {
                AreaRequest::Semaphores(SemaphoreRequest::RelinquishControl(asked))
            }
            Request::DefineSemaphore(asked) => {
                AreaRequest::Semaphores(SemaphoreRequest::DefineSemaphore(asked))
            }
            Request::DeleteSemaphore(name) => {
                AreaRequest::Semaphores(SemaphoreRequest::DeleteSemaphore(name))
            }
            Request::ReportSemaphoreStatus(name) => {
                AreaRequest::Semaphores(SemaphoreRequest::ReportSemaphoreStatus(name))
            }
            Request::ReportPoolSemaphoreStatus(asked) => {
                AreaRequest::Semaphores(SemaphoreRequest::ReportPoolSemaphoreStatus(asked))
            }
            Request::ReportSemaphoreEntryStatus(asked) => {
                AreaRequest::Semaphores(SemaphoreRequest::ReportSemaphoreEntryStatus(asked))
            }
            Request::InitiateDownloadSequence(asked) => {
                AreaRequest::Domains(DomainRequest::InitiateDownloadSequence(asked))
            }
            Request::InitiateUploadSequence(name) => {
                AreaRequest::Domains(DomainRequest::InitiateUploadSequence(name))
            }
            Request::UploadSegment(number) => {
                AreaRequest::Domains(DomainRequest::UploadSegment(*number))
            }
            Request::TerminateUploadSequence(number) => {
                AreaRequest::Domains(DomainRequest::TerminateUploadSequence(*number))
            }
            Request::DeleteDomain(name) => AreaRequest::Domains(DomainRequest::DeleteDomain(name)),
            Request::GetDomainAttributes(name) => {
                AreaRequest::Domains(DomainRequest::GetDomainAttributes(name))
            }
            Request::CreateProgramInvocation(asked) => {
                AreaRequest::Invocations(InvocationRequest::CreateProgramInvocation(asked))
            }
            Request::DeleteProgramInvocation(name) => {
                AreaRequest::Invocations(InvocationRequest::DeleteProgramInvocation(name))
            }
            Request::Start(asked) => AreaRequest::Programs(ProgramRequest::Start(asked)),
            Request::Stop(name) => AreaRequest::Programs(ProgramRequest::Stop(name)),
            Request::Resume(asked) => AreaRequest::Programs(ProgramRequest::Resume(asked)),
            Request::Reset(name) => AreaRequest::Programs(ProgramRequest::Reset(name)),
            Request::Kill(name) => AreaRequest::Programs(ProgramRequest::Kill(name)),
            Request::GetProgramInvocationAttributes(name) => {
                AreaRequest::Programs(ProgramRequest::GetProgramInvocationAttributes(name))
            }
            Request::DefineEventCondition(asked) => {
                AreaRequest::Events(EventRequest::DefineEventCondition(asked.get()))
            }
            Request::DeleteEventCondition(names) => {
                AreaRequest::Events(EventRequest::DeleteEventCondition(names))
            }
            Request::ReportEventConditionStatus(name) => {
                AreaRequest::Events(EventRequest::ReportEventConditionStatus(name))
            }
            Request::AlterEventConditionMonitoring(asked) => {
                AreaRequest::Events(EventRequest::AlterEventConditionMonitoring(asked))
            }
            Request::TriggerEvent(asked) => AreaRequest::Events(EventRequest::TriggerEvent(asked)),
            Request::DefineEventEnrollment(asked) => {
                AreaRequest::Events(EventRequest::DefineEventEnrollment(asked.get()))
            }
            Request::DeleteEventEnrollment(asked) => {
                AreaRequest::Events(EventRequest::DeleteEventEnrollment(asked))
            }
            Request::ReadJournal(asked) => {
                AreaRequest::Journals(JournalRequest::ReadJournal(asked.get()))
            }
            Request::WriteJournal(asked) => {
                AreaRequest::Journals(JournalRequest::WriteJournal(asked))
            }
            Request::InitializeJournal(asked) => {
                AreaRequest::Journals(JournalRequest::InitializeJournal(asked))
            }
            Request::ReportJournalStatus(name) => {
                AreaRequest::Journals(JournalRequest::ReportJournalStatus(name))
            }
            Request::CreateJournal(name) => {
                AreaRequest::Journals(JournalRequest::CreateJournal(name))
            }
            Request::DeleteJournal(name) => {
                AreaRequest::Journals(JournalRequest::DeleteJournal(name))
            }
        }
    }
}
