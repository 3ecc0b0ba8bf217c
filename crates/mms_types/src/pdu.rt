use crate::{
    AlterEventConditionMonitoring, Boxed, CancelError, ConditionStatus, ConfirmedError,
    CreateProgramInvocation, DefineEventCondition, DefineEventEnrollment, DefineNamedVariable,
    DefineNamedVariableList, DefineSemaphore, DeleteEventEnrollment, DeleteNames, Deleted,
    DomainAttributes, EntryStatuses, EventNotification, GetNameList, GetNameListAnswer, Identifier,
    IdentifyAnswer, InitializeJournal, Initiate, InitiateAnswer, InitiateDownloadSequence,
    InitiateUploadSequenceAnswer, InvocationAttributes, JournalStatus, ListAttributes, Modifier,
    ObjectName, ObjectNames, PoolStatus, Read, ReadAnswer, ReadJournal, ReadJournalAnswer,
    RelinquishControl, ReportPoolSemaphoreStatus, ReportSemaphoreEntryStatus, RunProgram, Segment,
    SemaphoreStatus, ServiceError, Spec, Status, StatusAnswer, TakeControl, TakeControlAnswer,
    TerminateDownloadSequence, TriggerEvent, VariableAttributes, Write, WriteAnswer, WriteJournal,
};

/// What a client asks of the server (ISO 9506-2, ConfirmedServiceRequest): a variant for each service that clients ask,
/// with its argument.
pub enum Request {
    /// The state of the device.
    Status(Status),
    /// The names of the objects of a class in a scope.
    GetNameList(GetNameList),
    /// Who made the device, which one it is and its revision.
    Identify,
    /// The data of variables.
    Read(Read),
    /// New data for variables.
    Write(Write),
    /// What a variable is.
    GetVariableAccessAttributes(Spec),
    /// A name for a cell.
    DefineNamedVariable(DefineNamedVariable),
    /// The deletion of names of variables.
    DeleteVariableAccess(DeleteNames),
    /// A name for a list of variables.
    DefineNamedVariableList(DefineNamedVariableList),
    /// What a list of variables is: that of this name.
    GetNamedVariableListAttributes(ObjectName),
    /// The deletion of names of lists of variables.
    DeleteNamedVariableList(DeleteNames),
    /// A token of a semaphore. What is asked is kept apart, so that no request grows by it.
    TakeControl(Boxed<TakeControl>),
    /// A token of a semaphore is given back.
    RelinquishControl(RelinquishControl),
    /// A name for a semaphore.
    DefineSemaphore(DefineSemaphore),
    /// The deletion of the semaphore of this name.
    DeleteSemaphore(ObjectName),
    /// What the semaphore of this name is and has.
    ReportSemaphoreStatus(ObjectName),
    /// The tokens of a pool.
    ReportPoolSemaphoreStatus(ReportPoolSemaphoreStatus),
    /// The entries of a semaphore.
    ReportSemaphoreEntryStatus(ReportSemaphoreEntryStatus),
    /// A domain is to be loaded.
    InitiateDownloadSequence(InitiateDownloadSequence),
    /// The domain of this name is to be sent back.
    InitiateUploadSequence(Identifier),
    /// The next piece of the upload of this number.
    UploadSegment(i32),
    /// The end of the upload of this number.
    TerminateUploadSequence(i32),
    /// The deletion of the domain of this name.
    DeleteDomain(Identifier),
    /// What the domain of this name is.
    GetDomainAttributes(Identifier),
    /// A program invocation is to be made.
    CreateProgramInvocation(CreateProgramInvocation),
    /// The deletion of the program invocation of this name.
    DeleteProgramInvocation(Identifier),
    /// A program invocation is to run.
    Start(RunProgram),
    /// The program invocation of this name is to stop.
    Stop(Identifier),
    /// A program invocation is to go on.
    Resume(RunProgram),
    /// The program invocation of this name is to be over, after a stop.
    Reset(Identifier),
    /// The program invocation of this name is to be over, and not to run any more.
    Kill(Identifier),
    /// What the program invocation of this name is.
    GetProgramInvocationAttributes(Identifier),
    /// An event condition is to be made. What is asked is kept apart, so that no request grows by it.
    DefineEventCondition(Boxed<DefineEventCondition>),
    /// The deletion of the event conditions of these names.
    DeleteEventCondition(ObjectNames),
    /// What the event condition of this name is.
    ReportEventConditionStatus(ObjectName),
    /// How an event condition is monitored is to be changed.
    AlterEventConditionMonitoring(AlterEventConditionMonitoring),
    /// An event condition is triggered.
    TriggerEvent(TriggerEvent),
    /// An event enrollment is to be made. What is asked is kept apart, so that no request grows by it.
    DefineEventEnrollment(Boxed<DefineEventEnrollment>),
    /// The deletion of event enrollments.
    DeleteEventEnrollment(DeleteEventEnrollment),
    /// Entries of a journal. What is asked is kept apart, so that no request grows by it.
    ReadJournal(Boxed<ReadJournal>),
    /// New entries for a journal.
    WriteJournal(WriteJournal),
    /// Entries of a journal are to go.
    InitializeJournal(InitializeJournal),
    /// What the journal of this name is.
    ReportJournalStatus(ObjectName),
    /// A journal of this name is to be made.
    CreateJournal(ObjectName),
    /// The deletion of the journal of this name.
    DeleteJournal(ObjectName),
}

/// What the server answers to a request (ISO 9506-2, ConfirmedServiceResponse): a variant for each service that clients
/// ask, with what it answers.
pub enum Answer {
    /// The state of the device.
    Status(StatusAnswer),
    /// The names, and whether more come after them.
    GetNameList(GetNameListAnswer),
    /// The texts that identify the device.
    Identify(IdentifyAnswer),
    /// What was read of each variable.
    Read(ReadAnswer),
    /// What became of each variable that was to be written.
    Write(WriteAnswer),
    /// What the variable is.
    GetVariableAccessAttributes(VariableAttributes),
    /// The cell has the name.
    DefineNamedVariable,
    /// How many names of variables there were, and how many of them were deleted.
    DeleteVariableAccess(Deleted),
    /// The list of variables has the name.
    DefineNamedVariableList,
    /// What the list of variables is.
    GetNamedVariableListAttributes(ListAttributes),
    /// How many names of lists of variables there were, and how many of them were deleted.
    DeleteNamedVariableList(Deleted),
    /// The client has a token.
    TakeControl(TakeControlAnswer),
    /// The token was given back.
    RelinquishControl,
    /// The semaphore has the name.
    DefineSemaphore,
    /// The semaphore was deleted.
    DeleteSemaphore,
    /// What the semaphore is and has.
    ReportSemaphoreStatus(SemaphoreStatus),
    /// The tokens of the pool, and whether more come after them.
    ReportPoolSemaphoreStatus(PoolStatus),
    /// The entries of the semaphore, and whether more come after them.
    ReportSemaphoreEntryStatus(EntryStatuses),
    /// The load has begun.
    InitiateDownloadSequence,
    /// The upload has begun.
    InitiateUploadSequence(InitiateUploadSequenceAnswer),
    /// A piece of the domain.
    UploadSegment(Segment),
    /// The upload has ended.
    TerminateUploadSequence,
    /// The domain was deleted.
    DeleteDomain,
    /// What the domain is.
    GetDomainAttributes(DomainAttributes),
    /// The program invocation was made.
    CreateProgramInvocation,
    /// The program invocation was deleted.
    DeleteProgramInvocation,
    /// It runs.
    Start,
    /// It has stopped.
    Stop,
    /// It goes on.
    Resume,
    /// It is over.
    Reset,
    /// It is over, and can't run any more.
    Kill,
    /// What the program invocation is.
    GetProgramInvocationAttributes(InvocationAttributes),
    /// The event condition was made.
    DefineEventCondition,
    /// How many event conditions were not deleted.
    DeleteEventCondition(u32),
    /// What the event condition is.
    ReportEventConditionStatus(ConditionStatus),
    /// The event condition was changed.
    AlterEventConditionMonitoring,
    /// The event condition was triggered.
    TriggerEvent,
    /// The event enrollment was made.
    DefineEventEnrollment,
    /// How many event enrollments were not deleted.
    DeleteEventEnrollment(u32),
    /// Entries of the journal, and whether more were asked for.
    ReadJournal(ReadJournalAnswer),
    /// The entries were written.
    WriteJournal,
    /// How many entries went.
    InitializeJournal(u32),
    /// What the journal is.
    ReportJournalStatus(JournalStatus),
    /// The journal was made.
    CreateJournal,
    /// The journal was deleted.
    DeleteJournal,
}

/// What the server asks of a client (ISO 9506-2, ConfirmedServiceRequest): a variant for each service that the server
/// asks, with its argument.
pub enum ServerRequest {
    /// The next segment of the domain of this name.
    DownloadSegment(Identifier),
    /// The end of a load.
    TerminateDownloadSequence(TerminateDownloadSequence),
}

/// What a client answers to a request of the server (ISO 9506-2, ConfirmedServiceResponse): a variant for each service
/// that the server asks, with what the client answers.
pub enum ClientAnswer {
    /// A segment of the domain.
    DownloadSegment(Segment),
    /// The load has ended.
    TerminateDownloadSequence,
}

/// Why a PDU is rejected (ISO 9506-2, RejectPDU): the reasons that the server gives.
#[derive(Clone, Copy)]
pub enum RejectReason {
    /// confirmed-requestPDU: the service is unknown, or is not offered.
    UnrecognizedService,
    /// confirmed-requestPDU: the request has a modifier.
    UnrecognizedModifier,
    /// confirmed-requestPDU: a request of this invokeID waits.
    InvalidInvokeId,
    /// confirmed-requestPDU: the argument is not of its form.
    InvalidArgument,
    /// confirmed-requestPDU: as many requests wait as were negotiated.
    MaxServOutstandingExceeded,
    /// confirmed-requestPDU: data or a type nests deeper than was negotiated.
    MaxRecursionExceeded,
    /// pdu-error: the tag is none of a PDU.
    UnknownPduType,
    /// pdu-error: the PDU is not of its form.
    InvalidPdu,
}

/// The server rejects a PDU (ISO 9506-2, RejectPDU).
#[derive(Clone, Copy)]
pub struct Reject {
    /// The invokeID of the request that is rejected, where one is.
    pub invoke: Option<u32>,
    pub reason: RejectReason,
}

/// A PDU (ISO 9506-2, MMSpdu). Of some PDUs less is kept where a client sent them than where the
/// server sends them; these have a variant for each of the two.
pub enum Pdu {
    /// A confirmed-Request that a client sent, without modifiers.
    ConfirmedRequest {
        invoke: u32,
        request: Request,
    },
    /// A confirmed-Request that a client sent, with a modifier. That is kept apart, so that no other request grows by
    /// it.
    ModifiedRequest {
        invoke: u32,
        modifier: Boxed<Modifier>,
        request: Request,
    },
    /// A confirmed-Request that the server sends.
    ServerRequest {
        invoke: u32,
        request: ServerRequest,
    },
    /// A confirmed-Response that the server sends.
    ConfirmedResponse {
        invoke: u32,
        answer: Answer,
    },
    /// A confirmed-Response that a client sent.
    HeardResponse {
        invoke: u32,
        answer: ClientAnswer,
    },
    /// A confirmed-Error that the server sends.
    ConfirmedError(ConfirmedError),
    /// A confirmed-Error that a client sent: the invokeID alone is read.
    HeardError {
        invoke: u32,
    },
    /// A reject that the server sends.
    Reject(Reject),
    /// A reject that a client sent: the invokeID alone is read, where there is one.
    HeardReject {
        invoke: Option<u32>,
    },
    /// A cancel-Request.
    CancelRequest {
        invoke: u32,
    },
    /// A cancel-Response that the server sends.
    CancelResponse {
        invoke: u32,
    },
    /// A cancel-Error that the server sends.
    CancelError(CancelError),
    /// An unconfirmed PDU that the server sends: what a client is told of an event. What it is told is kept apart, so
    /// that no PDU grows by it.
    EventNotification(Boxed<EventNotification>),
    /// An unconfirmed PDU, a cancel-Response or a cancel-Error that a client sent: nothing is read.
    HeardOther,
    /// An initiate-Request.
    InitiateRequest(Initiate),
    /// An initiate-Response.
    InitiateResponse(InitiateAnswer),
    /// An initiate-Error.
    InitiateError(ServiceError),
    /// A conclude-Request.
    ConcludeRequest,
    /// A conclude-Response.
    ConcludeResponse,
    /// A conclude-Error.
    ConcludeError(ServiceError),
}

impl Drop for Request {
    fn drop(self) {
        match self {
            Request::Status(_x) => {}
            Request::GetNameList(_x) => {}
            Request::Identify => {}
            Request::Read(_x) => {}
            Request::Write(_x) => {}
            Request::GetVariableAccessAttributes(_x) => {}
            Request::DefineNamedVariable(_x) => {}
            Request::DeleteVariableAccess(_x) => {}
            Request::DefineNamedVariableList(_x) => {}
            Request::GetNamedVariableListAttributes(_x) => {}
            Request::DeleteNamedVariableList(_x) => {}
            Request::TakeControl(_x) => {}
            Request::RelinquishControl(_x) => {}
            Request::DefineSemaphore(_x) => {}
            Request::DeleteSemaphore(_x) => {}
            Request::ReportSemaphoreStatus(_x) => {}
            Request::ReportPoolSemaphoreStatus(_x) => {}
            Request::ReportSemaphoreEntryStatus(_x) => {}
            Request::InitiateDownloadSequence(_x) => {}
            Request::InitiateUploadSequence(_x) => {}
            Request::UploadSegment(_) => {}
            Request::TerminateUploadSequence(_) => {}
            Request::DeleteDomain(_x) => {}
            Request::GetDomainAttributes(_x) => {}
            Request::CreateProgramInvocation(_x) => {}
            Request::DeleteProgramInvocation(_x) => {}
            Request::Start(_x) => {}
            Request::Stop(_x) => {}
            Request::Resume(_x) => {}
            Request::Reset(_x) => {}
            Request::Kill(_x) => {}
            Request::GetProgramInvocationAttributes(_x) => {}
            Request::DefineEventCondition(_x) => {}
            Request::DeleteEventCondition(_x) => {}
            Request::ReportEventConditionStatus(_x) => {}
            Request::AlterEventConditionMonitoring(_x) => {}
            Request::TriggerEvent(_x) => {}
            Request::DefineEventEnrollment(_x) => {}
            Request::DeleteEventEnrollment(_x) => {}
            Request::ReadJournal(_x) => {}
            Request::WriteJournal(_x) => {}
            Request::InitializeJournal(_x) => {}
            Request::ReportJournalStatus(_x) => {}
            Request::CreateJournal(_x) => {}
            Request::DeleteJournal(_x) => {}
        }
    }
}

impl Drop for Answer {
    #[inline(always)]
    fn drop(self) {
        match self {
            Answer::Status(_x) => {}
            Answer::GetNameList(_x) => {}
            Answer::Identify(_x) => {}
            Answer::Read(_x) => {}
            Answer::Write(_x) => {}
            Answer::GetVariableAccessAttributes(_x) => {}
            Answer::DefineNamedVariable => {}
            Answer::DeleteVariableAccess(_x) => {}
            Answer::DefineNamedVariableList => {}
            Answer::GetNamedVariableListAttributes(_x) => {}
            Answer::DeleteNamedVariableList(_x) => {}
            Answer::TakeControl(_x) => {}
            Answer::RelinquishControl => {}
            Answer::DefineSemaphore => {}
            Answer::DeleteSemaphore => {}
            Answer::ReportSemaphoreStatus(_x) => {}
            Answer::ReportPoolSemaphoreStatus(_x) => {}
            Answer::ReportSemaphoreEntryStatus(_x) => {}
            Answer::InitiateDownloadSequence => {}
            Answer::InitiateUploadSequence(_x) => {}
            Answer::UploadSegment(_x) => {}
            Answer::TerminateUploadSequence => {}
            Answer::DeleteDomain => {}
            Answer::GetDomainAttributes(_x) => {}
            Answer::CreateProgramInvocation => {}
            Answer::DeleteProgramInvocation => {}
            Answer::Start => {}
            Answer::Stop => {}
            Answer::Resume => {}
            Answer::Reset => {}
            Answer::Kill => {}
            Answer::GetProgramInvocationAttributes(_x) => {}
            Answer::DefineEventCondition => {}
            Answer::DeleteEventCondition(_) => {}
            Answer::ReportEventConditionStatus(_) => {}
            Answer::AlterEventConditionMonitoring => {}
            Answer::TriggerEvent => {}
            Answer::DefineEventEnrollment => {}
            Answer::DeleteEventEnrollment(_) => {}
            Answer::ReadJournal(_x) => {}
            Answer::WriteJournal => {}
            Answer::InitializeJournal(_) => {}
            Answer::ReportJournalStatus(_) => {}
            Answer::CreateJournal => {}
            Answer::DeleteJournal => {}
        }
    }
}

impl Drop for ServerRequest {
    fn drop(self) {
        match self {
            ServerRequest::DownloadSegment(_x) => {}
            ServerRequest::TerminateDownloadSequence(_x) => {}
        }
    }
}

impl Drop for ClientAnswer {
    fn drop(self) {
        match self {
            ClientAnswer::DownloadSegment(_x) => {}
            ClientAnswer::TerminateDownloadSequence => {}
        }
    }
}

impl Drop for Pdu {
    fn drop(self) {
        match self {
            Pdu::ConfirmedRequest {
                invoke: _,
                request: _x,
            } => {}
            Pdu::ModifiedRequest {
                invoke: _,
                modifier: _x,
                request: _y,
            } => {}
            Pdu::ServerRequest {
                invoke: _,
                request: _x,
            } => {}
            Pdu::ConfirmedResponse {
                invoke: _,
                answer: _x,
            } => {}
            Pdu::HeardResponse {
                invoke: _,
                answer: _x,
            } => {}
            Pdu::ConfirmedError(_x) => {}
            Pdu::HeardError { invoke: _ } => {}
            Pdu::Reject(_x) => {}
            Pdu::HeardReject { invoke: _ } => {}
            Pdu::CancelRequest { invoke: _ } => {}
            Pdu::CancelResponse { invoke: _ } => {}
            Pdu::CancelError(_x) => {}
            Pdu::EventNotification(_x) => {}
            Pdu::HeardOther => {}
            Pdu::InitiateRequest(_x) => {}
            Pdu::InitiateResponse(_x) => {}
            Pdu::InitiateError(_x) => {}
            Pdu::ConcludeRequest => {}
            Pdu::ConcludeResponse => {}
            Pdu::ConcludeError(_x) => {}
        }
    }
}
