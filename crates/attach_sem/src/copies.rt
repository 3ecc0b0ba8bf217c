//! Copies of requests.

ghost use Rattle.std.specs.Prelude.{◌≡◌, IfOk};
ghost use Rattle.mms_types.specs.Areas.{request_of};
ghost use Rattle.mms_types.specs.declared.area.AreaRequest.TheVariants as area;

use mms_types::{
    AlterEventConditionMonitoring, AreaRequest, Boxed, CreateProgramInvocation,
    DefineEventCondition, DefineEventEnrollment, DefineNamedVariable, DefineNamedVariableList,
    DefineSemaphore, DeleteEventEnrollment, DeleteNames, DeviceRequest, DomainRequest,
    EntryContent, EventRequest, GetNameList, InitializeJournal, InitiateDownloadSequence,
    InvocationRequest, JournalEntries, JournalEntry, JournalEvent, JournalRequest, JournalVariable,
    JournalVariables, Listed, Memory, Monitored, ObjectName, ObjectNames, ObjectScope, Octets,
    ProgramRequest, Read, ReadJournal, RelinquishControl, ReportPoolSemaphoreStatus,
    ReportSemaphoreEntryStatus, Request, RunProgram, SemaphoreRequest, TakeControl, Texts,
    TriggerEvent, TypeSpec, VariableRequest, Write, WriteJournal, copied_name,
};
use std::alloc::Global;

fn copied_scope(alloc: Global, from: &ObjectScope) -> Result<ObjectScope, Memory>
    ensures { IfOk result (λ scope. scope ≡ from.now) }
{
    match from {
        ObjectScope::Vmd => Ok(ObjectScope::Vmd),
        ObjectScope::Domain(domain) => Ok(ObjectScope::Domain(domain.copy(alloc)?)),
        ObjectScope::Association => Ok(ObjectScope::Association),
    }
}

fn copied_name_list(alloc: Global, from: &GetNameList) -> Result<GetNameList, Memory>
    ensures { IfOk result (λ x. x ≡ from.now) }
{
    Ok(GetNameList {
        class: from.class,
        scope: copied_scope(alloc, &from.scope)?,
        after: copied_name(alloc, &from.after)?,
    })
}

fn copied_read(alloc: Global, from: &Read) -> Result<Read, Memory>
    ensures { IfOk result (λ x. x ≡ from.now) }
{
    Ok(Read {
        with_access: from.with_access,
        access: from.access.copy(alloc)?,
    })
}

fn copied_write(alloc: Global, from: &Write) -> Result<Write, Memory>
    ensures { IfOk result (λ x. x ≡ from.now) }
{
    Ok(Write {
        access: from.access.copy(alloc)?,
        values: from.values.copy(alloc)?,
    })
}

fn copied_spec(alloc: Global, from: &Option<TypeSpec>) -> Result<Option<TypeSpec>, Memory>
    ensures { IfOk result (λ x. x ≡ from.now) }
{
    match from {
        None => Ok(None),
        Some(spec) => Ok(Some(spec.copy(alloc)?)),
    }
}

fn copied_definition(
    alloc: Global,
    from: &DefineNamedVariable,
) -> Result<DefineNamedVariable, Memory>
    ensures { IfOk result (λ x. x ≡ from.now) }
{
    Ok(DefineNamedVariable {
        name: from.name.copy(alloc)?,
        address: from.address,
        of: copied_spec(alloc, &from.of)?,
    })
}

fn copied_object_names(alloc: Global, from: &ObjectNames) -> Result<ObjectNames, Memory>
    ensures { IfOk result (λ names. names ≡ from.now) }
{
    let mut names = Listed::new(alloc);
    for name in from.as_slice() {
        names.push(name.copy(alloc)?)?;
    }
    Ok(names)
}

fn copied_names(alloc: Global, from: &Option<ObjectNames>) -> Result<Option<ObjectNames>, Memory>
    ensures { IfOk result (λ x. x ≡ from.now) }
{
    match from {
        None => Ok(None),
        Some(names) => Ok(Some(copied_object_names(alloc, names)?)),
    }
}

fn copied_deletion(alloc: Global, from: &DeleteNames) -> Result<DeleteNames, Memory>
    ensures { IfOk result (λ x. x ≡ from.now) }
{
    Ok(DeleteNames {
        scope: from.scope,
        names: copied_names(alloc, &from.names)?,
        domain: copied_name(alloc, &from.domain)?,
    })
}

fn copied_list(
    alloc: Global,
    from: &DefineNamedVariableList,
) -> Result<DefineNamedVariableList, Memory>
    ensures { IfOk result (λ x. x ≡ from.now) }
{
    Ok(DefineNamedVariableList {
        name: from.name.copy(alloc)?,
        variables: from.variables.copy(alloc)?,
    })
}

fn copied_take(alloc: Global, from: &TakeControl) -> Result<TakeControl, Memory>
    ensures { IfOk result (λ x. x ≡ from.now) }
{
    Ok(TakeControl {
        name: from.name.copy(alloc)?,
        token: copied_name(alloc, &from.token)?,
        priority: from.priority,
        delay: from.delay,
        control: from.control,
        abort: from.abort,
        relinquish: from.relinquish,
        preempt: from.preempt,
    })
}

fn copied_relinquish(alloc: Global, from: &RelinquishControl) -> Result<RelinquishControl, Memory>
    ensures { IfOk result (λ x. x ≡ from.now) }
{
    Ok(RelinquishControl {
        name: from.name.copy(alloc)?,
        token: copied_name(alloc, &from.token)?,
    })
}

fn copied_semaphore(alloc: Global, from: &DefineSemaphore) -> Result<DefineSemaphore, Memory>
    ensures { IfOk result (λ x. x ≡ from.now) }
{
    Ok(DefineSemaphore {
        name: from.name.copy(alloc)?,
        tokens: from.tokens,
    })
}

fn copied_pool_report(
    alloc: Global,
    from: &ReportPoolSemaphoreStatus,
) -> Result<ReportPoolSemaphoreStatus, Memory>
    ensures { IfOk result (λ x. x ≡ from.now) }
{
    Ok(ReportPoolSemaphoreStatus {
        name: from.name.copy(alloc)?,
        after: copied_name(alloc, &from.after)?,
    })
}

fn copied_entry_report(
    alloc: Global,
    from: &ReportSemaphoreEntryStatus,
) -> Result<ReportSemaphoreEntryStatus, Memory>
    ensures { IfOk result (λ x. x ≡ from.now) }
{
    Ok(ReportSemaphoreEntryStatus {
        name: from.name.copy(alloc)?,
        state: from.state,
        after: from.after,
    })
}

fn copied_download(
    alloc: Global,
    from: &InitiateDownloadSequence,
) -> Result<InitiateDownloadSequence, Memory>
    ensures { IfOk result (λ x. x ≡ from.now) }
{
    Ok(InitiateDownloadSequence {
        domain: from.domain.copy(alloc)?,
        capabilities: from.capabilities.copy(alloc)?,
        sharable: from.sharable,
    })
}

fn copied_invocation(
    alloc: Global,
    from: &CreateProgramInvocation,
) -> Result<CreateProgramInvocation, Memory>
    ensures { IfOk result (λ x. x ≡ from.now) }
{
    Ok(CreateProgramInvocation {
        name: from.name.copy(alloc)?,
        domains: from.domains.copy(alloc)?,
        reusable: from.reusable,
    })
}

fn copied_octets(alloc: Global, from: &Option<Octets>) -> Result<Option<Octets>, Memory>
    ensures { IfOk result (λ x. x ≡ from.now) }
{
    match from {
        None => Ok(None),
        Some(octets) => Ok(Some(octets.copy(alloc)?)),
    }
}

fn copied_run(alloc: Global, from: &RunProgram) -> Result<RunProgram, Memory>
    ensures { IfOk result (λ x. x ≡ from.now) }
{
    Ok(RunProgram {
        name: from.name.copy(alloc)?,
        argument: copied_octets(alloc, &from.argument)?,
    })
}

fn copied_monitored(alloc: Global, from: &Option<Monitored>) -> Result<Option<Monitored>, Memory>
    ensures { IfOk result (λ x. x ≡ from.now) }
{
    match from {
        None => Ok(None),
        Some(monitored) => Ok(Some(Monitored {
            variable: monitored.variable.copy(alloc)?,
            interval: monitored.interval,
        })),
    }
}

fn copied_condition(
    alloc: Global,
    from: &DefineEventCondition,
) -> Result<DefineEventCondition, Memory>
    ensures { IfOk result (λ x. x ≡ from.now) }
{
    Ok(DefineEventCondition {
        name: from.name.copy(alloc)?,
        priority: from.priority,
        severity: from.severity,
        summary: from.summary,
        monitored: copied_monitored(alloc, &from.monitored)?,
    })
}

fn copied_alteration(
    alloc: Global,
    from: &AlterEventConditionMonitoring,
) -> Result<AlterEventConditionMonitoring, Memory>
    ensures { IfOk result (λ x. x ≡ from.now) }
{
    Ok(AlterEventConditionMonitoring {
        name: from.name.copy(alloc)?,
        enabled: from.enabled,
        priority: from.priority,
        summary: from.summary,
        interval: from.interval,
    })
}

fn copied_trigger(alloc: Global, from: &TriggerEvent) -> Result<TriggerEvent, Memory>
    ensures { IfOk result (λ x. x ≡ from.now) }
{
    Ok(TriggerEvent {
        name: from.name.copy(alloc)?,
        priority: from.priority,
    })
}

fn copied_enrollment(
    alloc: Global,
    from: &DefineEventEnrollment,
) -> Result<DefineEventEnrollment, Memory>
    ensures { IfOk result (λ x. x ≡ from.now) }
{
    Ok(DefineEventEnrollment {
        name: from.name.copy(alloc)?,
        condition: from.condition.copy(alloc)?,
        transitions: from.transitions,
        rule: from.rule,
    })
}

fn copied_unenrollment(
    alloc: Global,
    from: &DeleteEventEnrollment,
) -> Result<DeleteEventEnrollment, Memory>
    ensures { IfOk result (λ x. x ≡ from.now) }
{
    match from {
        DeleteEventEnrollment::Names(names) => {
            Ok(DeleteEventEnrollment::Names(copied_object_names(alloc, names)?))
        }
        DeleteEventEnrollment::Condition(name) => {
            Ok(DeleteEventEnrollment::Condition(name.copy(alloc)?))
        }
    }
}

fn copied_texts(alloc: Global, from: &Option<Texts>) -> Result<Option<Texts>, Memory>
    ensures { IfOk result (λ x. x ≡ from.now) }
{
    match from {
        None => Ok(None),
        Some(texts) => Ok(Some(texts.copy(alloc)?)),
    }
}

fn copied_journal_read(alloc: Global, from: &ReadJournal) -> Result<ReadJournal, Memory>
    ensures { IfOk result (λ x. x ≡ from.now) }
{
    Ok(ReadJournal {
        name: from.name.copy(alloc)?,
        start: from.start,
        stop: from.stop,
        tags: copied_texts(alloc, &from.tags)?,
        after: from.after,
    })
}

fn copied_journal_variables(
    alloc: Global,
    from: &JournalVariables,
) -> Result<JournalVariables, Memory>
    ensures { IfOk result (λ variables. variables ≡ from.now) }
{
    let mut variables = Listed::new(alloc);
    for variable in from.as_slice() {
        variables.push(JournalVariable {
            tag: variable.tag.copy(alloc)?,
            value: variable.value.copy(alloc)?,
        })?;
    }
    Ok(variables)
}

fn copied_variables(
    alloc: Global,
    from: &Option<JournalVariables>,
) -> Result<Option<JournalVariables>, Memory>
    ensures { IfOk result (λ x. x ≡ from.now) }
{
    match from {
        None => Ok(None),
        Some(variables) => Ok(Some(copied_journal_variables(alloc, variables)?)),
    }
}

fn copied_event(alloc: Global, from: &Option<JournalEvent>) -> Result<Option<JournalEvent>, Memory>
    ensures { IfOk result (λ x. x ≡ from.now) }
{
    match from {
        None => Ok(None),
        Some(event) => Ok(Some(JournalEvent {
            name: event.name.copy(alloc)?,
            state: event.state,
        })),
    }
}

fn copied_content(alloc: Global, from: &EntryContent) -> Result<EntryContent, Memory>
    ensures { IfOk result (λ x. x ≡ from.now) }
{
    match from {
        EntryContent::Data { event, variables } => Ok(EntryContent::Data {
            event: copied_event(alloc, event)?,
            variables: copied_variables(alloc, variables)?,
        }),
        EntryContent::Text(text) => Ok(EntryContent::Text(text.copy(alloc)?)),
    }
}

fn copied_entries(alloc: Global, from: &JournalEntries) -> Result<JournalEntries, Memory>
    ensures { IfOk result (λ entries. entries ≡ from.now) }
{
    let mut entries = Listed::new(alloc);
    for entry in from.as_slice() {
        entries.push(JournalEntry {
            time: entry.time,
            content: copied_content(alloc, &entry.content)?,
        })?;
    }
    Ok(entries)
}

fn copied_journal_write(alloc: Global, from: &WriteJournal) -> Result<WriteJournal, Memory>
    ensures { IfOk result (λ x. x ≡ from.now) }
{
    Ok(WriteJournal {
        name: from.name.copy(alloc)?,
        entries: copied_entries(alloc, &from.entries)?,
    })
}

fn copied_initialization(
    alloc: Global,
    from: &InitializeJournal,
) -> Result<InitializeJournal, Memory>
    ensures { IfOk result (λ x. x ≡ from.now) }
{
    Ok(InitializeJournal {
        name: from.name.copy(alloc)?,
        limit: from.limit,
    })
}

fn copied_of_device(alloc: Global, from: DeviceRequest<'_>) -> Result<Request, Memory>
    ensures { IfOk result (λ x. x ≡ request_of (area.Device from.entry)) }
{
    match from {
        DeviceRequest::Status(x) => Ok(Request::Status(*x)),
        DeviceRequest::GetNameList(x) => Ok(Request::GetNameList(copied_name_list(alloc, x)?)),
        DeviceRequest::Identify => Ok(Request::Identify),
    }
}

fn copied_of_variables(alloc: Global, from: VariableRequest<'_>) -> Result<Request, Memory>
    ensures { IfOk result (λ x. x ≡ request_of (area.Variables from.entry)) }
{
    match from {
        VariableRequest::Read(x) => Ok(Request::Read(copied_read(alloc, x)?)),
        VariableRequest::Write(x) => Ok(Request::Write(copied_write(alloc, x)?)),
        VariableRequest::GetVariableAccessAttributes(x) => Ok(Request::GetVariableAccessAttributes(
            x.copy(alloc)?,
        )),
        VariableRequest::DefineNamedVariable(x) => Ok(Request::DefineNamedVariable(
            copied_definition(alloc, x)?,
        )),
        VariableRequest::DeleteVariableAccess(x) => Ok(Request::DeleteVariableAccess(
            copied_deletion(alloc, x)?,
        )),
        VariableRequest::DefineNamedVariableList(x) => Ok(Request::DefineNamedVariableList(
            copied_list(alloc, x)?,
        )),
        VariableRequest::GetNamedVariableListAttributes(x) => Ok(
            Request::GetNamedVariableListAttributes(x.copy(alloc)?),
        ),
        VariableRequest::DeleteNamedVariableList(x) => Ok(Request::DeleteNamedVariableList(
            copied_deletion(alloc, x)?,
        )),
    }
}

fn copied_of_semaphores(alloc: Global, from: SemaphoreRequest<'_>) -> Result<Request, Memory>
    ensures { IfOk result (λ x. x ≡ request_of (area.Semaphores from.entry)) }
{
    match from {
        SemaphoreRequest::TakeControl(x) => Ok(Request::TakeControl(Boxed::new(
            alloc,
            copied_take(alloc, x)?,
        )?)),
        SemaphoreRequest::RelinquishControl(x) => Ok(Request::RelinquishControl(copied_relinquish(
            alloc, x,
        )?)),
        SemaphoreRequest::DefineSemaphore(x) => Ok(Request::DefineSemaphore(copied_semaphore(
            alloc, x,
        )?)),
        SemaphoreRequest::DeleteSemaphore(x) => Ok(Request::DeleteSemaphore(x.copy(alloc)?)),
        SemaphoreRequest::ReportSemaphoreStatus(x) => Ok(Request::ReportSemaphoreStatus(x.copy(
            alloc,
        )?)),
        SemaphoreRequest::ReportPoolSemaphoreStatus(x) => Ok(Request::ReportPoolSemaphoreStatus(
            copied_pool_report(alloc, x)?,
        )),
        SemaphoreRequest::ReportSemaphoreEntryStatus(x) => Ok(Request::ReportSemaphoreEntryStatus(
            copied_entry_report(alloc, x)?,
        )),
    }
}

fn copied_of_domains(alloc: Global, from: DomainRequest<'_>) -> Result<Request, Memory>
    ensures { IfOk result (λ x. x ≡ request_of (area.Domains from.entry)) }
{
    match from {
        DomainRequest::InitiateDownloadSequence(x) => Ok(Request::InitiateDownloadSequence(
            copied_download(alloc, x)?,
        )),
        DomainRequest::InitiateUploadSequence(x) => Ok(Request::InitiateUploadSequence(x.copy(
            alloc,
        )?)),
        DomainRequest::UploadSegment(x) => Ok(Request::UploadSegment(x)),
        DomainRequest::TerminateUploadSequence(x) => Ok(Request::TerminateUploadSequence(x)),
        DomainRequest::DeleteDomain(x) => Ok(Request::DeleteDomain(x.copy(alloc)?)),
        DomainRequest::GetDomainAttributes(x) => Ok(Request::GetDomainAttributes(x.copy(alloc)?)),
    }
}

fn copied_of_invocations(alloc: Global, from: InvocationRequest<'_>) -> Result<Request, Memory>
    ensures { IfOk result (λ x. x ≡ request_of (area.Invocations from.entry)) }
{
    match from {
        InvocationRequest::CreateProgramInvocation(x) => Ok(Request::CreateProgramInvocation(
            copied_invocation(alloc, x)?,
        )),
        InvocationRequest::DeleteProgramInvocation(x) => Ok(Request::DeleteProgramInvocation(x.copy(
            alloc,
        )?)),
    }
}

fn copied_of_programs(alloc: Global, from: ProgramRequest<'_>) -> Result<Request, Memory>
    ensures { IfOk result (λ x. x ≡ request_of (area.Programs from.entry)) }
{
    match from {
        ProgramRequest::Start(x) => Ok(Request::Start(copied_run(alloc, x)?)),
        ProgramRequest::Stop(x) => Ok(Request::Stop(x.copy(alloc)?)),
        ProgramRequest::Resume(x) => Ok(Request::Resume(copied_run(alloc, x)?)),
        ProgramRequest::Reset(x) => Ok(Request::Reset(x.copy(alloc)?)),
        ProgramRequest::Kill(x) => Ok(Request::Kill(x.copy(alloc)?)),
        ProgramRequest::GetProgramInvocationAttributes(x) => Ok(
            Request::GetProgramInvocationAttributes(x.copy(alloc)?),
        ),
    }
}

fn copied_of_events(alloc: Global, from: EventRequest<'_>) -> Result<Request, Memory>
    ensures { IfOk result (λ x. x ≡ request_of (area.Events from.entry)) }
{
    match from {
        EventRequest::DefineEventCondition(x) => Ok(Request::DefineEventCondition(Boxed::new(
            alloc,
            copied_condition(alloc, x)?,
        )?)),
        EventRequest::DeleteEventCondition(x) => Ok(Request::DeleteEventCondition(
            copied_object_names(alloc, x)?,
        )),
        EventRequest::ReportEventConditionStatus(x) => Ok(Request::ReportEventConditionStatus(
            x.copy(alloc)?,
        )),
        EventRequest::AlterEventConditionMonitoring(x) => Ok(Request::AlterEventConditionMonitoring(
            copied_alteration(alloc, x)?,
        )),
        EventRequest::TriggerEvent(x) => Ok(Request::TriggerEvent(copied_trigger(alloc, x)?)),
        EventRequest::DefineEventEnrollment(x) => Ok(Request::DefineEventEnrollment(Boxed::new(
            alloc,
            copied_enrollment(alloc, x)?,
        )?)),
        EventRequest::DeleteEventEnrollment(x) => Ok(Request::DeleteEventEnrollment(
            copied_unenrollment(alloc, x)?,
        )),
    }
}

fn copied_of_journals(alloc: Global, from: JournalRequest<'_>) -> Result<Request, Memory>
    ensures { IfOk result (λ x. x ≡ request_of (area.Journals from.entry)) }
{
    match from {
        JournalRequest::ReadJournal(x) => Ok(Request::ReadJournal(Boxed::new(
            alloc,
            copied_journal_read(alloc, x)?,
        )?)),
        JournalRequest::WriteJournal(x) => Ok(Request::WriteJournal(copied_journal_write(
            alloc, x,
        )?)),
        JournalRequest::InitializeJournal(x) => Ok(Request::InitializeJournal(copied_initialization(
            alloc, x,
        )?)),
        JournalRequest::ReportJournalStatus(x) => Ok(Request::ReportJournalStatus(x.copy(alloc)?)),
        JournalRequest::CreateJournal(x) => Ok(Request::CreateJournal(x.copy(alloc)?)),
        JournalRequest::DeleteJournal(x) => Ok(Request::DeleteJournal(x.copy(alloc)?)),
    }
}

/// A copy of a request. Memory where memory runs out.
pub(crate) fn copied_request(alloc: Global, from: &Request) -> Result<Request, Memory>
    ensures { IfOk result (λ x. x ≡ from.now) }
{
    match from.area() {
        AreaRequest::Device(asked) => copied_of_device(alloc, asked),
        AreaRequest::Variables(asked) => copied_of_variables(alloc, asked),
        AreaRequest::Semaphores(asked) => copied_of_semaphores(alloc, asked),
        AreaRequest::Domains(asked) => copied_of_domains(alloc, asked),
        AreaRequest::Invocations(asked) => copied_of_invocations(alloc, asked),
        AreaRequest::Programs(asked) => copied_of_programs(alloc, asked),
        AreaRequest::Events(asked) => copied_of_events(alloc, asked),
        AreaRequest::Journals(asked) => copied_of_journals(alloc, asked),
    }
}
