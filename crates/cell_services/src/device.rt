//! Requests to the device itself (ISO 9506-1, VMD support) that its tables tell: the names of its objects.

ghost use Rattle.std.specs.Prelude.{◌≡◌, Some, None, IfOk, OnErr, OnOk};
ghost use Rattle.mms_types.specs.Areas.{device_request};
ghost use Rattle.std.specs.Option.{option_copied};
ghost use Rattle.mms_types.specs.Serves.{Serves};
ghost use Rattle.parted_state.specs.Area.{no_table};
ghost use Rattle.cell_client.specs.Association.{Takes};
ghost use Rattle.cell_client.specs.Requests.{plain_answer};
ghost use Rattle.cell_services.specs.Acts.{IsDoneIn};
ghost use Rattle.cell_services.specs.Looked.{IsLookedAt};
ghost use Rattle.cell_services.specs.Device.{domain_of, listed, scope_cause, scope_of};
ghost use Rattle.cell_services.specs.Facts.{domains_listed, is_domain_live, names_in, programs_listed};
ghost use Rattle.cell_services.specs.Tables.{Tables as Rows};

use cell_client::Client;
use mms_journal::Journals;
use mms_time::Semaphores;
use mms_types::{
    Answer, DeviceRequest, GetNameList, GetNameListAnswer, Identifier, Identifiers, Memory,
    ObjectClass, ObjectScope, Refuse, Scope, ServiceError,
};
use object_names::Names;
use program_inv::Programs;
use serve_domains::DomainTables;
use serve_events::EventTables;
use std::alloc::Global;
use variable_services::VariableTables;

/// The most names that one answer has.
const MOST: usize = 12;

/// The tables with the names of objects, as they are looked at.
#[derive(Clone, Copy)]
pub struct NameTables<'a> {
    /// Cells, named variables and lists of variables.
    pub variables: &'a VariableTables,
    /// Domains and the uploads of them.
    pub domains: &'a DomainTables,
    /// Program invocations.
    pub programs: &'a Programs,
    /// Event conditions and the enrollments on them.
    pub events: &'a EventTables,
    /// Journals.
    pub journals: &'a Journals,
    /// Semaphores.
    pub semaphores: &'a Semaphores,
}

/// The scope that a client means by one whose names it asks for. Names of a domain are listed where it is live.
fn scope_of(
    alloc: Global,
    client: u32,
    domains: &DomainTables,
    scope: &ObjectScope,
) -> Result<Scope, Refuse>
    ensures { Serves result
        (scope_cause (is_domain_live (domain_of scope.now) domains.now) scope.now)
        (Some (scope_of client scope.now)) }
{
    match scope {
        ObjectScope::Vmd => Ok(Scope::Vmd),
        ObjectScope::Association => Ok(Scope::Association(client)),
        ObjectScope::Domain(domain) => {
            if domains.domains().is_live(domain) {
                Ok(Scope::Domain(domain.copy(alloc)?))
            } else {
                Err(Refuse::Service(ServiceError::OBJECT_NON_EXISTENT))
            }
        }
    }
}

/// The names of domains, which have no scope but that of the device.
fn domains_listed(
    alloc: Global,
    domains: &DomainTables,
    scope: &Scope,
    after: Option<&Identifier>,
) -> Result<Names, Memory>
    ensures { IfOk result (λ names. record { names = names.list; more = names.more }
        ≡ listed (domains_listed domains.now scope.now (option_copied after.entry))) }
{
    match scope {
        Scope::Vmd => domains.names_after(alloc, after, MOST),
        Scope::Domain(_) | Scope::Association(_) => Ok(Names {
            list: Identifiers::new(alloc),
            more: false,
        }),
    }
}

/// The names of program invocations, which have no scope but that of the device.
fn programs_listed(
    alloc: Global,
    programs: &Programs,
    scope: &Scope,
    after: Option<&Identifier>,
) -> Result<Names, Memory>
    ensures { IfOk result (λ names. record { names = names.list; more = names.more }
        ≡ listed (programs_listed programs.now scope.now (option_copied after.entry))) }
{
    match scope {
        Scope::Vmd => programs.names_after(alloc, after, MOST),
        Scope::Domain(_) | Scope::Association(_) => Ok(Names {
            list: Identifiers::new(alloc),
            more: false,
        }),
    }
}

/// The names of a class and a scope that come after that one, with those tables.
fn names_in(
    alloc: Global,
    tables: NameTables<'_>,
    scope: &Scope,
    asked: &GetNameList,
) -> Result<GetNameListAnswer, Memory>
    ensures { IfOk result (λ told. (t : Rows) → IsLookedAt tables.entry t
        → told ≡ listed (names_in t scope.now asked.now.class asked.now.after)) }
{
    let variables = tables.variables;
    let events = tables.events;
    let after = asked.after.as_ref();
    let names = match asked.class {
        ObjectClass::NamedVariable => variables.vars.names_after(alloc, scope, after, MOST)?,
        ObjectClass::NamedVariableList => variables.lists.names_after(alloc, scope, after, MOST)?,
        ObjectClass::EventCondition => events.conditions.names_after(alloc, scope, after, MOST)?,
        ObjectClass::EventEnrollment => events.enrolments.names_after(alloc, scope, after, MOST)?,
        ObjectClass::Journal => tables.journals.names_after(alloc, scope, after, MOST)?,
        ObjectClass::Semaphore => tables.semaphores.names_after(alloc, scope, after, MOST)?,
        ObjectClass::Domain => domains_listed(alloc, tables.domains, scope, after)?,
        ObjectClass::ProgramInvocation => programs_listed(alloc, tables.programs, scope, after)?,
        _ => Names {
            list: Identifiers::new(alloc),
            more: false,
        },
    };
    Ok(GetNameListAnswer {
        names: names.list,
        more: names.more,
    })
}

/// The names that a client asks for, with those tables.
fn name_list(
    alloc: Global,
    client: u32,
    tables: NameTables<'_>,
    asked: &GetNameList,
) -> Result<Answer, Refuse>
    ensures { (t : Rows) → IsLookedAt tables.entry t → Serves result
        (scope_cause (is_domain_live (domain_of asked.now.scope) t.domains) asked.now.scope)
        (Some (Answer.GetNameList (listed
        (names_in t (scope_of client asked.now.scope) asked.now.class asked.now.after)))) }
{
    let scope = scope_of(alloc, client, tables.domains, &asked.scope)?;
    let listed = names_in(alloc, tables, &scope, asked)?;
    Ok(Answer::GetNameList(listed))
}

/// Serves a request to the device on the part of its client, with those tables. Without memory all is as before.
pub fn serve_device(
    alloc: Global,
    own: &mut Client,
    tables: NameTables<'_>,
    invoke: u32,
    asked: DeviceRequest<'_>,
) -> Result<(), Memory>
    requires tables { plain_answer own.old.row (device_request asked) ≡ None }
    ensures served { OnOk result ((t : Rows) → IsLookedAt tables.entry t
        → IsDoneIn no_table t own.old.row tt own.new (Takes invoke (device_request asked.entry))) }
    ensures kept { OnErr result (own.new ≡ own.old) }
{
    match asked {
        DeviceRequest::GetNameList(asked) => {
            let client = own.part().client();
            let said = name_list(alloc, client, tables, asked);
            let _answered = own.settle(alloc, invoke, &said)?;
            Ok(())
        }
        DeviceRequest::Status(_) | DeviceRequest::Identify => unreachable!(),
    }
}
