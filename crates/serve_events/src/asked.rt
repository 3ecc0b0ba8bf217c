//! What a request for event conditions and event enrollments asks tables that aren't its own.

ghost use Rattle.std.specs.Prelude.{◌≡◌, ◌∷◌, [], false};
ghost use Rattle.std.specs.Option.{option_copied, option_map_or};
ghost use Rattle.association.specs.Client.{ClientRow};
ghost use Rattle.cell_client.specs.Areas.{domain_in, is_of_domain};
ghost use Rattle.cell_client.specs.Facts.{Truth};
ghost use Rattle.serve_events.specs.Events.{are_of_domain, at_its_moment, cell_watched as cell_of, first_watched, is_in_domain, names_domain as writes_domain, request_in, variable_of, watched};
ghost use Rattle.serve_events.specs.Turns.{domain_asked, variable_asked};

use crate::EventTables;
use event_cond::{ConditionClass, Conditions};
use mms_types::{DeleteEventEnrollment, EventRequest, Identifier, Monitored, ObjectName, Spec};

/// Whether a name is one of a domain.
fn is_of_domain(name: &ObjectName) -> bool
    ensures { result ≡ is_of_domain name.now }
{
    matches!(name, ObjectName::Domain { .. })
}

/// Whether one of some names is.
fn are_of_domain(names: &[ObjectName]) -> bool
    ensures { result ≡ are_of_domain names.now }
{
    names.iter().any(|name| is_of_domain(name))
}

/// Whether the name of a domain is written in what is to be watched.
fn is_in_domain(monitored: &Option<Monitored>) -> bool
    ensures { result ≡ option_map_or is_in_domain (variable_of monitored.now) false }
{
    match monitored {
        None => false,
        Some(watched) => match &watched.variable {
            Spec::Name(name) => is_of_domain(name),
            Spec::Address(_) => false,
        },
    }
}

/// Whether the enrollments that are to be deleted are named in a domain.
fn writes_domain(asked: &DeleteEventEnrollment) -> bool
    ensures { result ≡ writes_domain asked.now }
{
    match asked {
        DeleteEventEnrollment::Names(names) => are_of_domain(names.as_slice()),
        DeleteEventEnrollment::Condition(name) => is_of_domain(name),
    }
}

/// The domain of a name.
fn domain_in<'a>(name: &'a ObjectName) -> Option<&'a Identifier>
    ensures { option_copied result ≡ domain_in name.now }
{
    match name {
        ObjectName::Domain { domain, .. } => Some(domain),
        ObjectName::Vmd(_) | ObjectName::Association(_) => None,
    }
}

/// The domain that has to be live for a request, where one has to: that of a new name.
pub fn domain_asked<'a>(asked: EventRequest<'a>) -> Option<&'a Identifier>
    ensures { option_copied result ≡ domain_asked asked.entry }
{
    match asked {
        EventRequest::DefineEventCondition(asked) => domain_in(&asked.name),
        EventRequest::DefineEventEnrollment(asked) => domain_in(&asked.name),
        _ => None,
    }
}

/// The variable that is to be watched by a request, where one is.
pub fn variable_asked<'a>(asked: EventRequest<'a>) -> Option<&'a Spec>
    ensures { option_copied result ≡ variable_asked asked.entry }
{
    match asked {
        EventRequest::DefineEventCondition(asked) => match &asked.monitored {
            None => None,
            Some(watched) => Some(&watched.variable),
        },
        _ => None,
    }
}

/// Whether the name of a domain is written in a request. The moment is asked by each.
pub fn names_domain(asked: EventRequest<'_>) -> bool
    ensures { (request_in asked.entry).words
        ≡ at_its_moment result (domain_asked asked.entry) (variable_asked asked.entry) }
{
    match asked {
        EventRequest::DefineEventCondition(asked) => {
            is_of_domain(&asked.name) || is_in_domain(&asked.monitored)
        }
        EventRequest::DeleteEventCondition(names) => are_of_domain(names.as_slice()),
        EventRequest::ReportEventConditionStatus(name) => is_of_domain(name),
        EventRequest::AlterEventConditionMonitoring(asked) => is_of_domain(&asked.name),
        EventRequest::TriggerEvent(asked) => is_of_domain(&asked.name),
        EventRequest::DefineEventEnrollment(asked) => {
            is_of_domain(&asked.name) || is_of_domain(&asked.condition)
        }
        EventRequest::DeleteEventEnrollment(asked) => writes_domain(asked),
    }
}

/// The cell that a condition watches, where it is monitored.
fn cell_of(class: ConditionClass) -> Option<u16>
    ensures { result ≡ cell_of class }
{
    match class {
        ConditionClass::NetworkTriggered => None,
        ConditionClass::Monitored(watch) => Some(watch.cell),
    }
}

/// The cell that the condition of that name watches, where it is there and is monitored.
fn watched(conditions: &Conditions, client: u32, name: &ObjectName) -> Option<u16>
    ensures { result ≡ watched client conditions.now name.now }
{
    match conditions.named(client, name) {
        None => None,
        Some(condition) => cell_of(condition.class),
    }
}

/// The first that the conditions of some names watch.
fn first_watched(conditions: &Conditions, client: u32, names: &[ObjectName]) -> Option<u16>
    ensures { result ≡ first_watched client conditions.now names.now }
{
    let mut rest = names;
    while let Some((name, later)) = rest.split_first() {
        if let Some(cell) = watched(conditions, client, name) {
            return Some(cell);
        }
        rest = later;
    }
    None
}

/// The cell that is watched by a condition that a client's request names, where one is there and monitored: whether it is
/// TRUE is asked.
pub fn cell_watched(tables: &EventTables, client: u32, asked: EventRequest<'_>) -> Option<u16>
    ensures { (row : ClientRow) → row.client ≡ client
        → (request_in asked.entry).more tables.now row ≡ Truth result ∷ [] }
{
    let conditions = &tables.conditions;
    match asked {
        EventRequest::DefineEventCondition(_) => None,
        EventRequest::DeleteEventCondition(names) => {
            first_watched(conditions, client, names.as_slice())
        }
        EventRequest::ReportEventConditionStatus(name) => watched(conditions, client, name),
        EventRequest::AlterEventConditionMonitoring(asked) => {
            watched(conditions, client, &asked.name)
        }
        EventRequest::TriggerEvent(asked) => watched(conditions, client, &asked.name),
        EventRequest::DefineEventEnrollment(asked) => {
            watched(conditions, client, &asked.condition)
        }
        EventRequest::DeleteEventEnrollment(asked) => match asked {
            DeleteEventEnrollment::Names(_) => None,
            DeleteEventEnrollment::Condition(name) => watched(conditions, client, name),
        },
    }
}
