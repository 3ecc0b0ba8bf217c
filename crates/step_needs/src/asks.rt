//! The tables that a confirmed request uses (this profile's choice).

ghost use Rattle.std.specs.Prelude.{◌≡◌, ◌≤◌, [], ◌∷◌, ◌++◌, is_some, if◌then◌else◌, MatchOption};
ghost use Rattle.std.specs.List.{flat_map, list_any};
ghost use Rattle.parted_state.specs.Sets.{IsSetOf};
ghost use Rattle.part_table.specs.Held.{held_at};
ghost use Rattle.serve_variables.specs.Variables.{guards_asked};
ghost use Rattle.serve_events.specs.Events.{request_in};
ghost use Rattle.step_parts.specs.Needs.{placed};
ghost use Rattle.step_parts.specs.Partition.{events_in, events_place, variables_in, variables_place};
ghost use Rattle.cell_services.specs.Device.{domain_of, is_domain};
ghost use Rattle.cell_services.specs.Facts.{Live, Names, cell_tables, domain_tables, guard_tables, scope_tables, tables_for};
ghost use Rattle.cell_services.specs.Services.{area_of, more_of, request_asks};
ghost use Rattle.cell_services.specs.Tables.{own_domains};
ghost use Rattle.step_needs.specs.Sight.{IsSight, row, tables};

use crate::heard::Sight;
use mms_types::{
    AreaRequest, DeviceRequest, EventRequest, ObjectClass, ObjectScope, Request, VariableRequest,
};
use parted_state::Parts;
use serve_domains::scope_asked;
use serve_events::{cell_watched, variable_asked};
use serve_variables::is_guarded;
use step_parts::slots::shown;
use step_parts::tables::{CLOCK, DOMAINS, EVENTS, JOURNALS, PROGRAMS, VARIABLES, semaphores};

/// The part with the names of a class, where it has one.
fn class_part(clients: u32, class: ObjectClass) -> Option<u8>
    requires few { clients ≤ 64 }
    ensures { MatchOption result (flat_map tables_for (Names class ∷ []) ≡ [])
        (λ part. placed clients (flat_map tables_for (Names class ∷ [])) ≡ part ∷ []) }
{
    match class {
        ObjectClass::NamedVariable | ObjectClass::NamedVariableList => Some(VARIABLES),
        ObjectClass::Semaphore => Some(semaphores(clients)),
        ObjectClass::EventCondition | ObjectClass::EventEnrollment => Some(EVENTS),
        ObjectClass::Journal => Some(JOURNALS),
        ObjectClass::Domain => Some(DOMAINS),
        ObjectClass::ProgramInvocation => Some(PROGRAMS),
        ObjectClass::ScatteredAccess
        | ObjectClass::NamedType
        | ObjectClass::EventAction
        | ObjectClass::OperatorStation => None,
    }
}

/// The parts from which names of a class are listed in a scope.
fn listing(scope: &ObjectScope, class: ObjectClass, clients: u32) -> Parts
    requires few { clients ≤ 64 }
    ensures { IsSetOf result (placed clients
        (flat_map tables_for (Live (is_domain scope.now) (domain_of scope.now)
        ∷ Names class ∷ []))) }
{
    match (scope, class_part(clients, class)) {
        (ObjectScope::Domain(_), Some(part)) => Parts::of(&[DOMAINS, part]),
        (ObjectScope::Domain(_), None) => Parts::of(&[DOMAINS]),
        (_, Some(part)) => Parts::of(&[part]),
        (_, None) => Parts::new(),
    }
}

/// These parts, that of the domains where one is written in the request, and that of the variables where a cell is
/// asked for.
fn used(own: &[u8], of_domain: bool, of_cell: bool) -> Parts
    ensures { IsSetOf result (own.now ++ (domain_tables of_domain ++ cell_tables of_cell)) }
{
    let mut parts = Parts::of(own);
    if of_domain {
        parts.push(DOMAINS);
    }
    if of_cell {
        parts.push(VARIABLES);
    }
    parts
}

/// The part of the domains, and those of the objects that have a scope, where it is asked whether one has it.
fn scoped(asked: bool, clients: u32) -> Parts
    requires few { clients ≤ 64 }
    ensures { IsSetOf result (placed clients
        (own_domains.numbers ++ (if asked then scope_tables else []))) }
{
    if asked {
        Parts::of(&[DOMAINS, VARIABLES, EVENTS, JOURNALS, semaphores(clients)])
    } else {
        Parts::of(&[DOMAINS])
    }
}

/// The parts of the tables that a request uses, by its words, with so many clients.
pub(crate) fn request_asks(asked: &Request, clients: u32) -> Parts
    requires few { clients ≤ 64 }
    ensures { IsSetOf result (placed clients (request_asks asked.now)) }
{
    match asked.area() {
        AreaRequest::Device(DeviceRequest::GetNameList(asked)) => {
            listing(&asked.scope, asked.class, clients)
        }
        AreaRequest::Device(_) => Parts::new(),
        AreaRequest::Variables(asked) => {
            used(&[VARIABLES], serve_variables::names_domain(asked), false)
        }
        AreaRequest::Semaphores(asked) => {
            let own = [semaphores(clients), CLOCK];
            used(&own, serve_semaphores::names_domain(asked), false)
        }
        AreaRequest::Domains(asked) => scoped(scope_asked(asked).is_some(), clients),
        AreaRequest::Invocations(_) => Parts::of(&[DOMAINS, PROGRAMS]),
        AreaRequest::Programs(_) => Parts::of(&[PROGRAMS]),
        AreaRequest::Events(asked) => {
            let of_cell = variable_asked(asked).is_some();
            used(&[EVENTS, CLOCK], serve_events::names_domain(asked), of_cell)
        }
        AreaRequest::Journals(asked) => {
            used(&[JOURNALS], serve_journals::names_domain(asked), false)
        }
    }
}

impl Sight<'_> {
    /// The part of the semaphores, where guards are looked up for a request for variables.
    fn guards_asked(self, asked: VariableRequest<'_>) -> Parts
        requires sight { IsSight self }
        ensures { IsSetOf result (placed self.entry.clients (guard_tables (list_any is_some
            (guards_asked asked.entry (row self.entry).client
            (variables_in (held_at self.entry.held.now variables_place)))))) }
    {
        let variables = shown(self.alloc, self.held, VARIABLES);
        if is_guarded(variables.get(), self.part.client(), asked) {
            Parts::of(&[semaphores(self.clients)])
        } else {
            Parts::new()
        }
    }

    /// The part of the variables, where a request names an event condition that is there and is monitored.
    fn cell_asked(self, asked: EventRequest<'_>) -> Parts
        ensures { IsSetOf result (placed self.entry.clients (flat_map tables_for
            ((request_in asked.entry).more
            (events_in (held_at self.entry.held.now events_place)) (row self.entry)))) }
    {
        let events = shown(self.alloc, self.held, EVENTS);
        let cell = cell_watched(events.get(), self.part.client(), asked);
        used(&[], false, cell.is_some())
    }

    /// The parts of the tables that a request uses beside those of its words, by what they show.
    pub(crate) fn request_more(self, asked: &Request) -> Parts
        requires sight { IsSight self }
        ensures { IsSetOf result (placed self.entry.clients
            (more_of (tables self.entry) (row self.entry) (area_of asked.now))) }
    {
        match asked.area() {
            AreaRequest::Variables(asked) => self.guards_asked(asked),
            AreaRequest::Events(asked) => self.cell_asked(asked),
            AreaRequest::Device(_)
            | AreaRequest::Semaphores(_)
            | AreaRequest::Domains(_)
            | AreaRequest::Invocations(_)
            | AreaRequest::Programs(_)
            | AreaRequest::Journals(_) => Parts::new(),
        }
    }
}
