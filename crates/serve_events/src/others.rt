//! Which clients a request tells of transitions.

ghost use Rattle.std.specs.Prelude.{◌≡◌, ℕ, [], false, IfOk, OnErr, Some, if◌then◌else◌};
ghost use Rattle.mms_types.specs.Moments.{IsDated};
ghost use Rattle.cell_client.specs.Areas.{also_in};
ghost use Rattle.cell_client.specs.Facts.{Facts};
ghost use Rattle.cell_client.specs.Requests.{fits, size_of};
ghost use Rattle.serve_events.specs.Events.{alter_condition, delete_conditions, request_in, trigger};
ghost use Rattle.serve_events.specs.Told.{clients_of};
ghost use Rattle.serve_events.specs.Turns.{is_one_of, is_told, tells_alone};

use crate::EventTables;
use crate::moving::one_turn;
use association::ClientPart;
use cell_client::{answer_octets, size_of};
use event_enrol::Enrolments;
use mms_types::{
    AlterEventConditionMonitoring, Answer, EventRequest, Memory, Moment, ObjectNames, Refuse,
    TriggerEvent, Turned,
};
use std::alloc::Global;

/// The clients that are told of transitions, in order, each as often as it is told something.
fn clients_told(
    alloc: Global,
    enrolments: &Enrolments,
    turns: &[Turned],
) -> Result<Vec<u32>, Memory>
    ensures { IfOk result (λ clients. clients.items ≡ clients_of turns.now enrolments.now) }
{
    let mut clients = Vec::new(alloc);
    let mut rest = turns;
    while let Some((turned, later)) = rest.split_first() {
        enrolments.told_clients(turned, &mut clients)?;
        rest = later;
    }
    Ok(clients)
}

/// Who is told of transitions, where the answer is not longer than was negotiated.
fn clients_if(
    alloc: Global,
    part: &ClientPart,
    invoke: u32,
    answer: &Answer,
    enrolments: &Enrolments,
    turns: &[Turned],
) -> Result<Vec<u32>, Memory>
    ensures { IfOk result (λ clients. clients.items
        ≡ (if fits (size_of part.now.row.association) invoke (Some answer.now)
        then clients_of turns.now enrolments.now else [])) }
{
    let octets = answer_octets(alloc, invoke, answer)?;
    if octets.len() > size_of(part) as usize {
        return Ok(Vec::new(alloc));
    }
    clients_told(alloc, enrolments, turns)
}

/// Whom the deletion of conditions tells something.
fn deletion_tells(
    alloc: Global,
    tables: &EventTables,
    part: &ClientPart,
    now: Moment,
    invoke: u32,
    names: &ObjectNames,
) -> Result<Vec<u32>, Memory>
    ensures { IfOk result (λ clients. (facts : Facts) → facts.now ≡ now → (k : ℕ)
        → is_told (also_in (delete_conditions names.now) facts part.now.row invoke tables.now) k
        ≡ is_one_of clients.items k) }
{
    let conditions = &tables.conditions;
    let told = conditions.delete_told(alloc, part.client(), now, names.as_slice())?;
    let answer = Answer::DeleteEventCondition(told.missing);
    let turns = told.turned.as_slice();
    clients_if(alloc, part, invoke, &answer, &tables.enrolments, turns)
}

/// Whom an alteration tells something.
fn alteration_tells(
    alloc: Global,
    tables: &EventTables,
    part: &ClientPart,
    now: Moment,
    is_true: bool,
    invoke: u32,
    asked: &AlterEventConditionMonitoring,
) -> Result<Vec<u32>, Memory>
    requires now { IsDated now }
    ensures { IfOk result (λ clients. (facts : Facts) → facts.now ≡ now → facts.truth ≡ is_true
        → (k : ℕ)
        → is_told (also_in (alter_condition asked.now) facts part.now.row invoke tables.now) k
        ≡ is_one_of clients.items k) }
{
    let conditions = &tables.conditions;
    match conditions.alter_told(alloc, part.client(), now, asked, is_true) {
        Err(Refuse::Memory) => Err(Memory::wanting()),
        Err(Refuse::Service(_)) => Ok(Vec::new(alloc)),
        Ok(told) => {
            let turns = one_turn(alloc, told)?;
            let answer = Answer::AlterEventConditionMonitoring;
            clients_if(
                alloc,
                part,
                invoke,
                &answer,
                &tables.enrolments,
                turns.as_slice(),
            )
        }
    }
}

/// Whom a trigger tells something.
fn trigger_tells(
    alloc: Global,
    tables: &EventTables,
    part: &ClientPart,
    now: Moment,
    invoke: u32,
    asked: &TriggerEvent,
) -> Result<Vec<u32>, Memory>
    ensures { IfOk result (λ clients. (facts : Facts) → facts.now ≡ now → (k : ℕ)
        → is_told (also_in (trigger asked.now) facts part.now.row invoke tables.now) k
        ≡ is_one_of clients.items k) }
{
    let conditions = &tables.conditions;
    match conditions.trigger_told(alloc, part.client(), now, asked) {
        Err(Refuse::Memory) => Err(Memory::wanting()),
        Err(Refuse::Service(_)) => Ok(Vec::new(alloc)),
        Ok(turns) => {
            let answer = Answer::TriggerEvent;
            clients_if(
                alloc,
                part,
                invoke,
                &answer,
                &tables.enrolments,
                turns.as_slice(),
            )
        }
    }
}

/// Which clients a request tells of transitions, its own among them, each as often as it is told: nobody where it is
/// refused, and nobody by a request that makes no transition. Nothing changes.
pub fn tells(
    alloc: Global,
    tables: &EventTables,
    part: &ClientPart,
    now: Moment,
    is_true: bool,
    invoke: u32,
    asked: EventRequest<'_>,
) -> Result<Vec<u32>, Memory>
    requires now { IsDated now }
    ensures told { IfOk result (λ clients. (facts : Facts) → facts.now ≡ now
        → facts.truth ≡ is_true → (k : ℕ)
        → is_told (also_in (request_in asked.entry) facts part.now.row invoke tables.now) k
        ≡ is_one_of clients.items k) }
    ensures wants { OnErr result (tells_alone asked.entry ≡ false) }
{
    match asked {
        EventRequest::DeleteEventCondition(names) => {
            deletion_tells(alloc, tables, part, now, invoke, names)
        }
        EventRequest::AlterEventConditionMonitoring(asked) => {
            alteration_tells(alloc, tables, part, now, is_true, invoke, asked)
        }
        EventRequest::TriggerEvent(asked) => {
            trigger_tells(alloc, tables, part, now, invoke, asked)
        }
        _ => Ok(Vec::new(alloc)),
    }
}
