//! Event conditions are deleted, altered and triggered (ISO 9506-1, DeleteEventCondition, AlterEventConditionMonitoring
//! and TriggerEvent).

ghost use Rattle.std.specs.Prelude.{◌≡◌, IfNone, IfOk, IfSome, OnErr, OnSome, Some, option_to_list};
ghost use Rattle.mms_types.specs.Moments.{IsDated};
ghost use Rattle.cell_client.specs.Areas.{IsServedIn, IsToldIn};
ghost use Rattle.cell_client.specs.Effects.{settled};
ghost use Rattle.cell_client.specs.Facts.{Facts};
ghost use Rattle.cell_client.specs.Telling.{effects_told};
ghost use Rattle.serve_events.specs.Events.{after_alter, after_delete, after_trigger, alter_condition, alter_turns, delete_conditions, delete_turns, trigger, trigger_turns};

use crate::turning::turn;
use crate::{EventTables, Turning};
use cell_client::Client;
use event_cond::ConditionsDeleted;
use mms_types::{
    AlterEventConditionMonitoring, Answer, EventRequest, Listed, Memory, Moment, ObjectNames,
    Refuse, TriggerEvent, Turned,
};
use std::alloc::Global;

/// A transition, where there is one.
pub(crate) fn one_turn(alloc: Global, turned: Option<Turned>) -> Result<Listed<Turned>, Memory>
    ensures { IfOk result (λ turns. turns ≡ option_to_list turned) }
{
    let mut turns = Listed::new(alloc);
    if let Some(turned) = turned {
        turns.push(turned)?;
    }
    Ok(turns)
}

/// The conditions of some names are deleted, and all enrollments on them.
pub(crate) fn delete(
    alloc: Global,
    own: &mut Client,
    tables: &mut EventTables,
    now: Moment,
    is_true: bool,
    invoke: u32,
    names: &ObjectNames,
) -> Result<Option<Turning>, Memory>
    requires now { IsDated now }
    requires settled { own.old ≡ settled own.old.row }
    ensures served { IfOk result (λ left. IfNone left ((facts : Facts) → facts.now ≡ now
        → facts.truth ≡ is_true
        → IsServedIn (delete_conditions names.now) facts invoke own.old.row
        tables.old tables.new own.new)) }
    ensures left { IfOk result (λ left. IfSome left (λ l. (facts : Facts) → facts.now ≡ now
        → facts.truth ≡ is_true
        → IsToldIn (delete_conditions names.now) facts invoke own.old.row tables.old
        (after_delete own.old.row.client now names.now tables.old)
        (effects_told l.told.items))) }
    ensures turns { IfOk result (λ left. IfSome left (λ l. l.turns
        ≡ delete_turns own.old.row.client now names.now tables.old)) }
    ensures unchanged { IfOk result (λ left. OnSome left (own.new ≡ own.old)) }
    ensures untouched { IfOk result (λ left. OnSome left (tables.new ≡ tables.old)) }
    ensures kept { OnErr result (own.new ≡ own.old) }
    ensures same { OnErr result (tables.new ≡ tables.old) }
{
    let client = own.part().client();
    let told = tables
        .conditions
        .delete_told(alloc, client, now, names.as_slice())?;
    let ConditionsDeleted { missing, turned } = told;
    let asked = EventRequest::DeleteEventCondition(names);
    let answer = Answer::DeleteEventCondition(missing);
    turn(
        alloc, own, tables, now, is_true, invoke, asked, &answer, turned,
    )
}

/// How a condition is monitored is altered.
pub(crate) fn alter(
    alloc: Global,
    own: &mut Client,
    tables: &mut EventTables,
    now: Moment,
    is_true: bool,
    invoke: u32,
    asked: &AlterEventConditionMonitoring,
) -> Result<Option<Turning>, Memory>
    requires now { IsDated now }
    requires settled { own.old ≡ settled own.old.row }
    ensures served { IfOk result (λ left. IfNone left ((facts : Facts) → facts.now ≡ now
        → facts.truth ≡ is_true
        → IsServedIn (alter_condition asked.now) facts invoke own.old.row
        tables.old tables.new own.new)) }
    ensures left { IfOk result (λ left. IfSome left (λ l. (facts : Facts) → facts.now ≡ now
        → facts.truth ≡ is_true
        → IsToldIn (alter_condition asked.now) facts invoke own.old.row tables.old
        (after_alter own.old.row.client now is_true asked.now tables.old)
        (effects_told l.told.items))) }
    ensures turns { IfOk result (λ left. IfSome left (λ l. l.turns
        ≡ alter_turns own.old.row.client now is_true asked.now tables.old)) }
    ensures unchanged { IfOk result (λ left. OnSome left (own.new ≡ own.old)) }
    ensures untouched { IfOk result (λ left. OnSome left (tables.new ≡ tables.old)) }
    ensures kept { OnErr result (own.new ≡ own.old) }
    ensures same { OnErr result (tables.new ≡ tables.old) }
{
    let client = own.part().client();
    match tables
        .conditions
        .alter_told(alloc, client, now, asked, is_true)
    {
        Err(Refuse::Memory) => Err(Memory::wanting()),
        Err(Refuse::Service(error)) => {
            own.refuse(alloc, invoke, error)?;
            Ok(None)
        }
        Ok(told) => {
            let turns = one_turn(alloc, told)?;
            let asked = EventRequest::AlterEventConditionMonitoring(asked);
            let answer = Answer::AlterEventConditionMonitoring;
            turn(
                alloc, own, tables, now, is_true, invoke, asked, &answer, turns,
            )
        }
    }
}

/// A condition is triggered.
pub(crate) fn trigger(
    alloc: Global,
    own: &mut Client,
    tables: &mut EventTables,
    now: Moment,
    is_true: bool,
    invoke: u32,
    asked: &TriggerEvent,
) -> Result<Option<Turning>, Memory>
    requires now { IsDated now }
    requires settled { own.old ≡ settled own.old.row }
    ensures served { IfOk result (λ left. IfNone left ((facts : Facts) → facts.now ≡ now
        → facts.truth ≡ is_true
        → IsServedIn (trigger asked.now) facts invoke own.old.row
        tables.old tables.new own.new)) }
    ensures left { IfOk result (λ left. IfSome left (λ l. (facts : Facts) → facts.now ≡ now
        → facts.truth ≡ is_true
        → IsToldIn (trigger asked.now) facts invoke own.old.row tables.old
        (after_trigger own.old.row.client now asked.now.name tables.old)
        (effects_told l.told.items))) }
    ensures turns { IfOk result (λ left. IfSome left (λ l. l.turns
        ≡ trigger_turns own.old.row.client now asked.now.name tables.old)) }
    ensures unchanged { IfOk result (λ left. OnSome left (own.new ≡ own.old)) }
    ensures untouched { IfOk result (λ left. OnSome left (tables.new ≡ tables.old)) }
    ensures kept { OnErr result (own.new ≡ own.old) }
    ensures same { OnErr result (tables.new ≡ tables.old) }
{
    let client = own.part().client();
    match tables.conditions.trigger_told(alloc, client, now, asked) {
        Err(Refuse::Memory) => Err(Memory::wanting()),
        Err(Refuse::Service(error)) => {
            own.refuse(alloc, invoke, error)?;
            Ok(None)
        }
        Ok(turns) => {
            let asked = EventRequest::TriggerEvent(asked);
            let answer = Answer::TriggerEvent;
            turn(
                alloc, own, tables, now, is_true, invoke, asked, &answer, turns,
            )
        }
    }
}
