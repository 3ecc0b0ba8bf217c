//! An event condition is defined, or told of (ISO 9506-1, DefineEventCondition and ReportEventConditionStatus).

ghost use Rattle.std.specs.Prelude.{◌≡◌, Bool, None, OnErr, OnOk, Some};
ghost use Rattle.mms_types.specs.Moments.{IsDated};
ghost use Rattle.mms_types.specs.Order.{key_of};
ghost use Rattle.mms_types.specs.Serves.{Serves};
ghost use Rattle.event_cond.specs.Services.{define_cause, status, status_cause};
ghost use Rattle.event_enrol.specs.Enrolments.{number_on};
ghost use Rattle.std.specs.Option.{option_map};
ghost use Rattle.cell_client.specs.Areas.{IsServedIn};
ghost use Rattle.cell_client.specs.Effects.{felt_all, settled};
ghost use Rattle.cell_client.specs.Facts.{Facts};
ghost use Rattle.cell_client.specs.Requests.{request_told, size_of};
ghost use Rattle.serve_events.specs.Events.{condition_defined, define_condition, report_status};

use crate::EventTables;
use cell_client::Client;
use mms_types::{
    Answer, CellFact, DefineEventCondition, Memory, Moment, ObjectName, Refuse, ServiceError,
};
use std::alloc::Global;

/// A condition is defined that nothing is against, and the client answered, unless the answer is too long.
fn define_new(
    alloc: Global,
    own: &mut Client,
    tables: &mut EventTables,
    now: Moment,
    cell: CellFact,
    invoke: u32,
    asked: &DefineEventCondition,
) -> Result<(), Memory>
    requires now { IsDated now }
    requires free { (live : Bool) × (define_cause live own.old.row.client asked.now cell
        tables.old.conditions ≡ None) }
    requires settled { own.old ≡ settled own.old.row }
    ensures told { OnOk result (own.new ≡ settled (felt_all
        (request_told (size_of own.old.row.association) invoke None
        (Some Answer.DefineEventCondition)) own.old.row)) }
    ensures defined { OnOk result (tables.new
        ≡ condition_defined own.old.row invoke now asked.now cell tables.old) }
    ensures kept { OnErr result (own.new ≡ own.old) }
    ensures same { OnErr result (tables.new ≡ tables.old) }
{
    let client = own.part().client();
    let Some(octets) = own.ready(alloc, invoke, &Answer::DefineEventCondition)? else {
        return Ok(());
    };
    if let Err(error) = tables.conditions.define(alloc, client, now, asked, cell) {
        own.release();
        return Err(error);
    }
    own.push(octets);
    Ok(())
}

/// A condition is defined. `live` is whether the domain of its name is live, and `cell` what becomes of the cell that it
/// is to watch.
pub(crate) fn define(
    alloc: Global,
    own: &mut Client,
    tables: &mut EventTables,
    now: Moment,
    live: bool,
    cell: CellFact,
    invoke: u32,
    asked: &DefineEventCondition,
) -> Result<(), Memory>
    requires now { IsDated now }
    requires settled { own.old ≡ settled own.old.row }
    ensures served { OnOk result ((facts : Facts) → facts.now ≡ now → facts.live ≡ live
        → facts.cell own.old.row.client ≡ cell
        → IsServedIn (define_condition asked.now) facts invoke own.old.row
        tables.old tables.new own.new) }
    ensures kept { OnErr result (own.new ≡ own.old) }
    ensures same { OnErr result (tables.new ≡ tables.old) }
{
    let client = own.part().client();
    match tables.conditions.define_cause(client, asked, live, cell) {
        Some(error) => own.refuse(alloc, invoke, error),
        None => define_new(alloc, own, tables, now, cell, invoke, asked),
    }
}

/// What the condition of that name is, or why it isn't told.
fn status_said(
    alloc: Global,
    tables: &EventTables,
    client: u32,
    name: &ObjectName,
) -> Result<Answer, Refuse>
    ensures { Serves result (status_cause client name.now tables.now.conditions)
        (option_map Answer.ReportEventConditionStatus (status client name.now
        (number_on (key_of client name.now) tables.now.enrolments) tables.now.conditions)) }
{
    if tables.conditions.named(client, name).is_none() {
        return Err(Refuse::Service(ServiceError::OBJECT_NON_EXISTENT));
    }
    let key = name.key(alloc, client)?;
    let enrolments = tables.enrolments.number_on(&key);
    match tables.conditions.status(client, name, enrolments) {
        Err(error) => Err(Refuse::Service(error)),
        Ok(status) => Ok(Answer::ReportEventConditionStatus(status)),
    }
}

/// What a condition is is told.
pub(crate) fn status(
    alloc: Global,
    own: &mut Client,
    tables: &EventTables,
    invoke: u32,
    name: &ObjectName,
) -> Result<(), Memory>
    ensures served { OnOk result ((facts : Facts)
        → IsServedIn (report_status name.now) facts invoke own.old.row
        tables.now tables.now own.new) }
    ensures kept { OnErr result (own.new ≡ own.old) }
{
    let said = status_said(alloc, tables, own.part().client(), name);
    let _answered = own.settle(alloc, invoke, &said)?;
    Ok(())
}
