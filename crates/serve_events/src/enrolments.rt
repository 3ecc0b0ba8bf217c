//! An event enrollment is defined, or some are deleted (ISO 9506-1, DefineEventEnrollment and DeleteEventEnrollment).

ghost use Rattle.std.specs.Prelude.{◌≡◌, Bool, None, OnErr, OnOk, Some, false, if◌then◌else◌};
ghost use Rattle.event_enrol.specs.Deleted.{selected};
ghost use Rattle.event_enrol.specs.Enrolments.{after_delete, define_cause, defined, is_deleted, undeleted};
ghost use Rattle.cell_client.specs.Areas.{IsServedIn};
ghost use Rattle.cell_client.specs.Effects.{felt_all, settled};
ghost use Rattle.cell_client.specs.Facts.{Facts};
ghost use Rattle.cell_client.specs.Requests.{fits, request_told, size_of};
ghost use Rattle.std.specs.Option.{option_map_or};
ghost use Rattle.serve_events.specs.Events.{condition_named, define_enrolment, delete_enrolments, enrolments_deleted, is_there};

use crate::EventTables;
use cell_client::Client;
use event_cond::Conditions;
use event_enrol::{Deletion, Enrolments};
use mms_types::{Answer, DefineEventEnrollment, DeleteEventEnrollment, Memory, ObjectName};
use std::alloc::Global;

/// Whether there is a condition that a client names so.
fn is_there(conditions: &Conditions, client: u32, name: &ObjectName) -> bool
    ensures { result ≡ is_there client conditions.now name.now }
{
    conditions.named(client, name).is_some()
}

/// Whether there is one, where one is named.
fn names_one(conditions: &Conditions, client: u32, asked: &DeleteEventEnrollment) -> bool
    ensures { result
        ≡ option_map_or (is_there client conditions.now) (condition_named asked.now) false }
{
    match asked {
        DeleteEventEnrollment::Names(_) => false,
        DeleteEventEnrollment::Condition(name) => is_there(conditions, client, name),
    }
}

/// An enrollment is defined that nothing is against, and the client answered, unless the answer is too long.
fn define_new(
    alloc: Global,
    own: &mut Client,
    tables: &mut EventTables,
    invoke: u32,
    asked: &DefineEventEnrollment,
) -> Result<(), Memory>
    requires free { (live : Bool) × (there : Bool) × (define_cause live there
        own.old.row.client asked.now tables.old.enrolments ≡ None) }
    requires settled { own.old ≡ settled own.old.row }
    ensures told { OnOk result (own.new ≡ settled (felt_all
        (request_told (size_of own.old.row.association) invoke None
        (Some Answer.DefineEventEnrollment)) own.old.row)) }
    ensures defined { OnOk result (tables.new
        ≡ (if fits (size_of own.old.row.association) invoke (Some Answer.DefineEventEnrollment)
        then record tables.old {
          enrolments = defined own.old.row.client asked.now tables.old.enrolments;
        } else tables.old)) }
    ensures kept { OnErr result (own.new ≡ own.old) }
    ensures same { OnErr result (tables.new ≡ tables.old) }
{
    let client = own.part().client();
    let Some(octets) = own.ready(alloc, invoke, &Answer::DefineEventEnrollment)? else {
        return Ok(());
    };
    if let Err(error) = tables.enrolments.define(alloc, client, asked) {
        own.release();
        return Err(error);
    }
    own.push(octets);
    Ok(())
}

/// An enrollment is defined. `live` is whether the domain of its name is live.
pub(crate) fn define(
    alloc: Global,
    own: &mut Client,
    tables: &mut EventTables,
    live: bool,
    invoke: u32,
    asked: &DefineEventEnrollment,
) -> Result<(), Memory>
    requires settled { own.old ≡ settled own.old.row }
    ensures served { OnOk result ((facts : Facts) → facts.live ≡ live
        → IsServedIn (define_enrolment asked.now) facts invoke own.old.row
        tables.old tables.new own.new) }
    ensures kept { OnErr result (own.new ≡ own.old) }
    ensures same { OnErr result (tables.new ≡ tables.old) }
{
    let client = own.part().client();
    let there = is_there(&tables.conditions, client, &asked.condition);
    match tables.enrolments.define_cause(client, asked, live, there) {
        Some(error) => own.refuse(alloc, invoke, error),
        None => define_new(alloc, own, tables, invoke, asked),
    }
}

/// The enrollments that a client's request deletes are taken out.
fn drop_selected(
    enrolments: &mut Enrolments,
    deletion: &Deletion<'_>,
    _client: u32,
    _asked: &DeleteEventEnrollment,
)
    requires { selected deletion.now ≡ is_deleted _client _asked.now }
    ensures { enrolments.new ≡ after_delete _client _asked.now enrolments.old }
{
    enrolments.delete(deletion);
}

/// Enrollments are deleted that nothing is against, and the client answered, unless the answer is too long.
fn delete_there(
    alloc: Global,
    own: &mut Client,
    tables: &mut EventTables,
    invoke: u32,
    asked: &DeleteEventEnrollment,
) -> Result<(), Memory>
    ensures told { OnOk result (own.new ≡ settled (felt_all
        (request_told (size_of own.old.row.association) invoke None
        (Some (Answer.DeleteEventEnrollment
        (undeleted own.old.row.client asked.now tables.old.enrolments)))) own.old.row)) }
    ensures deleted { OnOk result (tables.new
        ≡ enrolments_deleted own.old.row invoke asked.now tables.old) }
    ensures kept { OnErr result (own.new ≡ own.old) }
    ensures same { OnErr result (tables.new ≡ tables.old) }
{
    let client = own.part().client();
    let deletion = tables.enrolments.deletion(alloc, client, asked)?;
    let answer = Answer::DeleteEventEnrollment(deletion.undeleted);
    let Some(octets) = own.ready(alloc, invoke, &answer)? else {
        return Ok(());
    };
    drop_selected(&mut tables.enrolments, &deletion, client, asked);
    own.push(octets);
    Ok(())
}

/// Enrollments are deleted.
pub(crate) fn delete(
    alloc: Global,
    own: &mut Client,
    tables: &mut EventTables,
    invoke: u32,
    asked: &DeleteEventEnrollment,
) -> Result<(), Memory>
    ensures served { OnOk result ((facts : Facts)
        → IsServedIn (delete_enrolments asked.now) facts invoke own.old.row
        tables.old tables.new own.new) }
    ensures kept { OnErr result (own.new ≡ own.old) }
    ensures same { OnErr result (tables.new ≡ tables.old) }
{
    let there = names_one(&tables.conditions, own.part().client(), asked);
    match tables.enrolments.delete_cause(asked, there) {
        Some(error) => own.refuse(alloc, invoke, error),
        None => delete_there(alloc, own, tables, invoke, asked),
    }
}
