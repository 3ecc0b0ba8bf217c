//! A journal is made, deleted, or told of (ISO 9506-1, CreateJournal, DeleteJournal and ReportJournalStatus).

ghost use Rattle.std.specs.Prelude.{◌≡◌, Bool, None, OnErr, OnOk, Some, if◌then◌else◌};
ghost use Rattle.std.specs.Option.{option_map};
ghost use Rattle.mms_types.specs.Serves.{Serves};
ghost use Rattle.mms_journal.specs.Services.{after_create, after_delete, create_cause, missing_cause, status};
ghost use Rattle.cell_client.specs.Areas.{IsServedIn};
ghost use Rattle.cell_client.specs.Effects.{felt_all, settled};
ghost use Rattle.cell_client.specs.Facts.{Facts};
ghost use Rattle.cell_client.specs.Requests.{fits, request_told, size_of};
ghost use Rattle.serve_journals.specs.Journals as asked;

use cell_client::Client;
use mms_journal::Journals;
use mms_types::{Answer, Memory, ObjectName, Refuse};
use std::alloc::Global;

/// A journal is made that nothing is against, and the client answered, unless the answer is too long.
fn create_new(
    alloc: Global,
    own: &mut Client,
    journals: &mut Journals,
    invoke: u32,
    name: &ObjectName,
) -> Result<(), Memory>
    requires free { (live : Bool)
        × (create_cause live own.old.row.client name.now journals.old ≡ None) }
    requires settled { own.old ≡ settled own.old.row }
    ensures told { OnOk result (own.new ≡ settled (felt_all
        (request_told (size_of own.old.row.association) invoke None
        (Some Answer.CreateJournal)) own.old.row)) }
    ensures made { OnOk result (journals.new
        ≡ (if fits (size_of own.old.row.association) invoke (Some Answer.CreateJournal)
        then after_create own.old.row.client name.now journals.old else journals.old)) }
    ensures kept { OnErr result (own.new ≡ own.old) }
    ensures same { OnErr result (journals.new ≡ journals.old) }
{
    let client = own.part().client();
    let Some(octets) = own.ready(alloc, invoke, &Answer::CreateJournal)? else {
        return Ok(());
    };
    if let Err(error) = journals.create(alloc, client, name) {
        own.release();
        return Err(error);
    }
    own.push(octets);
    Ok(())
}

/// A journal is made. `live` is whether the domain of its name is live.
pub(crate) fn create(
    alloc: Global,
    own: &mut Client,
    journals: &mut Journals,
    live: bool,
    invoke: u32,
    name: &ObjectName,
) -> Result<(), Memory>
    requires settled { own.old ≡ settled own.old.row }
    ensures served { OnOk result ((facts : Facts) → facts.live ≡ live
        → IsServedIn (asked.create name.now) facts invoke own.old.row
        journals.old journals.new own.new) }
    ensures kept { OnErr result (own.new ≡ own.old) }
    ensures same { OnErr result (journals.new ≡ journals.old) }
{
    let client = own.part().client();
    match journals.create_cause(client, name, live) {
        Some(error) => own.refuse(alloc, invoke, error),
        None => create_new(alloc, own, journals, invoke, name),
    }
}

/// The journal of a name is deleted, and the client answered, unless the answer is too long.
fn delete_there(
    alloc: Global,
    own: &mut Client,
    journals: &mut Journals,
    invoke: u32,
    name: &ObjectName,
) -> Result<(), Memory>
    ensures told { OnOk result (own.new ≡ settled (felt_all
        (request_told (size_of own.old.row.association) invoke None
        (Some Answer.DeleteJournal)) own.old.row)) }
    ensures deleted { OnOk result (journals.new
        ≡ (if fits (size_of own.old.row.association) invoke (Some Answer.DeleteJournal)
        then after_delete own.old.row.client name.now journals.old else journals.old)) }
    ensures kept { OnErr result (own.new ≡ own.old) }
    ensures same { OnErr result (journals.new ≡ journals.old) }
{
    let key = name.key(alloc, own.part().client())?;
    let Some(octets) = own.ready(alloc, invoke, &Answer::DeleteJournal)? else {
        return Ok(());
    };
    journals.delete(&key);
    own.push(octets);
    Ok(())
}

/// The journal of that name is deleted.
pub(crate) fn delete(
    alloc: Global,
    own: &mut Client,
    journals: &mut Journals,
    invoke: u32,
    name: &ObjectName,
) -> Result<(), Memory>
    ensures served { OnOk result ((facts : Facts)
        → IsServedIn (asked.delete name.now) facts invoke own.old.row
        journals.old journals.new own.new) }
    ensures kept { OnErr result (own.new ≡ own.old) }
    ensures same { OnErr result (journals.new ≡ journals.old) }
{
    match journals.missing_cause(own.part().client(), name) {
        Some(error) => own.refuse(alloc, invoke, error),
        None => delete_there(alloc, own, journals, invoke, name),
    }
}

/// What the journal of that name is, or why it isn't told.
fn status_said(journals: &Journals, client: u32, name: &ObjectName) -> Result<Answer, Refuse>
    ensures { Serves result (missing_cause client name.now journals.now)
        (option_map Answer.ReportJournalStatus (status client name.now journals.now)) }
{
    match journals.status(client, name) {
        Err(error) => Err(Refuse::Service(error)),
        Ok(status) => Ok(Answer::ReportJournalStatus(status)),
    }
}

/// What a journal is is told.
pub(crate) fn status(
    alloc: Global,
    own: &mut Client,
    journals: &Journals,
    invoke: u32,
    name: &ObjectName,
) -> Result<(), Memory>
    ensures served { OnOk result ((facts : Facts)
        → IsServedIn (asked.report_status name.now) facts invoke own.old.row
        journals.now journals.now own.new) }
    ensures kept { OnErr result (own.new ≡ own.old) }
{
    let said = status_said(journals, own.part().client(), name);
    let _answered = own.settle(alloc, invoke, &said)?;
    Ok(())
}
