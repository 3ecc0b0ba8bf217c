//! Entries of a journal are read, written, and go (ISO 9506-1, ReadJournal, WriteJournal and InitializeJournal).

ghost use Rattle.std.specs.Prelude.{◌≡◌, None, OnErr, OnOk, Some, if◌then◌else◌};
ghost use Rattle.std.specs.Option.{option_map};
ghost use Rattle.mms_types.specs.Serves.{Serves};
ghost use Rattle.mms_journal.specs.Services.{after_initialize, after_write, missing_cause, read_answer, write_cause};
ghost use Rattle.cell_client.specs.Areas.{IsServedIn};
ghost use Rattle.cell_client.specs.Effects.{felt_all, settled};
ghost use Rattle.cell_client.specs.Facts.{Facts};
ghost use Rattle.cell_client.specs.Requests.{fits, request_told, size_of};
ghost use Rattle.serve_journals.specs.Journals as asked_of;

use cell_client::Client;
use mms_journal::{Journals, Prepared};
use mms_types::{Answer, InitializeJournal, Memory, ReadJournal, Refuse, WriteJournal};
use std::alloc::Global;

/// Which entries are told, or why none are.
fn read_said(
    alloc: Global,
    journals: &Journals,
    client: u32,
    asked: &ReadJournal,
) -> Result<Answer, Refuse>
    ensures { Serves result (missing_cause client asked.now.name journals.now)
        (option_map Answer.ReadJournal (read_answer client asked.now journals.now)) }
{
    let told = journals.read(alloc, client, asked)?;
    Ok(Answer::ReadJournal(told))
}

/// Entries are read.
pub(crate) fn read(
    alloc: Global,
    own: &mut Client,
    journals: &Journals,
    invoke: u32,
    asked: &ReadJournal,
) -> Result<(), Memory>
    ensures served { OnOk result ((facts : Facts)
        → IsServedIn (asked_of.read asked.now) facts invoke own.old.row
        journals.now journals.now own.new) }
    ensures kept { OnErr result (own.new ≡ own.old) }
{
    let said = read_said(alloc, journals, own.part().client(), asked);
    let _answered = own.settle(alloc, invoke, &said)?;
    Ok(())
}

/// Entries are written that nothing is against, and the client answered, unless the answer is too long.
fn write_there(
    alloc: Global,
    own: &mut Client,
    journals: &mut Journals,
    invoke: u32,
    asked: &WriteJournal,
    prepared: Prepared,
) -> Result<(), Memory>
    requires free { write_cause own.old.row.client asked.now.name prepared journals.old ≡ None }
    requires prepared { prepared ≡ asked.now.entries }
    requires settled { own.old ≡ settled own.old.row }
    ensures told { OnOk result (own.new ≡ settled (felt_all
        (request_told (size_of own.old.row.association) invoke None
        (Some Answer.WriteJournal)) own.old.row)) }
    ensures written { OnOk result (journals.new
        ≡ (if fits (size_of own.old.row.association) invoke (Some Answer.WriteJournal)
        then after_write own.old.row.client asked.now.name asked.now.entries journals.old
        else journals.old)) }
    ensures kept { OnErr result (own.new ≡ own.old) }
    ensures same { OnErr result (journals.new ≡ journals.old) }
{
    let client = own.part().client();
    let Some(octets) = own.ready(alloc, invoke, &Answer::WriteJournal)? else {
        return Ok(());
    };
    if let Err(error) = journals.write(client, &asked.name, prepared) {
        own.release();
        return Err(error);
    }
    own.push(octets);
    Ok(())
}

/// Entries are written, all or none.
pub(crate) fn write(
    alloc: Global,
    own: &mut Client,
    journals: &mut Journals,
    invoke: u32,
    asked: &WriteJournal,
) -> Result<(), Memory>
    requires settled { own.old ≡ settled own.old.row }
    ensures served { OnOk result ((facts : Facts)
        → IsServedIn (asked_of.write asked.now) facts invoke own.old.row
        journals.old journals.new own.new) }
    ensures kept { OnErr result (own.new ≡ own.old) }
    ensures same { OnErr result (journals.new ≡ journals.old) }
{
    let client = own.part().client();
    match journals.prepare(alloc, client, asked) {
        Err(Refuse::Memory) => Err(Memory::wanting()),
        Err(Refuse::Service(error)) => own.refuse(alloc, invoke, error),
        Ok(prepared) => write_there(alloc, own, journals, invoke, asked, prepared),
    }
}

/// So many entries of a journal go, and the client is answered, unless the answer is too long.
fn initialize_there(
    alloc: Global,
    own: &mut Client,
    journals: &mut Journals,
    invoke: u32,
    asked: &InitializeJournal,
    count: u32,
) -> Result<(), Memory>
    ensures told { OnOk result (own.new ≡ settled (felt_all
        (request_told (size_of own.old.row.association) invoke None
        (Some (Answer.InitializeJournal count))) own.old.row)) }
    ensures gone { OnOk result (journals.new
        ≡ (if fits (size_of own.old.row.association) invoke (Some (Answer.InitializeJournal count))
        then after_initialize own.old.row.client asked.now journals.old else journals.old)) }
    ensures kept { OnErr result (own.new ≡ own.old) }
    ensures same { OnErr result (journals.new ≡ journals.old) }
{
    let client = own.part().client();
    let Some(octets) = own.ready(alloc, invoke, &Answer::InitializeJournal(count))? else {
        return Ok(());
    };
    journals.initialize(client, asked);
    own.push(octets);
    Ok(())
}

/// Entries of a journal go.
pub(crate) fn initialize(
    alloc: Global,
    own: &mut Client,
    journals: &mut Journals,
    invoke: u32,
    asked: &InitializeJournal,
) -> Result<(), Memory>
    ensures served { OnOk result ((facts : Facts)
        → IsServedIn (asked_of.initialize asked.now) facts invoke own.old.row
        journals.old journals.new own.new) }
    ensures kept { OnErr result (own.new ≡ own.old) }
    ensures same { OnErr result (journals.new ≡ journals.old) }
{
    match journals.initialize_told(own.part().client(), asked) {
        Err(error) => own.refuse(alloc, invoke, error),
        Ok(count) => initialize_there(alloc, own, journals, invoke, asked, count),
    }
}
