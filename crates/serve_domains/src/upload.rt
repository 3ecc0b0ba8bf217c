//! A domain is uploaded (ISO 9506-1, InitiateUploadSequence, UploadSegment and TerminateUploadSequence).

ghost use Rattle.std.specs.Prelude.{◌≡◌, IfOk, None, OnErr, OnOk, Some, if◌then◌else◌};
ghost use Rattle.std.specs.Option.{option_map};
ghost use Rattle.domain_upload.specs.Uploads.{after_terminate, initiate_answer, initiate_cause, segment_answer, segment_cause};
ghost use Rattle.cell_client.specs.Areas.{IsServedIn};
ghost use Rattle.cell_client.specs.Effects.{felt_all, settled};
ghost use Rattle.cell_client.specs.Facts.{Facts};
ghost use Rattle.cell_client.specs.Requests.{fits, request_told, size_of};
ghost use Rattle.serve_domains.specs.Domains.{initiate_upload, segment_sent, terminate_upload, upload_begun, upload_segment};

use crate::DomainTables;
use cell_client::{Client, size_of};
use mms_types::{Answer, Identifier, Memory};
use std::alloc::Global;

/// What is answered where an upload of the domain begins.
fn upload_answer(alloc: Global, tables: &DomainTables, name: &Identifier) -> Result<Answer, Memory>
    requires { initiate_cause name.now tables.now.domains tables.now.uploads ≡ None }
    ensures { IfOk result (λ answer. option_map Answer.InitiateUploadSequence
        (initiate_answer name.now tables.now.domains tables.now.uploads) ≡ Some answer) }
{
    let answer = tables
        .uploads()
        .initiate_answer(alloc, tables.domains(), name)?;
    Ok(Answer::InitiateUploadSequence(answer))
}

/// An upload begins that nothing is against, and the client is answered, unless the answer is too long.
fn begin_new(
    alloc: Global,
    own: &mut Client,
    tables: &mut DomainTables,
    invoke: u32,
    name: &Identifier,
) -> Result<(), Memory>
    requires free { initiate_cause name.now tables.old.domains tables.old.uploads ≡ None }
    requires settled { own.old ≡ settled own.old.row }
    ensures told { OnOk result (own.new ≡ settled (felt_all
        (request_told (size_of own.old.row.association) invoke None
        (option_map Answer.InitiateUploadSequence
        (initiate_answer name.now tables.old.domains tables.old.uploads))) own.old.row)) }
    ensures begun { OnOk result (tables.new
        ≡ upload_begun own.old.row invoke name.now tables.old) }
    ensures kept { OnErr result (own.new ≡ own.old) }
    ensures same { OnErr result (tables.new ≡ tables.old) }
{
    let client = own.part().client();
    let answer = upload_answer(alloc, tables, name)?;
    let Some(octets) = own.ready(alloc, invoke, &answer)? else {
        return Ok(());
    };
    if let Err(error) = tables.begin_upload(alloc, client, name) {
        own.release();
        return Err(error);
    }
    own.push(octets);
    Ok(())
}

/// An upload of a domain begins.
pub(crate) fn initiate(
    alloc: Global,
    own: &mut Client,
    tables: &mut DomainTables,
    invoke: u32,
    name: &Identifier,
) -> Result<(), Memory>
    requires settled { own.old ≡ settled own.old.row }
    ensures served { OnOk result ((facts : Facts)
        → IsServedIn (initiate_upload name.now) facts invoke own.old.row
        tables.old tables.new own.new) }
    ensures kept { OnErr result (own.new ≡ own.old) }
    ensures same { OnErr result (tables.new ≡ tables.old) }
{
    match tables.uploads().initiate_cause(tables.domains(), name) {
        Some(error) => own.refuse(alloc, invoke, error),
        None => begin_new(alloc, own, tables, invoke, name),
    }
}

/// What is answered with the next piece of an upload.
fn piece_answer(
    alloc: Global,
    tables: &DomainTables,
    client: u32,
    number: i32,
    size: u32,
) -> Result<Answer, Memory>
    requires { segment_cause client number tables.now.uploads ≡ None }
    ensures { IfOk result (λ answer. option_map Answer.UploadSegment
        (segment_answer client number size tables.now.domains tables.now.uploads)
        ≡ Some answer) }
{
    let domains = tables.domains();
    let piece = tables
        .uploads()
        .segment(alloc, client, domains, number, size)?;
    Ok(Answer::UploadSegment(piece))
}

/// The next piece of an upload is sent that nothing is against, unless the answer is too long.
fn send_piece(
    alloc: Global,
    own: &mut Client,
    tables: &mut DomainTables,
    invoke: u32,
    number: i32,
) -> Result<(), Memory>
    requires { segment_cause own.old.row.client number tables.old.uploads ≡ None }
    ensures told { OnOk result (own.new ≡ settled (felt_all
        (request_told (size_of own.old.row.association) invoke None
        (option_map Answer.UploadSegment (segment_answer own.old.row.client number
        (size_of own.old.row.association) tables.old.domains tables.old.uploads)))
        own.old.row)) }
    ensures sent { OnOk result (tables.new
        ≡ segment_sent own.old.row invoke number tables.old) }
    ensures kept { OnErr result (own.new ≡ own.old) }
    ensures same { OnErr result (tables.new ≡ tables.old) }
{
    let client = own.part().client();
    let size = size_of(own.part());
    let answer = piece_answer(alloc, tables, client, number, size)?;
    let Some(octets) = own.ready(alloc, invoke, &answer)? else {
        return Ok(());
    };
    tables.sent(client, number, size);
    own.push(octets);
    Ok(())
}

/// The next piece of an upload is sent.
pub(crate) fn segment(
    alloc: Global,
    own: &mut Client,
    tables: &mut DomainTables,
    invoke: u32,
    number: i32,
) -> Result<(), Memory>
    ensures served { OnOk result ((facts : Facts)
        → IsServedIn (upload_segment number) facts invoke own.old.row
        tables.old tables.new own.new) }
    ensures kept { OnErr result (own.new ≡ own.old) }
    ensures same { OnErr result (tables.new ≡ tables.old) }
{
    match tables.uploads().segment_cause(own.part().client(), number) {
        Some(error) => own.refuse(alloc, invoke, error),
        None => send_piece(alloc, own, tables, invoke, number),
    }
}

/// An upload ends that is there, and the client is answered, unless the answer is too long.
fn end_open(
    alloc: Global,
    own: &mut Client,
    tables: &mut DomainTables,
    invoke: u32,
    number: i32,
) -> Result<(), Memory>
    ensures told { OnOk result (own.new ≡ settled (felt_all
        (request_told (size_of own.old.row.association) invoke None
        (Some Answer.TerminateUploadSequence)) own.old.row)) }
    ensures ended { OnOk result (tables.new
        ≡ (if fits (size_of own.old.row.association) invoke (Some Answer.TerminateUploadSequence)
        then record tables.old {
          uploads = after_terminate own.old.row.client number tables.old.uploads;
        } else tables.old)) }
    ensures kept { OnErr result (own.new ≡ own.old) }
    ensures same { OnErr result (tables.new ≡ tables.old) }
{
    let client = own.part().client();
    let Some(octets) = own.ready(alloc, invoke, &Answer::TerminateUploadSequence)? else {
        return Ok(());
    };
    tables.end_upload(client, number);
    own.push(octets);
    Ok(())
}

/// An upload ends.
pub(crate) fn terminate(
    alloc: Global,
    own: &mut Client,
    tables: &mut DomainTables,
    invoke: u32,
    number: i32,
) -> Result<(), Memory>
    ensures served { OnOk result ((facts : Facts)
        → IsServedIn (terminate_upload number) facts invoke own.old.row
        tables.old tables.new own.new) }
    ensures kept { OnErr result (own.new ≡ own.old) }
    ensures same { OnErr result (tables.new ≡ tables.old) }
{
    match tables
        .uploads()
        .terminate_cause(own.part().client(), number)
    {
        Some(error) => own.refuse(alloc, invoke, error),
        None => end_open(alloc, own, tables, invoke, number),
    }
}
