//! A semaphore is defined, or deleted (ISO 9506-1, DefineSemaphore and DeleteSemaphore).

ghost use Rattle.std.specs.Prelude.{◌≡◌, Bool, None, OnErr, OnOk, Some, if◌then◌else◌};
ghost use Rattle.mms_time.specs.Services.{define_after, define_cause, delete_after};
ghost use Rattle.cell_client.specs.Areas.{IsServedIn};
ghost use Rattle.cell_client.specs.Effects.{felt_all, settled};
ghost use Rattle.cell_client.specs.Facts.{Facts};
ghost use Rattle.cell_client.specs.Requests.{fits, request_told, size_of};
ghost use Rattle.serve_semaphores.specs.Semaphores.{define_semaphore, delete_semaphore};

use cell_client::Client;
use mms_time::{
    Semaphores, define_semaphore, define_semaphore_cause, delete_semaphore, delete_semaphore_cause,
};
use mms_types::{Answer, DefineSemaphore, Memory, ObjectName};
use std::alloc::Global;

/// A semaphore is defined that nothing is against, and the client answered, unless the answer is too long.
fn define_new(
    alloc: Global,
    own: &mut Client,
    rows: &mut Semaphores,
    invoke: u32,
    asked: &DefineSemaphore,
) -> Result<(), Memory>
    requires free { (live : Bool)
        × (define_cause live own.old.row.client asked.now rows.old ≡ None) }
    requires settled { own.old ≡ settled own.old.row }
    ensures told { OnOk result (own.new ≡ settled (felt_all
        (request_told (size_of own.old.row.association) invoke None
        (Some Answer.DefineSemaphore)) own.old.row)) }
    ensures defined { OnOk result (rows.new
        ≡ (if fits (size_of own.old.row.association) invoke (Some Answer.DefineSemaphore)
        then define_after own.old.row.client asked.now rows.old else rows.old)) }
    ensures kept { OnErr result (own.new ≡ own.old) }
    ensures same { OnErr result (rows.new ≡ rows.old) }
{
    let client = own.part().client();
    let Some(octets) = own.ready(alloc, invoke, &Answer::DefineSemaphore)? else {
        return Ok(());
    };
    if let Err(error) = define_semaphore(alloc, rows, client, asked) {
        own.release();
        return Err(error);
    }
    own.push(octets);
    Ok(())
}

/// A semaphore is defined. `live` is whether the domain of its name is live.
pub(crate) fn define(
    alloc: Global,
    own: &mut Client,
    rows: &mut Semaphores,
    live: bool,
    invoke: u32,
    asked: &DefineSemaphore,
) -> Result<(), Memory>
    requires settled { own.old ≡ settled own.old.row }
    ensures served { OnOk result ((facts : Facts) → facts.live ≡ live
        → IsServedIn (define_semaphore asked.now) facts invoke own.old.row
        rows.old rows.new own.new) }
    ensures kept { OnErr result (own.new ≡ own.old) }
    ensures same { OnErr result (rows.new ≡ rows.old) }
{
    match define_semaphore_cause(rows, own.part().client(), asked, live) {
        Some(error) => own.refuse(alloc, invoke, error),
        None => define_new(alloc, own, rows, invoke, asked),
    }
}

/// A semaphore is deleted, and the client answered, unless the answer is too long.
fn delete_there(
    alloc: Global,
    own: &mut Client,
    rows: &mut Semaphores,
    invoke: u32,
    name: &ObjectName,
) -> Result<(), Memory>
    ensures told { OnOk result (own.new ≡ settled (felt_all
        (request_told (size_of own.old.row.association) invoke None
        (Some Answer.DeleteSemaphore)) own.old.row)) }
    ensures deleted { OnOk result (rows.new
        ≡ (if fits (size_of own.old.row.association) invoke (Some Answer.DeleteSemaphore)
        then delete_after own.old.row.client name.now rows.old else rows.old)) }
    ensures kept { OnErr result (own.new ≡ own.old) }
    ensures same { OnErr result (rows.new ≡ rows.old) }
{
    let key = name.key(alloc, own.part().client())?;
    let Some(octets) = own.ready(alloc, invoke, &Answer::DeleteSemaphore)? else {
        return Ok(());
    };
    delete_semaphore(rows, &key);
    own.push(octets);
    Ok(())
}

/// The semaphore of that name is deleted.
pub(crate) fn delete(
    alloc: Global,
    own: &mut Client,
    rows: &mut Semaphores,
    invoke: u32,
    name: &ObjectName,
) -> Result<(), Memory>
    ensures served { OnOk result ((facts : Facts)
        → IsServedIn (delete_semaphore name.now) facts invoke own.old.row
        rows.old rows.new own.new) }
    ensures kept { OnErr result (own.new ≡ own.old) }
    ensures same { OnErr result (rows.new ≡ rows.old) }
{
    match delete_semaphore_cause(rows, own.part().client(), name) {
        Some(error) => own.refuse(alloc, invoke, error),
        None => delete_there(alloc, own, rows, invoke, name),
    }
}
