//! What a semaphore is and has is told (ISO 9506-1, ReportSemaphoreStatus, ReportPoolSemaphoreStatus and
//! ReportSemaphoreEntryStatus).

ghost use Rattle.std.specs.Prelude.{◌≡◌, OnErr, OnOk};
ghost use Rattle.std.specs.Option.{option_map};
ghost use Rattle.mms_types.specs.Serves.{Serves};
ghost use Rattle.mms_time.specs.Statuses.{entry_status_answer, entry_status_cause, pool_status_answer, pool_status_cause, status, status_cause};
ghost use Rattle.cell_client.specs.Areas.{IsServedIn};
ghost use Rattle.cell_client.specs.Facts.{Facts};
ghost use Rattle.serve_semaphores.specs.Semaphores.{report_entry_status, report_pool_status, report_status};

use cell_client::Client;
use mms_time::{
    Semaphores, report_pool_semaphore_status, report_semaphore_entry_status,
    report_semaphore_status,
};
use mms_types::{
    Answer, Memory, Moment, ObjectName, Refuse, ReportPoolSemaphoreStatus,
    ReportSemaphoreEntryStatus,
};
use std::alloc::Global;

/// What the semaphore of that name is and has, or why it isn't told.
fn status_said(rows: &Semaphores, client: u32, name: &ObjectName) -> Result<Answer, Refuse>
    ensures { Serves result (status_cause client name.now rows.now)
        (option_map Answer.ReportSemaphoreStatus (status client name.now rows.now)) }
{
    match report_semaphore_status(rows, client, name) {
        Err(error) => Err(Refuse::Service(error)),
        Ok(told) => Ok(Answer::ReportSemaphoreStatus(told)),
    }
}

/// The tokens of a pool, or why they aren't told.
fn pool_said(
    alloc: Global,
    rows: &Semaphores,
    client: u32,
    asked: &ReportPoolSemaphoreStatus,
) -> Result<Answer, Refuse>
    ensures { Serves result (pool_status_cause client asked.now.name rows.now)
        (option_map Answer.ReportPoolSemaphoreStatus
        (pool_status_answer client asked.now rows.now)) }
{
    let told = report_pool_semaphore_status(alloc, rows, client, asked)?;
    Ok(Answer::ReportPoolSemaphoreStatus(told))
}

/// The entries of a semaphore at that moment, or why they aren't told.
fn entries_said(
    alloc: Global,
    rows: &Semaphores,
    client: u32,
    now: Moment,
    asked: &ReportSemaphoreEntryStatus,
) -> Result<Answer, Refuse>
    ensures { Serves result (entry_status_cause client asked.now rows.now)
        (option_map Answer.ReportSemaphoreEntryStatus
        (entry_status_answer client now asked.now rows.now)) }
{
    let told = report_semaphore_entry_status(alloc, rows, client, now, asked)?;
    Ok(Answer::ReportSemaphoreEntryStatus(told))
}

/// What a semaphore is and has is told.
pub(crate) fn status(
    alloc: Global,
    own: &mut Client,
    rows: &Semaphores,
    invoke: u32,
    name: &ObjectName,
) -> Result<(), Memory>
    ensures served { OnOk result ((facts : Facts)
        → IsServedIn (report_status name.now) facts invoke own.old.row
        rows.now rows.now own.new) }
    ensures kept { OnErr result (own.new ≡ own.old) }
{
    let said = status_said(rows, own.part().client(), name);
    let _answered = own.settle(alloc, invoke, &said)?;
    Ok(())
}

/// The tokens of a pool are told.
pub(crate) fn pool_status(
    alloc: Global,
    own: &mut Client,
    rows: &Semaphores,
    invoke: u32,
    asked: &ReportPoolSemaphoreStatus,
) -> Result<(), Memory>
    ensures served { OnOk result ((facts : Facts)
        → IsServedIn (report_pool_status asked.now) facts invoke own.old.row
        rows.now rows.now own.new) }
    ensures kept { OnErr result (own.new ≡ own.old) }
{
    let said = pool_said(alloc, rows, own.part().client(), asked);
    let _answered = own.settle(alloc, invoke, &said)?;
    Ok(())
}

/// The entries of a semaphore are told.
pub(crate) fn entry_status(
    alloc: Global,
    own: &mut Client,
    rows: &Semaphores,
    now: Moment,
    invoke: u32,
    asked: &ReportSemaphoreEntryStatus,
) -> Result<(), Memory>
    ensures served { OnOk result ((facts : Facts) → facts.now ≡ now
        → IsServedIn (report_entry_status asked.now) facts invoke own.old.row
        rows.now rows.now own.new) }
    ensures kept { OnErr result (own.new ≡ own.old) }
{
    let said = entries_said(alloc, rows, own.part().client(), now, asked);
    let _answered = own.settle(alloc, invoke, &said)?;
    Ok(())
}
