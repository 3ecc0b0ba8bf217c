//! A token is asked for (ISO 9506-1, TakeControl).

ghost use Rattle.std.specs.Prelude.{◌≡◌, OnErr, OnOk, if◌then◌else◌};
ghost use Rattle.mms_types.specs.Moments.{IsDated};
ghost use Rattle.mms_time.specs.Semaphores.{changed_row};
ghost use Rattle.mms_time.specs.Services.{with_take};
ghost use Rattle.mms_time.specs.declared.taking.TakeDone.TheVariants.{Answered, Waits as WaitsIn};
ghost use Rattle.cell_client.specs.Areas.{IsServedIn};
ghost use Rattle.cell_client.specs.Effects.{felt_all, settled};
ghost use Rattle.cell_client.specs.Facts.{Facts};
ghost use Rattle.cell_client.specs.Requests.{size_of};
ghost use Rattle.serve_semaphores.specs.Semaphores.{take_control};
ghost use Rattle.serve_semaphores.specs.Tokens.{take_done, take_on, taken_done, taken_on};

use association::Waiting;
use cell_client::{Client, ClientTold, size_of};
use mms_time::{SemaphoreRow, Semaphores, TakeDone};
use mms_types::{Answer, Memory, Moment, Refuse, ServiceError, TakeControl, TakeControlAnswer};
use std::alloc::Global;

/// A token is taken, or waited for. Without memory the room is given up that was made for what the client is told.
fn take_with_room(
    own: &mut Client,
    row: &mut SemaphoreRow,
    now: Moment,
    invoke: u32,
    asked: &TakeControl,
) -> Result<(), Memory>
    requires now { IsDated now }
    ensures room { OnOk result (own.new ≡ own.old) }
    ensures taken { OnOk result (row.new
        ≡ changed_row (with_take own.old.row.client invoke asked.now now) row.old) }
    ensures released { OnErr result (own.new ≡ settled own.old.row) }
    ensures same { OnErr result (row.new ≡ row.old) }
{
    let client = own.part().client();
    if let Err(error) = row.take(client, invoke, asked, now) {
        own.release();
        return Err(error);
    }
    Ok(())
}

/// A token is taken, and the client answered, unless the answer is too long.
fn take_at_once(
    alloc: Global,
    own: &mut Client,
    row: &mut SemaphoreRow,
    now: Moment,
    invoke: u32,
    asked: &TakeControl,
    answer: TakeControlAnswer,
) -> Result<(), Memory>
    requires now { IsDated now }
    requires settled { own.old ≡ settled own.old.row }
    ensures told { OnOk result (own.new ≡ settled (felt_all
        (take_done (size_of own.old.row.association) own.old.row.client invoke asked.now
        (Answered answer)) own.old.row)) }
    ensures taken { OnOk result (row.new
        ≡ (if taken_done (size_of own.old.row.association) invoke (Answered answer)
        then changed_row (with_take own.old.row.client invoke asked.now now) row.old
        else row.old)) }
    ensures kept { OnErr result (own.new ≡ own.old) }
    ensures same { OnErr result (row.new ≡ row.old) }
{
    let octets = own.spelled_answer(alloc, invoke, &Answer::TakeControl(answer))?;
    if octets.len() > size_of(own.part()) as usize {
        return own.refuse(alloc, invoke, ServiceError::OTHER);
    }
    own.reserve(1, 0)?;
    take_with_room(own, row, now, invoke, asked)?;
    own.push(octets);
    Ok(())
}

/// A token is waited for.
fn take_later(
    alloc: Global,
    own: &mut Client,
    row: &mut SemaphoreRow,
    now: Moment,
    invoke: u32,
    asked: &TakeControl,
    entry: u64,
) -> Result<(), Memory>
    requires now { IsDated now }
    requires settled { own.old ≡ settled own.old.row }
    ensures told { OnOk result (own.new ≡ settled (felt_all
        (take_done (size_of own.old.row.association) own.old.row.client invoke asked.now
        (WaitsIn entry)) own.old.row)) }
    ensures taken { OnOk result (row.new
        ≡ changed_row (with_take own.old.row.client invoke asked.now now) row.old) }
    ensures kept { OnErr result (own.new ≡ own.old) }
    ensures same { OnErr result (row.new ≡ row.old) }
{
    let key = asked.name.key(alloc, own.part().client())?;
    own.reserve(0, 1)?;
    take_with_room(own, row, now, invoke, asked)?;
    own.tell(ClientTold::Waits(Waiting { invoke, key, entry }));
    Ok(())
}

/// A token of a semaphore is asked for: the client has it, waits, or is refused.
fn take_of(
    alloc: Global,
    own: &mut Client,
    row: &mut SemaphoreRow,
    now: Moment,
    invoke: u32,
    asked: &TakeControl,
) -> Result<(), Memory>
    requires now { IsDated now }
    requires settled { own.old ≡ settled own.old.row }
    ensures told { OnOk result (own.new
        ≡ settled (felt_all (take_on own.old.row invoke asked.now row.old) own.old.row)) }
    ensures taken { OnOk result
        (row.new ≡ taken_on own.old.row invoke now asked.now row.old) }
    ensures kept { OnErr result (own.new ≡ own.old) }
    ensures same { OnErr result (row.new ≡ row.old) }
{
    match row.take_told(alloc, own.part().client(), asked) {
        Err(Refuse::Memory) => Err(Memory::wanting()),
        Err(Refuse::Service(error)) => own.refuse(alloc, invoke, error),
        Ok(TakeDone::Answered(answer)) => {
            take_at_once(alloc, own, row, now, invoke, asked, answer)
        }
        Ok(TakeDone::Waits(entry)) => take_later(alloc, own, row, now, invoke, asked, entry),
    }
}

/// A token of the semaphore of that name is asked for.
pub(crate) fn take(
    alloc: Global,
    own: &mut Client,
    rows: &mut Semaphores,
    now: Moment,
    invoke: u32,
    asked: &TakeControl,
) -> Result<(), Memory>
    requires now { IsDated now }
    requires settled { own.old ≡ settled own.old.row }
    ensures served { OnOk result ((facts : Facts) → facts.now ≡ now
        → IsServedIn (take_control asked.now) facts invoke own.old.row rows.old rows.new own.new) }
    ensures kept { OnErr result (own.new ≡ own.old) }
    ensures same { OnErr result (rows.new ≡ rows.old) }
{
    match rows.named_mut(own.part().client(), &asked.name) {
        None => own.refuse(alloc, invoke, ServiceError::OBJECT_NON_EXISTENT),
        Some(row) => take_of(alloc, own, row, now, invoke, asked),
    }
}
