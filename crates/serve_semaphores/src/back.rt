//! A token is given back (ISO 9506-1, RelinquishControl).

ghost use Rattle.std.specs.Prelude.{◌≡◌, false, true, IfOk, IfNone, IfSome, OnErr, OnOk, OnSome, Some, None, if◌then◌else◌};
ghost use Rattle.mms_types.specs.Moments.{IsDated};
ghost use Rattle.mms_time.specs.Semaphores.{changed_row};
ghost use Rattle.mms_time.specs.Services.{relinquish_after, relinquish_grant_in, with_token_back};
ghost use Rattle.cell_client.specs.Areas.{IsServedIn, IsToldIn};
ghost use Rattle.cell_client.specs.Effects.{felt_all, settled};
ghost use Rattle.cell_client.specs.Facts.{Facts};
ghost use Rattle.cell_client.specs.Requests.{fits, request_told, size_of};
ghost use Rattle.cell_client.specs.Telling.{effects_told};
ghost use Rattle.serve_semaphores.specs.Semaphores.{relinquish_control};
ghost use Rattle.serve_semaphores.specs.Tokens.{grants_nobody, grants_nobody_on, relinquish_cause_on, relinquish_on, relinquished_on};

use crate::granting::granting;
use cell_client::{Client, ClientTold, size_of};
use mms_time::{SemaphoreRow, Semaphores};
use mms_types::{Answer, Memory, Moment, RelinquishControl, ServiceError};
use std::alloc::Global;

/// A token is given back that nobody waits for, and the client answered, unless the answer is too long.
fn give_back_alone(
    alloc: Global,
    own: &mut Client,
    row: &mut SemaphoreRow,
    now: Moment,
    invoke: u32,
    asked: &RelinquishControl,
) -> Result<(), Memory>
    requires now { IsDated now }
    ensures told { OnOk result (own.new ≡ settled (felt_all
        (request_told (size_of own.old.row.association) invoke None
        (Some Answer.RelinquishControl)) own.old.row)) }
    ensures given { OnOk result (row.new
        ≡ (if fits (size_of own.old.row.association) invoke (Some Answer.RelinquishControl)
        then changed_row (with_token_back own.old.row.client asked.now.token now) row.old
        else row.old)) }
    ensures kept { OnErr result (own.new ≡ own.old) }
    ensures same { OnErr result (row.new ≡ row.old) }
{
    let octets = own.spelled_answer(alloc, invoke, &Answer::RelinquishControl)?;
    if octets.len() > size_of(own.part()) as usize {
        return own.refuse(alloc, invoke, ServiceError::OTHER);
    }
    own.reserve(1, 0)?;
    row.relinquish(own.part().client(), asked.token.as_ref(), now);
    own.push(octets);
    Ok(())
}

/// A token of a semaphore is given back. False exactly where somebody is granted it; then all stays as it was.
fn give_back_to(
    alloc: Global,
    own: &mut Client,
    row: &mut SemaphoreRow,
    now: Moment,
    invoke: u32,
    asked: &RelinquishControl,
) -> Result<bool, Memory>
    requires now { IsDated now }
    ensures told { IfOk result (λ done. done ≡ true → own.new ≡ settled
        (felt_all (relinquish_on own.old.row invoke asked.now row.old) own.old.row)) }
    ensures given { IfOk result (λ done. done ≡ true
        → row.new ≡ relinquished_on own.old.row invoke now asked.now row.old) }
    ensures nobody { IfOk result (λ done. done ≡ true
        → relinquish_cause_on own.old.row.client asked.now row.old ≡ None
        → relinquish_grant_in own.old.row.client asked.now row.old.semaphore ≡ None) }
    ensures unchanged { IfOk result (λ done. done ≡ false
        → (own.new ≡ own.old) × (row.new ≡ row.old)) }
    ensures exact { IfOk result (λ done.
        done ≡ grants_nobody_on own.old.row.client asked.now row.old) }
    ensures kept { OnErr result (own.new ≡ own.old) }
    ensures same { OnErr result (row.new ≡ row.old) }
{
    match row.relinquish_told(own.part().client(), asked) {
        Err(error) => {
            own.refuse(alloc, invoke, error)?;
            Ok(true)
        }
        Ok(Some(_)) => Ok(false),
        Ok(None) => {
            give_back_alone(alloc, own, row, now, invoke, asked)?;
            Ok(true)
        }
    }
}

/// A token of the semaphore of that name is given back. False exactly where somebody is granted it; then all stays
/// as it was.
fn give_back_ungranted(
    alloc: Global,
    own: &mut Client,
    rows: &mut Semaphores,
    now: Moment,
    invoke: u32,
    asked: &RelinquishControl,
) -> Result<bool, Memory>
    requires now { IsDated now }
    ensures served { IfOk result (λ done. done ≡ true → (facts : Facts) → facts.now ≡ now
        → IsServedIn (relinquish_control asked.now) facts invoke own.old.row
        rows.old rows.new own.new) }
    ensures unchanged { IfOk result (λ done. done ≡ false
        → (own.new ≡ own.old) × (rows.new ≡ rows.old)) }
    ensures exact { IfOk result (λ done.
        done ≡ grants_nobody own.old.row.client asked.now rows.old) }
    ensures kept { OnErr result (own.new ≡ own.old) }
    ensures same { OnErr result (rows.new ≡ rows.old) }
{
    match rows.named_mut(own.part().client(), &asked.name) {
        None => {
            own.refuse(alloc, invoke, ServiceError::OBJECT_NON_EXISTENT)?;
            Ok(true)
        }
        Some(row) => give_back_to(alloc, own, row, now, invoke, asked),
    }
}

/// A token of the semaphore of that name is given back. Where somebody is granted it, it is told who is told what, the
/// client that gives it back first; then all is as before.
pub(crate) fn give_back(
    alloc: Global,
    own: &mut Client,
    rows: &mut Semaphores,
    now: Moment,
    invoke: u32,
    asked: &RelinquishControl,
) -> Result<Option<Vec<(u32, ClientTold)>>, Memory>
    requires now { IsDated now }
    ensures served { IfOk result (λ left. IfNone left ((facts : Facts) → facts.now ≡ now
        → IsServedIn (relinquish_control asked.now) facts invoke own.old.row
        rows.old rows.new own.new)) }
    ensures left { IfOk result (λ left. IfSome left (λ told. (facts : Facts) → facts.now ≡ now
        → IsToldIn (relinquish_control asked.now) facts invoke own.old.row rows.old
        (relinquish_after own.old.row.client now asked.now rows.old) (effects_told told.items))) }
    ensures unchanged { IfOk result (λ left. OnSome left (
        (own.new ≡ own.old) × (rows.new ≡ rows.old))) }
    ensures kept { OnErr result (own.new ≡ own.old) }
    ensures same { OnErr result (rows.new ≡ rows.old) }
{
    if give_back_ungranted(alloc, own, rows, now, invoke, asked)? {
        Ok(None)
    } else {
        granting(alloc, own, rows, invoke, asked)
    }
}

/// A token of the semaphore of that name is given back, where there is one. It takes no memory.
pub(crate) fn finish_back(
    rows: &mut Semaphores,
    client: u32,
    now: Moment,
    asked: &RelinquishControl,
)
    requires now { IsDated now }
    ensures { rows.new ≡ relinquish_after client now asked.now rows.old }
{
    if let Some(row) = rows.named_mut(client, &asked.name) {
        row.relinquish(client, asked.token.as_ref(), now);
    }
}
