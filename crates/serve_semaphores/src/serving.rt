//! A request for semaphores is served.

ghost use Rattle.std.specs.Prelude.{◌≡◌, IfNone, IfOk, IfSome, OnErr, OnSome};
ghost use Rattle.mms_types.specs.Moments.{IsDated};
ghost use Rattle.cell_client.specs.Areas.{IsServedIn, IsToldIn};
ghost use Rattle.cell_client.specs.Effects.{settled};
ghost use Rattle.cell_client.specs.Facts.{Facts};
ghost use Rattle.cell_client.specs.Telling.{effects_told};
ghost use Rattle.serve_semaphores.specs.Semaphores.{request_in};
ghost use Rattle.serve_semaphores.specs.Tokens.{told_after};

use crate::back::{finish_back, give_back};
use crate::defining::{define, delete};
use crate::status::{entry_status, pool_status, status};
use crate::take::take;
use cell_client::{Client, ClientTold};
use mms_time::Semaphores;
use mms_types::{Memory, Moment, SemaphoreRequest};
use std::alloc::Global;

/// Serves a request for semaphores on these and the part of its client, at that moment: it is refused, or done and
/// answered, or it waits. `live` is whether the domain of a name is live that is written in it. Where others are told
/// something, too, that is told, with what its client is told first; then all is as before, as it is without memory, and
/// `finish` does the rest on the semaphores.
pub fn serve(
    alloc: Global,
    own: &mut Client,
    rows: &mut Semaphores,
    now: Moment,
    live: bool,
    invoke: u32,
    asked: SemaphoreRequest<'_>,
) -> Result<Option<Vec<(u32, ClientTold)>>, Memory>
    requires now { IsDated now }
    requires settled { own.old ≡ settled own.old.row }
    ensures served { IfOk result (λ left. IfNone left ((facts : Facts) → facts.now ≡ now
        → facts.live ≡ live
        → IsServedIn (request_in asked.entry) facts invoke own.old.row rows.old rows.new own.new)) }
    ensures left { IfOk result (λ left. IfSome left (λ told. (facts : Facts) → facts.now ≡ now
        → IsToldIn (request_in asked.entry) facts invoke own.old.row rows.old
        (told_after own.old.row.client now asked.entry rows.old) (effects_told told.items))) }
    ensures unchanged { IfOk result (λ left. OnSome left (
        (own.new ≡ own.old) × (rows.new ≡ rows.old))) }
    ensures kept { OnErr result (own.new ≡ own.old) }
    ensures same { OnErr result (rows.new ≡ rows.old) }
{
    match asked {
        SemaphoreRequest::TakeControl(asked) => {
            take(alloc, own, rows, now, invoke, asked)?;
            Ok(None)
        }
        SemaphoreRequest::RelinquishControl(asked) => {
            give_back(alloc, own, rows, now, invoke, asked)
        }
        SemaphoreRequest::DefineSemaphore(asked) => {
            define(alloc, own, rows, live, invoke, asked)?;
            Ok(None)
        }
        SemaphoreRequest::DeleteSemaphore(name) => {
            delete(alloc, own, rows, invoke, name)?;
            Ok(None)
        }
        SemaphoreRequest::ReportSemaphoreStatus(name) => {
            status(alloc, own, rows, invoke, name)?;
            Ok(None)
        }
        SemaphoreRequest::ReportPoolSemaphoreStatus(asked) => {
            pool_status(alloc, own, rows, invoke, asked)?;
            Ok(None)
        }
        SemaphoreRequest::ReportSemaphoreEntryStatus(asked) => {
            entry_status(alloc, own, rows, now, invoke, asked)?;
            Ok(None)
        }
    }
}

/// Does on the semaphores what `serve` left of a request of a client at that moment, which told others something. It
/// takes no memory.
pub fn finish(rows: &mut Semaphores, client: u32, now: Moment, asked: SemaphoreRequest<'_>)
    requires now { IsDated now }
    ensures { rows.new ≡ told_after client now asked.entry rows.old }
{
    if let SemaphoreRequest::RelinquishControl(asked) = asked {
        finish_back(rows, client, now, asked);
    }
}
