//! A request for event conditions and event enrollments is served.

ghost use Rattle.std.specs.Prelude.{◌≡◌, IfNone, IfOk, IfSome, OnErr, OnSome};
ghost use Rattle.mms_types.specs.Moments.{IsDated};
ghost use Rattle.cell_client.specs.Areas.{IsServedIn, IsToldIn};
ghost use Rattle.cell_client.specs.Effects.{settled};
ghost use Rattle.cell_client.specs.Facts.{Facts};
ghost use Rattle.cell_client.specs.Telling.{effects_told};
ghost use Rattle.serve_events.specs.Events.{request_in};
ghost use Rattle.serve_events.specs.Turns.{turned_after, turns_of};

use crate::turning::turn_over;
use crate::{EventTables, Turning, conditions, enrolments, moving};
use cell_client::Client;
use mms_types::{CellFact, EventRequest, Memory, Moment, Turned};
use std::alloc::Global;

/// Serves a request for event conditions and event enrollments on these and the part of its client, at that moment: it is
/// refused, or done and answered. `live` is whether the domain of a new name is live that is written in it, `cell` what
/// becomes of the cell that a new condition is to watch, and `is_true` whether the cell is TRUE that the named condition
/// watches. Where clients are told of transitions, that is told, with what its client is answered first; then all is as
/// before, as it is without memory, and `finish` does the rest on the tables.
pub fn serve(
    alloc: Global,
    own: &mut Client,
    tables: &mut EventTables,
    now: Moment,
    live: bool,
    cell: CellFact,
    is_true: bool,
    invoke: u32,
    asked: EventRequest<'_>,
) -> Result<Option<Turning>, Memory>
    requires now { IsDated now }
    requires settled { own.old ≡ settled own.old.row }
    ensures served { IfOk result (λ left. IfNone left ((facts : Facts) → facts.now ≡ now
        → facts.live ≡ live → facts.cell own.old.row.client ≡ cell → facts.truth ≡ is_true
        → IsServedIn (request_in asked.entry) facts invoke own.old.row
        tables.old tables.new own.new)) }
    ensures left { IfOk result (λ left. IfSome left (λ l. (facts : Facts) → facts.now ≡ now
        → facts.truth ≡ is_true
        → IsToldIn (request_in asked.entry) facts invoke own.old.row tables.old
        (turned_after own.old.row.client now is_true asked.entry tables.old)
        (effects_told l.told.items))) }
    ensures turns { IfOk result (λ left. IfSome left (λ l. l.turns
        ≡ turns_of own.old.row.client now is_true asked.entry tables.old)) }
    ensures unchanged { IfOk result (λ left. OnSome left (own.new ≡ own.old)) }
    ensures untouched { IfOk result (λ left. OnSome left (tables.new ≡ tables.old)) }
    ensures kept { OnErr result (own.new ≡ own.old) }
    ensures same { OnErr result (tables.new ≡ tables.old) }
{
    match asked {
        EventRequest::DefineEventCondition(asked) => {
            conditions::define(alloc, own, tables, now, live, cell, invoke, asked)?;
            Ok(None)
        }
        EventRequest::DeleteEventCondition(names) => {
            moving::delete(alloc, own, tables, now, is_true, invoke, names)
        }
        EventRequest::ReportEventConditionStatus(name) => {
            conditions::status(alloc, own, tables, invoke, name)?;
            Ok(None)
        }
        EventRequest::AlterEventConditionMonitoring(asked) => {
            moving::alter(alloc, own, tables, now, is_true, invoke, asked)
        }
        EventRequest::TriggerEvent(asked) => {
            moving::trigger(alloc, own, tables, now, is_true, invoke, asked)
        }
        EventRequest::DefineEventEnrollment(asked) => {
            enrolments::define(alloc, own, tables, live, invoke, asked)?;
            Ok(None)
        }
        EventRequest::DeleteEventEnrollment(asked) => {
            enrolments::delete(alloc, own, tables, invoke, asked)?;
            Ok(None)
        }
    }
}

/// Does on the tables what `serve` left of a request of a client at that moment, by which clients are told of these
/// transitions. It takes no memory.
pub fn finish(
    tables: &mut EventTables,
    client: u32,
    now: Moment,
    is_true: bool,
    asked: EventRequest<'_>,
    turns: &[Turned],
)
    requires now { IsDated now }
    requires turns { turns.now ≡ turns_of client now is_true asked tables.old }
    ensures { tables.new ≡ turned_after client now is_true asked.entry tables.old }
{
    turn_over(tables, client, now, is_true, asked, turns);
}
