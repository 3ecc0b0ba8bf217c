//! Requests for event conditions and event enrollments, on the part of their client and that of the events, as they are
//! held, and what clients are told of transitions.

ghost use Rattle.std.specs.Prelude.{◌≡◌, Some};
ghost use Rattle.association.specs.Client.{ClientRow};
ghost use Rattle.parted_state.specs.Lifted.{tables_shown};
ghost use Rattle.serve_events.specs.Events.{request_in};
ghost use Rattle.cell_services.specs.Facts.{is_true};
ghost use Rattle.cell_services.specs.Requests.{told_in};
ghost use Rattle.cell_services.specs.Tables.{own_events};
ghost use Rattle.step_parts.specs.Partition.{cell};

use crate::placing::{OnParts, Serving};
use cell_client::{Client, ClientTold};
use mms_types::{CellFact, EventRequest, Listed, Memory, Moment, Turned};
use part_table::Hand;
use serve_events::{EventTables, Turning, cell_watched, variable_asked};
use std::alloc::Global;
use step_parts::held::{live_held, now_held};
use step_parts::slots::shown;
use step_parts::tables::{EVENTS, VARIABLES};
use step_parts::{Cell, Part};
use variable_services::VariableTables;

/// What becomes of the cell that a request of a client is to have watched, by the variables that are held.
fn cell_held(alloc: Global, held: &Hand<Cell>, client: u32, asked: EventRequest<'_>) -> CellFact
    ensures { (row : ClientRow) → (told_in own_events (tables_shown cell held.now) row
        (request_in asked.entry)).cell client ≡ result }
{
    let Some(variable) = variable_asked(asked) else {
        return CellFact::Missing;
    };
    let variables = shown::<VariableTables>(alloc, held, VARIABLES);
    variables.get().vars.cell_fact(client, variable)
}

/// Whether the cell of that number is TRUE.
fn says_true(variables: &VariableTables, cell: u16) -> bool
    ensures { result ≡ is_true (Some cell) variables.now.vars }
{
    matches!(variables.vars.is_true(cell), Some(true))
}

/// Whether the cell is TRUE that the condition watches that a request of a client names, by what is held.
fn truth_held(alloc: Global, held: &Hand<Cell>, client: u32, asked: EventRequest<'_>) -> bool
    ensures { (row : ClientRow) → row.client ≡ client → (told_in own_events
        (tables_shown cell held.now) row (request_in asked.entry)).truth ≡ result }
{
    let events = shown(alloc, held, EVENTS);
    let Some(cell) = cell_watched(events.get(), client, asked) else {
        return false;
    };
    let variables = shown(alloc, held, VARIABLES);
    says_true(variables.get(), cell)
}

/// What other tables tell a request for event conditions and enrollments, and the moment.
#[derive(Clone, Copy)]
pub(crate) struct Facts {
    now: Moment,
    /// Whether the domain is live that has to be.
    live: bool,
    /// What becomes of the cell that is to be watched.
    cell: CellFact,
    /// Whether the cell is TRUE that is watched.
    is_true: bool,
}

impl OnParts for EventRequest<'_> {
    ghost use Rattle.std.proofs.Common.{ap, refl};
    ghost use Rattle.mms_types.specs.Areas.{event_request};
    ghost use Rattle.mms_types.specs.Moments.{IsDated};
    ghost use Rattle.parted_state.specs.Cut.{is_in};
    ghost use Rattle.serve_events.specs.Turns.{turned_after, turns_of};
    ghost use Rattle.cell_client.specs.Association.{Takes};
    ghost use Rattle.cell_services.specs.Services.{asks_of};
    ghost use Rattle.cell_services.specs.Tables.{own_events};
    ghost use Rattle.cell_services.proofs.AreaTableLaws.{in_events};
    ghost use Rattle.step_parts.specs.AfterLaws.{is_events};
    ghost use Rattle.step_apply.specs.Placing.{AreTold};

    type Table = EventTables;

    type Facts = Facts;

    type Rest = Listed<Turned>;

    ghost own = { λ asked. own_events };

    ghost its = { λ asked. is_events };

    ghost verdict = { λ asked invoke. Takes invoke (event_request asked) };

    ghost sound = { λ facts. IsDated facts.now };

    ghost is_told = { λ asked facts client t. AreTold asked client t facts };

    ghost becomes = { λ asked facts client events.
        turned_after client facts.now facts.is_true asked events };

    ghost fits = { λ asked facts rest client events.
        rest ≡ turns_of client facts.now facts.is_true asked events };

    fn place(&self, _clients: u32) -> u32 {
        u32::from(EVENTS)
    }

    fn facts(&self, who: Serving, held: &Hand<Cell>) -> Result<Facts, Memory> {
        Ok(Facts {
            now: now_held(held),
            live: live_held(held, serve_events::domain_asked(*self)),
            cell: cell_held(who.alloc, held, who.client, *self),
            is_true: truth_held(who.alloc, held, who.client, *self),
        })
    }

    fn serve(
        &self,
        who: Serving,
        _held: &Hand<Cell>,
        invoke: u32,
        facts: Facts,
        client: &mut Client,
        table: &mut Part,
    ) -> Result<Option<(Vec<(u32, ClientTold)>, Listed<Turned>)>, Memory> {
        let Facts {
            now,
            live,
            cell,
            is_true,
        } = facts;
        match table {
            Part::Events(rows) => {
                match serve_events::serve(
                    who.alloc, client, rows, now, live, cell, is_true, invoke, *self,
                )? {
                    None => return Ok(None),
                    Some(left) => {
                        let Turning { told, turns } = left;
                        Ok(Some((told, turns)))
                    }
                }
            }
            _ => unreachable!(),
        }
    }

    fn finish(&self, client: u32, facts: Facts, rest: &Listed<Turned>, table: &mut Part) {
        let Facts { now, is_true, .. } = facts;
        match table {
            Part::Events(rows) => {
                serve_events::finish(rows, client, now, is_true, *self, rest.as_slice());
            }
            _ => unreachable!(),
        }
    }

    ghost stands = { λ asked t. refl };

    ghost asks = { λ asked invoke. ap (λ a. is_in (asks_of a) 4) (in_events asked) };
}
