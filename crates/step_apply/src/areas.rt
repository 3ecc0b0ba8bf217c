//! What a client sends for variables and for semaphores, and to the device itself, which has no table, is served as
//! these are held.

ghost use Rattle.std.specs.Prelude.{◌≡◌, ◌≤◌, None, OnErr, OnOk};
ghost use Rattle.mms_types.specs.Areas.{device_request};
ghost use Rattle.parted_state.specs.Area.{no_table};
ghost use Rattle.cell_client.specs.Association.{Takes};
ghost use Rattle.cell_client.specs.Requests.{plain_answer};
ghost use Rattle.cell_services.specs.Acts.{IsDoneIn};
ghost use Rattle.cell_services.specs.Tables.{Tables as Rows};
ghost use Rattle.step_parts.specs.Found.{row_held};
ghost use Rattle.step_parts.specs.Partition.{AreHeld};
ghost use Rattle.step_apply.specs.Tasks.{heard_in_place, IsServing};

use crate::placing::{OnParts, Serving};
use cell_client::{Client, ClientTold};
use cell_services::{GuardsOf, NameTables};
use mms_time::Semaphores;
use mms_types::{DeviceRequest, Memory, Moment, SemaphoreRequest, VariableRequest};
use part_table::Hand;
use std::alloc::Global;
use step_parts::held::{live_held, now_held};
use step_parts::slots::{put, shown, take};
use step_parts::tables::{
    BEFORE_CLIENTS, DOMAINS, EVENTS, JOURNALS, PROGRAMS, VARIABLES, semaphores as semaphores_part,
};
use step_parts::{Cell, Part};
use variable_services::VariableTables;

impl OnParts for VariableRequest<'_> {
    ghost use Rattle.std.proofs.Common.{ap, refl};
    ghost use Rattle.mms_types.specs.Areas.{variable_request};
    ghost use Rattle.parted_state.specs.Cut.{is_in};
    ghost use Rattle.serve_variables.specs.Variables as of_variables;
    ghost use Rattle.cell_client.specs.Association.{Takes};
    ghost use Rattle.cell_services.specs.Facts.{is_domain_live};
    ghost use Rattle.cell_services.specs.Services.{asks_of};
    ghost use Rattle.cell_services.specs.Tables.{own_variables};
    ghost use Rattle.cell_services.proofs.AreaTableLaws.{in_variables};
    ghost use Rattle.step_parts.specs.AfterLaws.{is_variables};

    type Table = VariableTables;

    /// Whether the domain is live that has to be.
    type Facts = bool;

    type Rest = ();

    ghost own = { λ asked. own_variables };

    ghost its = { λ asked. is_variables };

    ghost verdict = { λ asked invoke. Takes invoke (variable_request asked) };

    ghost is_told = { λ asked live client t. live
        ≡ is_domain_live (of_variables.domain_asked asked) t.domains };

    fn place(&self, _clients: u32) -> u32 {
        u32::from(VARIABLES)
    }

    fn facts(&self, _who: Serving, held: &Hand<Cell>) -> Result<bool, Memory> {
        Ok(live_held(held, serve_variables::domain_asked(*self)))
    }

    // Guards are looked up among the semaphores where these are.
    fn serve(
        &self,
        who: Serving,
        held: &Hand<Cell>,
        invoke: u32,
        live: bool,
        client: &mut Client,
        table: &mut Part,
    ) -> Result<Option<(Vec<(u32, ClientTold)>, ())>, Memory> {
        let semaphores = shown::<Semaphores>(who.alloc, held, semaphores_part(who.clients));
        match table {
            Part::Variables(rows) => {
                let by = GuardsOf {
                    client: client.part().client(),
                    semaphores: semaphores.get(),
                };
                serve_variables::serve(who.alloc, client, rows, live, &by, invoke, *self)?;
                Ok(None)
            }
            _ => unreachable!(),
        }
    }

    fn finish(&self, _client: u32, _live: bool, _rest: &(), _table: &mut Part) {}

    ghost stands = { λ asked t. refl };

    ghost asks = { λ asked invoke. ap (λ a. is_in (asks_of a) 1) (in_variables asked) };
}

impl OnParts for SemaphoreRequest<'_> {
    ghost use Rattle.std.proofs.Common.{ap, refl};
    ghost use Rattle.mms_types.specs.Areas.{semaphore_request};
    ghost use Rattle.mms_types.specs.Moments.{IsDated};
    ghost use Rattle.parted_state.specs.Cut.{is_in};
    ghost use Rattle.serve_semaphores.specs.Semaphores as of_semaphores;
    ghost use Rattle.serve_semaphores.specs.Tokens.{told_after};
    ghost use Rattle.cell_client.specs.Association.{Takes};
    ghost use Rattle.cell_services.specs.Facts.{is_domain_live};
    ghost use Rattle.cell_services.specs.Services.{asks_of};
    ghost use Rattle.cell_services.specs.Tables.{own_semaphores};
    ghost use Rattle.cell_services.proofs.AreaTableLaws.{in_semaphores};
    ghost use Rattle.step_parts.specs.AfterLaws.{is_semaphores};

    type Table = Semaphores;

    /// The moment, and whether the domain is live that has to be.
    type Facts = (Moment, bool);

    type Rest = ();

    ghost own = { λ asked. own_semaphores };

    ghost its = { λ asked. is_semaphores };

    ghost verdict = { λ asked invoke. Takes invoke (semaphore_request asked) };

    ghost sound = { λ facts. IsDated facts.0 };

    ghost is_told = { λ asked facts client t. (t.now ≡ facts.0.0)
        × (facts.1 ≡ is_domain_live (of_semaphores.domain_asked asked) t.domains) };

    ghost becomes = { λ asked facts client rows. told_after client facts.0 asked rows };

    fn place(&self, clients: u32) -> u32 {
        u32::from(semaphores_part(clients))
    }

    fn facts(&self, _who: Serving, held: &Hand<Cell>) -> Result<(Moment, bool), Memory> {
        let live = live_held(held, serve_semaphores::domain_asked(*self));
        Ok((now_held(held), live))
    }

    fn serve(
        &self,
        who: Serving,
        _held: &Hand<Cell>,
        invoke: u32,
        facts: (Moment, bool),
        client: &mut Client,
        table: &mut Part,
    ) -> Result<Option<(Vec<(u32, ClientTold)>, ())>, Memory> {
        let (now, live) = facts;
        match table {
            Part::Semaphores(rows) => {
                match serve_semaphores::serve(who.alloc, client, rows, now, live, invoke, *self)? {
                    None => return Ok(None),
                    Some(told) => Ok(Some((told, ()))),
                }
            }
            _ => unreachable!(),
        }
    }

    fn finish(&self, client: u32, facts: (Moment, bool), _rest: &(), table: &mut Part) {
        match table {
            Part::Semaphores(rows) => serve_semaphores::finish(rows, client, facts.0, *self),
            _ => unreachable!(),
        }
    }

    ghost stands = { λ asked t. refl };

    ghost asks = { λ asked invoke. ap (λ a. is_in (asks_of a) 6) (in_semaphores asked) };
}

/// The request of that number, which waits, is to be cancelled.
pub(crate) struct Cancel;

impl OnParts for Cancel {
    ghost use Rattle.std.proofs.Common.{refl};
    ghost use Rattle.cell_client.specs.Association.{Cancels};
    ghost use Rattle.cell_services.specs.Tables.{own_semaphores};
    ghost use Rattle.step_parts.specs.AfterLaws.{is_semaphores};

    type Table = Semaphores;

    type Facts = ();

    type Rest = ();

    ghost own = { λ asked. own_semaphores };

    ghost its = { λ asked. is_semaphores };

    ghost verdict = { λ asked invoke. Cancels invoke };

    fn place(&self, clients: u32) -> u32 {
        u32::from(semaphores_part(clients))
    }

    fn facts(&self, _who: Serving, _held: &Hand<Cell>) -> Result<(), Memory> {
        Ok(())
    }

    #[tactic(auto, using(cell_services::proofs::AreaLaws::cancel_done))]
    fn serve(
        &self,
        who: Serving,
        _held: &Hand<Cell>,
        invoke: u32,
        _facts: (),
        client: &mut Client,
        table: &mut Part,
    ) -> Result<Option<(Vec<(u32, ClientTold)>, ())>, Memory> {
        match table {
            Part::Semaphores(rows) => {
                serve_semaphores::cancel(who.alloc, client, rows, invoke)?;
                Ok(None)
            }
            _ => unreachable!(),
        }
    }

    fn finish(&self, _client: u32, _facts: (), _rest: &(), _table: &mut Part) {}

    ghost stands = { λ asked t. refl };

    ghost asks = { λ asked invoke. refl };
}

/// Serves a request to the device itself on the part of its client, where the tables are those that are held.
fn device_on(
    who: Serving,
    held: &Hand<Cell>,
    own: &mut Client,
    invoke: u32,
    asked: DeviceRequest<'_>,
) -> Result<(), Memory>
    requires few { who.clients ≤ 64 }
    requires tables { plain_answer own.old.row (device_request asked) ≡ None }
    ensures served { OnOk result ((t : Rows) → AreHeld who.clients held.now t
        → IsDoneIn no_table t own.old.row tt own.new (Takes invoke (device_request asked.entry))) }
    ensures kept { OnErr result (own.new ≡ own.old) }
{
    let variables = shown(who.alloc, held, VARIABLES);
    let domains = shown(who.alloc, held, DOMAINS);
    let programs = shown(who.alloc, held, PROGRAMS);
    let events = shown(who.alloc, held, EVENTS);
    let journals = shown(who.alloc, held, JOURNALS);
    let semaphores = shown(who.alloc, held, semaphores_part(who.clients));
    let tables = NameTables {
        variables: variables.get(),
        domains: domains.get(),
        programs: programs.get(),
        events: events.get(),
        journals: journals.get(),
        semaphores: semaphores.get(),
    };
    cell_services::serve_device(who.alloc, own, tables, invoke, asked)
}

/// Serves a client's request to the device itself, which the tables tell that are held.
pub(crate) fn serve_on_device(
    who: Serving,
    held: &mut Hand<Cell>,
    invoke: u32,
    asked: DeviceRequest<'_>,
) -> Result<(), Memory>
    requires serving { IsServing who.clients who.client held.old }
    requires tables { plain_answer (row_held held.old who.client) (device_request asked) ≡ None }
    ensures put { OnOk result (held.new
        ≡ heard_in_place who.client (Takes invoke (device_request asked.entry)) held.old) }
    ensures kept { OnErr result (held.new ≡ held.old) }
{
    let mut part = take(held, BEFORE_CLIENTS + who.client);
    let done = match &mut *part {
        Part::Client(own) => device_on(who, held, own, invoke, asked),
        _ => unreachable!(),
    };
    put(held, BEFORE_CLIENTS + who.client, part);
    done
}
