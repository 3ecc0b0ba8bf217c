//! A request for domains, and what a client answers to the server, on the part of its client and that of the domains,
//! as they are held.

ghost use Rattle.std.specs.Prelude.{◌≡◌, ℕ, ◌≤◌, true, OnErr, OnOk, IfOk};
ghost use Rattle.mms_types.specs.Areas.{domain_request};
ghost use Rattle.part_table.specs.Held.{held_at};
ghost use Rattle.association.specs.Asked.{is_open};
ghost use Rattle.cell_client.specs.Areas.{lacks_number_in};
ghost use Rattle.cell_client.specs.Association.{Replies, Takes};
ghost use Rattle.cell_client.specs.Facts.{Facts};
ghost use Rattle.cell_client.specs.Meant.{came};
ghost use Rattle.serve_domains.specs.Domains.{replied, request_in, AnswersLoad};
ghost use Rattle.step_parts.specs.Partition.{client_place, domains_in, domains_place, IsClient, IsDomains};
ghost use Rattle.step_parts.specs.Found.{row_held};
ghost use Rattle.step_apply.specs.Tasks.{heard_in_place, IsReady, IsServing};

use crate::placing::{OnParts, Serving, serve_on};
use crate::serving::{Task, serve};
use cell_client::{Act, Came, Client, ClientTold};
use cell_services::is_scope_used;
use mms_types::{DomainRequest, Memory};
use part_table::Hand;
use serve_domains::{DomainTables, lacks_number, reply_lacks_number, scope_asked};
use step_parts::held::client_held;
use step_parts::slots::shown;
use step_parts::tables::{DOMAINS, EVENTS, JOURNALS, VARIABLES, semaphores as semaphores_part};
use step_parts::{Cell, Part};

/// Whether something would be asked of a client by its request, and no number is left for that.
fn lacks(
    who: Serving,
    held: &Hand<Cell>,
    invoke: u32,
    asked: DomainRequest<'_>,
) -> Result<bool, Memory>
    requires small { who.client ≤ 64 }
    requires held { IsClient (held_at held.now (client_place who.client)) }
    requires table { IsDomains (held_at held.now domains_place) }
    ensures { IfOk result (λ lacks. (facts : Facts) → lacks ≡ lacks_number_in
        (request_in asked.entry) facts (row_held held.now who.client) invoke
        (domains_in (held_at held.now domains_place))) }
{
    match held.get(u32::from(DOMAINS)) {
        Some(Part::Domains(domains)) => {
            let client = client_held(held, who.client);
            lacks_number(who.alloc, client, domains, invoke, asked)
        }
        _ => unreachable!(),
    }
}

/// Whether something would be asked of a client by what it answers, and no number is left for that.
fn reply_lacks(held: &Hand<Cell>, client: u32, number: u32, answer: Came<'_>) -> bool
    requires small { client ≤ 64 }
    requires held { IsClient (held_at held.now (client_place client)) }
    ensures { (facts : Facts) (invoke : ℕ) → result ≡ lacks_number_in
        (replied number (came answer.entry)) facts (row_held held.now client) invoke
        (domains_in (held_at held.now domains_place)) }
{
    reply_lacks_number(client_held(held, client), number, answer)
}

/// What is asked of the client of the request has a number.
impl OnParts for DomainRequest<'_> {
    ghost use Rattle.std.specs.Prelude.{false, true};
    ghost use Rattle.std.proofs.Common.{ap, refl};
    ghost use Rattle.mms_types.specs.Areas.{domain_request};
    ghost use Rattle.parted_state.specs.Cut.{is_in};
    ghost use Rattle.association.specs.Asked.{is_open};
    ghost use Rattle.association.specs.Client.{ClientRow};
    ghost use Rattle.serve_domains.specs.Domains.{request_in};
    ghost use Rattle.cell_client.specs.Areas.{lacks_number_in};
    ghost use Rattle.cell_client.specs.Association.{Takes};
    ghost use Rattle.cell_client.specs.Facts as fact;
    ghost use Rattle.cell_services.specs.Requests.{told_in};
    ghost use Rattle.cell_services.specs.Services.{asks_of};
    ghost use Rattle.cell_services.specs.Tables.{own_domains};
    ghost use Rattle.cell_services.proofs.AreaTableLaws.{in_domains};
    ghost use Rattle.step_parts.specs.AfterLaws.{is_domains};

    type Table = DomainTables;

    /// Whether some object has the domain for its scope that is to be deleted.
    type Facts = bool;

    type Rest = ();

    ghost own = { λ asked. own_domains };

    ghost its = { λ asked. is_domains };

    ghost verdict = { λ asked invoke. Takes invoke (domain_request asked) };

    ghost may = { λ asked invoke row domains. (is_open row.association ≡ true)
        × ((facts : fact.Facts) → lacks_number_in (request_in asked) facts row invoke domains
        ≡ false) };

    ghost is_told = { λ asked scoped client t. (row : ClientRow)
        → (told_in own_domains t row (request_in asked)).scoped ≡ scoped };

    fn place(&self, _clients: u32) -> u32 {
        u32::from(DOMAINS)
    }

    fn facts(&self, who: Serving, held: &Hand<Cell>) -> Result<bool, Memory> {
        let Some(domain) = scope_asked(*self) else {
            return Ok(true);
        };
        let variables = shown(who.alloc, held, VARIABLES);
        let events = shown(who.alloc, held, EVENTS);
        let journals = shown(who.alloc, held, JOURNALS);
        let semaphores = shown(who.alloc, held, semaphores_part(who.clients));
        is_scope_used(
            who.alloc,
            variables.get(),
            events.get(),
            journals.get(),
            semaphores.get(),
            domain,
        )
    }

    #[tactic(auto, using(cell_services::proofs::AreaLaws::domains_served))]
    fn serve(
        &self,
        who: Serving,
        _held: &Hand<Cell>,
        invoke: u32,
        scoped: bool,
        client: &mut Client,
        table: &mut Part,
    ) -> Result<Option<(Vec<(u32, ClientTold)>, ())>, Memory> {
        match table {
            Part::Domains(rows) => {
                serve_domains::serve(who.alloc, client, rows, scoped, invoke, *self)?;
                Ok(None)
            }
            _ => unreachable!(),
        }
    }

    fn finish(&self, _client: u32, _scoped: bool, _rest: &(), _table: &mut Part) {}

    ghost stands = { λ asked t. refl };

    ghost asks = { λ asked invoke. ap (λ a. is_in (asks_of a) 2) (in_domains asked) };
}

/// Serves a request of a client for domains. Where no number is left for what would be asked of the client, it is
/// answered, aborted and lost.
pub(crate) fn serve_on_domains(
    who: Serving,
    held: &mut Hand<Cell>,
    invoke: u32,
    asked: DomainRequest<'_>,
) -> Result<(), Memory>
    requires serving { IsServing who.clients who.client held.old }
    requires ready { IsReady who.clients who.client (Takes invoke (domain_request asked)) held.old }
    requires open { is_open (row_held held.old who.client).association ≡ true }
    ensures put { OnOk result (held.new
        ≡ heard_in_place who.client (Takes invoke (domain_request asked.entry)) held.old) }
    ensures kept { OnErr result (held.new ≡ held.old) }
{
    if lacks(who, held, invoke, asked)? {
        let act = Act::Exhausts { invoke };
        return serve(who.alloc, held, who.clients, &Task::Client(who.client, act));
    }
    serve_on(who, held, invoke, &asked)
}

/// What a client answers to the server's request of a number, which is of a load. What is asked of it next has a
/// number.
impl OnParts for Came<'_> {
    ghost use Rattle.std.specs.Prelude.{ℕ, false, true};
    ghost use Rattle.std.proofs.Common.{refl};
    ghost use Rattle.association.specs.Asked.{is_open};
    ghost use Rattle.serve_domains.specs.Domains.{replied, AnswersLoad};
    ghost use Rattle.cell_client.specs.Areas.{lacks_number_in};
    ghost use Rattle.cell_client.specs.Association.{Replies};
    ghost use Rattle.cell_client.specs.Facts as fact;
    ghost use Rattle.cell_client.specs.Meant.{came};
    ghost use Rattle.cell_services.specs.Tables.{own_domains};
    ghost use Rattle.step_parts.specs.AfterLaws.{is_domains};

    type Table = DomainTables;

    type Facts = ();

    type Rest = ();

    ghost own = { λ asked. own_domains };

    ghost its = { λ asked. is_domains };

    ghost verdict = { λ answer number. Replies number (came answer) };

    ghost may = { λ answer number row domains. (is_open row.association ≡ true)
        × AnswersLoad row number (came answer) domains × ((facts : fact.Facts) (invoke : ℕ)
        → lacks_number_in (replied number (came answer)) facts row invoke domains ≡ false) };

    fn place(&self, _clients: u32) -> u32 {
        u32::from(DOMAINS)
    }

    fn facts(&self, _who: Serving, _held: &Hand<Cell>) -> Result<(), Memory> {
        Ok(())
    }

    fn serve(
        &self,
        who: Serving,
        _held: &Hand<Cell>,
        number: u32,
        _facts: (),
        client: &mut Client,
        table: &mut Part,
    ) -> Result<Option<(Vec<(u32, ClientTold)>, ())>, Memory> {
        match table {
            Part::Domains(rows) => {
                serve_domains::reply(who.alloc, client, rows, number, *self)?;
                Ok(None)
            }
            _ => unreachable!(),
        }
    }

    fn finish(&self, _client: u32, _facts: (), _rest: &(), _table: &mut Part) {}

    ghost stands = { λ asked t. refl };

    ghost asks = { λ answer number. refl };
}

/// Serves what a client answers to the server's request of that number, which is of a load. Where no number is left for
/// what would be asked of it next, it is aborted and lost.
pub(crate) fn reply_on_domains(
    who: Serving,
    held: &mut Hand<Cell>,
    number: u32,
    answer: Came<'_>,
) -> Result<(), Memory>
    requires serving { IsServing who.clients who.client held.old }
    requires ready { IsReady who.clients who.client (Replies number (came answer)) held.old }
    requires open { is_open (row_held held.old who.client).association ≡ true }
    requires load { AnswersLoad (row_held held.old who.client) number (came answer)
        (domains_in (held_at held.old domains_place)) }
    ensures put { OnOk result (held.new
        ≡ heard_in_place who.client (Replies number (came answer.entry)) held.old) }
    ensures kept { OnErr result (held.new ≡ held.old) }
{
    if reply_lacks(held, who.client, number, answer) {
        return serve(
            who.alloc,
            held,
            who.clients,
            &Task::Client(who.client, Act::Abort),
        );
    }
    serve_on(who, held, number, &answer)
}
