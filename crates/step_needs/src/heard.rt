//! What is needed where a client is heard or lost, once its part is held.

ghost use Rattle.std.specs.Prelude.{◌≡◌, ℕ, ◌≤◌, ◌==◌, [], if◌then◌else◌, IfOk, IfSome};
ghost use Rattle.std.specs.List.{list_any};
ghost use Rattle.parted_state.specs.Cut.{missing};
ghost use Rattle.parted_state.specs.Served.{is_told};
ghost use Rattle.parted_state.specs.Sets.{IsSetOf};
ghost use Rattle.cell_client.specs.Association.{verdict, verdict_by};
ghost use Rattle.cell_client.specs.Meant.{meant};
ghost use Rattle.cell_client.specs.Reads.{pdu_read, IsDeep};
ghost use Rattle.cell_services.specs.Others.{AlsoTells};
ghost use Rattle.cell_services.specs.Services.{area_of, lacks_number};
ghost use Rattle.cell_services.specs.Serving.{also_lost, heard_asks, heard_more, keeps_upload};
ghost use Rattle.cell_services.specs.Tables.{loss_tables};
ghost use Rattle.step_parts.specs.Needs.{also_parts, client_parts, heard_need, is_own, lost_need, placed, verdict_need};
ghost use Rattle.step_needs.specs.Sight.{IsSight, row, tables};

use crate::asks::request_asks;
use association::ClientPart;
use cell_client::{Found, read, verdict_of};
use cell_services::{ToldTables, also_told, loss_told};
use mms_pdu::{Read, Refusal};
use mms_types::{AreaRequest, Memory, Request};
use part_table::Hand;
use parted_state::Parts;
use serve_domains::{DomainTables, lacks_number, reply_lacks_number};
use std::alloc::Global;
use step_parts::Cell;
use step_parts::held::now_held;
use step_parts::slots::shown;
use step_parts::tables::{BEFORE_CLIENTS, CLOCK, DOMAINS, EVENTS, JOURNALS, VARIABLES, semaphores};

/// What an event of a client is looked at by: how many clients there are, the parts that are held, and among them that
/// of the client.
#[derive(Clone, Copy)]
pub(crate) struct Sight<'a> {
    pub(crate) alloc: Global,
    pub(crate) clients: u32,
    pub(crate) held: &'a Hand<Cell>,
    pub(crate) part: &'a ClientPart,
}

/// The parts of the tables in which a client may have anything, where one is lost.
fn loss_parts(clients: u32, lost: bool) -> Parts
    requires few { clients ≤ 64 }
    ensures { IsSetOf result (if lost then placed clients loss_tables else []) }
{
    if !lost {
        return Parts::new();
    }
    Parts::of(&[
        CLOCK,
        VARIABLES,
        DOMAINS,
        EVENTS,
        JOURNALS,
        semaphores(clients),
    ])
}

/// The parts of those clients.
fn client_parts(told: &[u32], clients: u32) -> Parts
    requires few { clients ≤ 64 }
    ensures { IsSetOf result (client_parts clients told.now) }
{
    let mut parts = Parts::new();
    for &client in told {
        if 1 <= client && client <= clients {
            parts.push((BEFORE_CLIENTS + client) as u8);
        }
    }
    parts
}

/// Those parts of clients that are told something that are not held.
pub(crate) fn untold(told: &[u32], clients: u32, held: &Hand<Cell>) -> Parts
    requires few { clients ≤ 64 }
    ensures { IsSetOf result (missing held.now (client_parts clients told.now)) }
{
    client_parts(told, clients).missing(held)
}

/// Whether what octets come to is of the client's part alone: no table is used, and nobody else is told anything.
fn is_own(found: &Found<'_>) -> bool
    ensures { result ≡ is_own (meant found.now) }
{
    matches!(
        found,
        Found::Tells(_) | Found::Takes(_, Request::Status(_) | Request::Identify)
    )
}

/// The parts of the tables that are used by what octets come to.
fn heard_asks(found: &Found<'_>, clients: u32) -> Parts
    requires few { clients ≤ 64 }
    ensures { IsSetOf result (placed clients (heard_asks (meant found.now))) }
{
    match *found {
        Found::Tells(_) => Parts::new(),
        Found::Takes(_, asked) => request_asks(asked, clients),
        Found::Replies(_, _) | Found::Concludes => Parts::of(&[DOMAINS]),
        Found::Cancels(_) => Parts::of(&[CLOCK, semaphores(clients)]),
        Found::Aborts => loss_parts(clients, true),
    }
}

impl Sight<'_> {
    /// Whether something would be asked of the client by its request, and no number is left for that.
    fn lacks_number(self, invoke: u32, asked: &Request) -> Result<bool, Memory>
        ensures { IfOk result (λ lacks. lacks
            ≡ lacks_number (tables self.entry) (row self.entry) invoke (area_of asked.now)) }
    {
        match asked.area() {
            AreaRequest::Domains(asked) => {
                let domains = shown(self.alloc, self.held, DOMAINS);
                lacks_number(self.alloc, self.part, domains.get(), invoke, asked)
            }
            AreaRequest::Device(_)
            | AreaRequest::Variables(_)
            | AreaRequest::Semaphores(_)
            | AreaRequest::Invocations(_)
            | AreaRequest::Programs(_)
            | AreaRequest::Events(_)
            | AreaRequest::Journals(_) => Ok(false),
        }
    }

    /// Whether an open upload refuses a conclusion.
    fn keeps_upload(self) -> bool
        ensures { result ≡ keeps_upload (tables self.entry) (row self.entry) }
    {
        let domains = shown::<DomainTables>(self.alloc, self.held, DOMAINS);
        domains.get().has_upload(self.part.client())
    }

    /// The parts of the tables that are used beside those, by what they show.
    fn heard_more(self, found: &Found<'_>) -> Result<Parts, Memory>
        requires sight { IsSight self }
        ensures { IfOk result (λ parts. IsSetOf parts (placed self.entry.clients
            (heard_more (tables self.entry) (row self.entry) (meant found.now)))) }
    {
        match *found {
            Found::Takes(invoke, asked) => {
                if self.lacks_number(invoke, asked)? {
                    Ok(loss_parts(self.clients, true))
                } else {
                    Ok(self.request_more(asked))
                }
            }
            Found::Replies(number, answer) => {
                let lost = reply_lacks_number(self.part, number, answer);
                Ok(loss_parts(self.clients, lost))
            }
            Found::Concludes => Ok(loss_parts(self.clients, !self.keeps_upload())),
            Found::Aborts => Ok(loss_parts(self.clients, true)),
            Found::Tells(_) | Found::Cancels(_) => Ok(Parts::new()),
        }
    }

    /// Who is told something beside the client that is heard.
    fn told_beside(self, found: &Found<'_>) -> Result<Vec<u32>, Memory>
        requires sight { IsSight self }
        ensures { IfOk result (λ told.
            AlsoTells (tables self.entry) (row self.entry) (meant found.now) told.items) }
    {
        let variables = shown(self.alloc, self.held, VARIABLES);
        let domains = shown(self.alloc, self.held, DOMAINS);
        let events = shown(self.alloc, self.held, EVENTS);
        let rows = shown(self.alloc, self.held, semaphores(self.clients));
        let tables = ToldTables {
            now: now_held(self.held),
            variables: variables.get(),
            domains: domains.get(),
            events: events.get(),
            semaphores: rows.get(),
        };
        also_told(self.alloc, tables, self.part, found)
    }

    /// What is needed of the parts of those that are told something beside the client that is heard.
    fn also_need(self, found: &Found<'_>) -> Result<Parts, Memory>
        requires sight { IsSight self }
        ensures { IfOk result (λ parts. IsSetOf parts (missing self.entry.held.now
            (also_parts self.entry.clients self.entry.held.now (row self.entry)
            (meant found.now)))) }
    {
        let told = self.told_beside(found)?;
        Ok(untold(&told, self.clients, self.held))
    }

    /// What a verdict needs.
    fn found_need(self, found: &Found<'_>) -> Result<Parts, Memory>
        requires sight { IsSight self }
        ensures { IfOk result (λ parts. IsSetOf parts (verdict_need self.entry.clients
            self.entry.held.now (row self.entry) (meant found.now))) }
    {
        if is_own(found) {
            return Ok(Parts::new());
        }
        let missing = heard_asks(found, self.clients).missing(self.held);
        if !missing.is_empty() {
            return Ok(missing);
        }
        let missing = self.heard_more(found)?.missing(self.held);
        if !missing.is_empty() {
            return Ok(missing);
        }
        self.also_need(found)
    }

    /// What was read from the client needs.
    fn read_need(self, read: &Result<Read, Refusal>) -> Result<Parts, Memory>
        requires sight { IsSight self }
        requires depth { IsDeep read.now }
        ensures { IfOk result (λ parts. IsSetOf parts (verdict_need self.entry.clients
            self.entry.held.now (row self.entry) (verdict_by (row self.entry).association
            (row self.entry) (pdu_read read.now)))) }
    {
        self.found_need(&verdict_of(self.part, read)?)
    }

    /// What octets from the client need that come to that, or that are read here where nothing is found yet.
    pub(crate) fn heard_need(
        self,
        octets: &[u8],
        found: &Option<Found<'_>>,
    ) -> Result<Parts, Memory>
        requires sight { IsSight self }
        requires found { IfSome found.now (λ found. meant found ≡ verdict (row self) octets.now) }
        ensures { IfOk result (λ parts. IsSetOf parts
            (heard_need self.entry.clients self.entry.held.now (row self.entry) octets.now)) }
    {
        match found {
            Some(found) => self.found_need(found),
            None => {
                let edition = self.part.constants().edition;
                self.read_need(&read(self.alloc, octets, edition)?)
            }
        }
    }

    /// Who else is told something where the client is lost.
    fn told_of_loss(self) -> Result<Vec<u32>, Memory>
        requires sight { IsSight self }
        ensures { IfOk result (λ told. (k : ℕ) → is_told (also_lost (row self.entry).association
            (row self.entry).client (tables self.entry)) k ≡ list_any (λ c. c == k) told.items) }
    {
        let rows = shown(self.alloc, self.held, semaphores(self.clients));
        loss_told(self.alloc, rows.get(), now_held(self.held), self.part)
    }

    /// What the loss of the client needs.
    pub(crate) fn lost_need(self) -> Result<Parts, Memory>
        requires sight { IsSight self }
        ensures { IfOk result (λ parts. IsSetOf parts
            (lost_need self.entry.clients self.entry.held.now (row self.entry))) }
    {
        let lost = self.part.negotiated().is_some();
        let missing = loss_parts(self.clients, lost).missing(self.held);
        if !missing.is_empty() {
            return Ok(missing);
        }
        let told = self.told_of_loss()?;
        Ok(untold(&told, self.clients, self.held))
    }
}
