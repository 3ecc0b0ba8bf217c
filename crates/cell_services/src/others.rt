//! Who is told something by what another client does, or by time.

ghost use Rattle.std.specs.Prelude.{◌≡◌, ◌≢◌, ◌==◌, ◌++◌, ℕ, IfOk, OnErr, OnOk, [], map, option_to_list};
ghost use Rattle.std.specs.List.{flat_map, list_any};
ghost use Rattle.mms_types.specs.Moments.{IsDated};
ghost use Rattle.parted_state.specs.Served.{is_told};
ghost use Rattle.cell_client.specs.Meant.{came, meant};
ghost use Rattle.cell_client.specs.Association.{Concludes, Replies, Takes};
ghost use Rattle.association.specs.Client.{ClientRow};
ghost use Rattle.serve_events.specs.Events.{request_in};
ghost use Rattle.cell_services.specs.Looked.{AreToldBy};
ghost use Rattle.cell_services.specs.Requests.{told_in};
ghost use Rattle.cell_services.specs.Tables.{own_events};
ghost use Rattle.cell_services.specs.Others.{AlsoTells, client_of, clients_meanwhile, clients_told, grant_clients, is_abort};
ghost use Rattle.cell_services.specs.Serving.{all_told, also_lost, happening_told, loss_also};
ghost use Rattle.cell_services.specs.Tables.{Tables as Rows};

use crate::tables::says_true;
use association::ClientPart;
use cell_client::{Came, Found};
use cell_ticks::DatedHappening;
use mms_time::Semaphores;
use mms_types::{AreaRequest, EventRequest, Memory, Moment, Request};
use sem_ticks::{Granted, Happening, lose_told};
use serve_domains::{DomainTables, lacks_number, reply_lacks_number};
use serve_events::{EventTables, cell_watched};
use serve_semaphores::tells;
use std::alloc::Global;
use variable_services::VariableTables;

/// The clients of grants.
fn grant_clients(alloc: Global, grants: &[Granted]) -> Result<Vec<u32>, Memory>
    ensures { IfOk result (λ clients. clients.items ≡ grant_clients grants.now) }
{
    Ok(grants.iter().map(|grant| grant.client).collect(alloc)?)
}

/// The clients that are granted a token where a client is lost.
fn lost_told(
    alloc: Global,
    semaphores: &Semaphores,
    now: Moment,
    client: u32,
) -> Result<Vec<u32>, Memory>
    requires { IsDated now }
    ensures { IfOk result (λ clients. (t : Rows) → t.semaphores ≡ semaphores.now → t.now ≡ now.0
        → (k : ℕ) → is_told (loss_also client t) k ≡ list_any (λ c. c == k) clients.items) }
{
    let grants = lose_told(alloc, semaphores, client, now)?;
    let clients = grant_clients(alloc, &grants)?;
    Ok(clients)
}

/// That client alone, where there is one.
fn listed(alloc: Global, told: Option<u32>) -> Result<Vec<u32>, Memory>
    ensures { IfOk result (λ clients. clients.items ≡ option_to_list told) }
{
    match told {
        None => Ok(Vec::new(alloc)),
        Some(client) => Ok(vec![in alloc; client]?),
    }
}

/// The tables by which it is found who else is told something, as they are looked at.
#[derive(Clone, Copy)]
pub struct ToldTables<'a> {
    /// The moment.
    pub now: Moment,
    /// Cells, named variables and lists of variables.
    pub variables: &'a VariableTables,
    /// Domains and the uploads of them.
    pub domains: &'a DomainTables,
    /// Event conditions and the enrollments on them.
    pub events: &'a EventTables,
    /// Semaphores.
    pub semaphores: &'a Semaphores,
}

impl<'a> ToldTables<'a> {
    /// The clients that are granted a token where a client is lost.
    fn lost(self, alloc: Global, client: u32) -> Result<Vec<u32>, Memory>
        requires { IsDated self.now }
        ensures { IfOk result (λ clients. (t : Rows) → AreToldBy self.entry t
            → (k : ℕ) → is_told (loss_also client t) k ≡ list_any (λ c. c == k) clients.items) }
    {
        lost_told(alloc, self.semaphores, self.now, client)
    }

    /// Whether the cell is TRUE that the condition watches that a request of a client names.
    fn is_true(self, client: u32, asked: EventRequest<'_>) -> bool
        ensures { (t : Rows) (row : ClientRow) → AreToldBy self.entry t → row.client ≡ client
            → result ≡ (told_in own_events t row (request_in asked.entry)).truth }
    {
        match cell_watched(self.events, client, asked) {
            None => false,
            Some(cell) => says_true(self.variables, cell),
        }
    }

    /// The clients that are told something beside the one whose request is taken.
    fn request_told(
        self,
        alloc: Global,
        part: &ClientPart,
        invoke: u32,
        asked: &Request,
    ) -> Result<Vec<u32>, Memory>
        requires { IsDated self.now }
        ensures { IfOk result (λ clients. (t : Rows) → AreToldBy self.entry t
            → AlsoTells t part.now.row (Takes invoke asked.now) clients.items) }
    {
        match asked.area() {
            AreaRequest::Semaphores(asked) => {
                listed(alloc, tells(alloc, self.semaphores, part, invoke, asked)?)
            }
            AreaRequest::Domains(asked) => {
                if lacks_number(alloc, part, self.domains, invoke, asked)? {
                    self.lost(alloc, part.client())
                } else {
                    Ok(Vec::new(alloc))
                }
            }
            AreaRequest::Events(asked) => {
                let is_true = self.is_true(part.client(), asked);
                serve_events::tells(alloc, self.events, part, self.now, is_true, invoke, asked)
            }
            AreaRequest::Device(_)
            | AreaRequest::Variables(_)
            | AreaRequest::Invocations(_)
            | AreaRequest::Programs(_)
            | AreaRequest::Journals(_) => Ok(Vec::new(alloc)),
        }
    }

    /// The clients that are told something beside the one that answers the server: none, unless that one is aborted.
    fn reply_told(
        self,
        alloc: Global,
        part: &ClientPart,
        number: u32,
        answer: Came<'_>,
    ) -> Result<Vec<u32>, Memory>
        requires { IsDated self.now }
        ensures { IfOk result (λ clients. (t : Rows) → AreToldBy self.entry t
            → AlsoTells t part.now.row (Replies number (came answer.entry)) clients.items) }
    {
        if reply_lacks_number(part, number, answer) {
            self.lost(alloc, part.client())
        } else {
            Ok(Vec::new(alloc))
        }
    }

    /// The clients that are told something beside the one that concludes: none where an open upload refuses it.
    fn conclusion_told(self, alloc: Global, part: &ClientPart) -> Result<Vec<u32>, Memory>
        requires { IsDated self.now }
        ensures { IfOk result (λ clients. (t : Rows) → AreToldBy self.entry t
            → AlsoTells t part.now.row Concludes clients.items) }
    {
        if self.domains.has_upload(part.client()) {
            Ok(Vec::new(alloc))
        } else {
            self.lost(alloc, part.client())
        }
    }
}

/// The clients that are told something beside the one that is heard, by what is heard from it. Their order is left
/// open: who asks takes them as a set, of whose parts it needs.
pub fn also_told(
    alloc: Global,
    tables: ToldTables<'_>,
    part: &ClientPart,
    found: &Found<'_>,
) -> Result<Vec<u32>, Memory>
    requires { IsDated tables.now }
    ensures { IfOk result (λ clients. (t : Rows) → AreToldBy tables.entry t
        → AlsoTells t part.now.row (meant found.now) clients.items) }
{
    match *found {
        Found::Takes(invoke, asked) => tables.request_told(alloc, part, invoke, asked),
        Found::Replies(number, answer) => tables.reply_told(alloc, part, number, answer),
        Found::Concludes => tables.conclusion_told(alloc, part),
        Found::Aborts => tables.lost(alloc, part.client()),
        Found::Tells(_) | Found::Cancels(_) => Ok(Vec::new(alloc)),
    }
}

/// The clients that are told something beside the one that is lost. Their order is left open, as that of `also_told`.
pub fn loss_told(
    alloc: Global,
    semaphores: &Semaphores,
    now: Moment,
    part: &ClientPart,
) -> Result<Vec<u32>, Memory>
    requires { IsDated now }
    ensures { IfOk result (λ clients. (t : Rows) → t.semaphores ≡ semaphores.now → t.now ≡ now.0
        → (k : ℕ) → is_told (also_lost part.now.row.association part.now.row.client t) k
        ≡ list_any (λ c. c == k) clients.items) }
{
    match part.negotiated() {
        None => Ok(Vec::new(alloc)),
        Some(_) => lost_told(alloc, semaphores, now, part.client()),
    }
}

/// The client that is told of what happened to semaphores.
fn client_of(happening: &Happening) -> u32
    ensures { result ≡ client_of happening.now }
{
    match happening {
        Happening::WaitEnds { client, .. } => *client,
        Happening::Grants(grant) => grant.client,
        Happening::Aborts(client) => *client,
    }
}

/// The client that is told of each thing that happened to semaphores, in order.
fn clients_of(alloc: Global, happened: &[Happening]) -> Result<Vec<u32>, Memory>
    ensures order { IfOk result (λ clients. clients.items ≡ map client_of happened.now) }
    ensures wants { OnErr result (happened.now ≢ []) }
{
    let mut clients = Vec::new(alloc);
    for happening in happened {
        clients.push(client_of(happening))?;
    }
    Ok(clients)
}

/// The clients that are told of what happened to semaphores, one for each thing and in their order.
pub fn happened_to(alloc: Global, happened: &[Happening]) -> Result<Vec<u32>, Memory>
    ensures told { IfOk result (λ clients. (k : ℕ)
        → is_told (flat_map happening_told happened.now) k ≡ list_any (λ c. c == k) clients.items) }
    ensures order { IfOk result (λ clients. clients.items ≡ map client_of happened.now) }
    ensures wants { OnErr result (happened.now ≢ []) }
{
    let clients = clients_of(alloc, happened)?;
    Ok(clients)
}

/// Adds the clients that are told of what happened on the device.
fn put_clients(clients: &mut Vec<u32>, happened: &cell_ticks::Happening) -> Result<(), Memory>
    ensures { OnOk result (clients.new.items ≡ clients.old.items ++ clients_told happened.now) }
{
    match happened {
        cell_ticks::Happening::Semaphores(happening) => clients.push(client_of(happening))?,
        cell_ticks::Happening::Turns(told) => {
            for notice in told.notices.as_slice() {
                clients.push(notice.client)?;
            }
        }
    }
    Ok(())
}

/// The clients that are told of all that happened on the device, one thing after the other.
fn clients_meanwhile(alloc: Global, happened: &[DatedHappening]) -> Result<Vec<u32>, Memory>
    ensures told { IfOk result (λ clients. clients.items ≡ clients_meanwhile happened.now) }
    ensures wants { OnErr result (happened.now ≢ []) }
{
    let mut clients = Vec::new(alloc);
    for one in happened {
        put_clients(&mut clients, &one.happening)?;
    }
    Ok(clients)
}

/// The clients that are told of what happened on the device, each as often as it is told. Their order is left open.
pub fn told_meanwhile(alloc: Global, happened: &[DatedHappening]) -> Result<Vec<u32>, Memory>
    ensures told { IfOk result (λ clients. (k : ℕ) → is_told (all_told happened.now) k
        ≡ list_any (λ c. c == k) clients.items) }
    ensures wants { OnErr result (happened.now ≢ []) }
{
    let clients = clients_meanwhile(alloc, happened)?;
    Ok(clients)
}

/// Whether a client is lost by what happened to semaphores.
pub fn is_lossy(happened: &[Happening]) -> bool
    ensures { result ≡ list_any is_abort happened.now }
{
    happened
        .iter()
        .any(|happening| matches!(happening, Happening::Aborts(_)))
}
