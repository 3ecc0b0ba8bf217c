//! One event on the parts that are held.

ghost use Rattle.std.specs.Prelude.{◌≡◌, ℕ, ◌+◌, ◌<◌, ◌≤◌, true, [], is_none, length, slice_set, None, Some, Result, OnOk, OnErr, IfOk, IfSome};
ghost use Rattle.std.specs.Option.{option_map};
ghost use Rattle.mms_types.specs.Actors.{IsAmong};
ghost use Rattle.mms_types.specs.Areas.{request_of};
ghost use Rattle.mms_types.specs.declared.event.CellEvent.TheVariants.{Drain};
ghost use Rattle.association.specs.Asked.{is_open};
ghost use Rattle.association.specs.Client.{drained_row};
ghost use Rattle.mms_types.specs.declared.pdu.Pdu.{Pdu};
ghost use Rattle.mms_pdu.specs.Hearing.{Hears};
ghost use Rattle.part_table.specs.Held.{held_at, places_held, IsHandOf};
ghost use Rattle.parted_state.specs.Served.{change};
ghost use Rattle.step_parts.specs.State.{State, IsSound};
ghost use Rattle.cell_client.specs.Association.{verdict, verdict_by, Takes};
ghost use Rattle.step_parts.specs.Step.{step, IsInTime};
ghost use Rattle.step_parts.specs.Partition.{client_place, clients_among, clock_in, clock_place, on_client, outbox_held, parts_of, IsClient};
ghost use Rattle.step_parts.specs.Needs.{need};
ghost use Rattle.cell_client.specs.Reads.{IsDeep};
ghost use Rattle.cell_client.specs.Meant.{act_verdict, meant, uses_no_table};
ghost use Rattle.cell_client.specs.Requests.{plain_answer};
ghost use Rattle.step_parts.specs.Found.{row_held, IsFoundOf};
ghost use Rattle.step_apply.specs.Tasks.{heard_in_place, IsReady, IsServing};
ghost use Rattle.step_parts.specs.After.{after};

use crate::areas::{Cancel, serve_on_device};
use crate::domains::{reply_on_domains, serve_on_domains};
use crate::passing::tick;
use crate::placing::{Serving, serve_on};
use crate::programs::{end_program, make_on_programs};
use crate::serving::{Task, serve};
use cell_client::{Act, Found, verdict_of, wants_memory};
use cell_services::{hear, left_of};
use mms_pdu::{Read, Refusal, read_pdu_to};
use mms_types::{AreaRequest, CellEvent, Memory, What};
use part_table::Hand;
use std::alloc::Global;
use step_parts::held::client_held;
use step_parts::slots::{put, take};
use step_parts::tables::{BEFORE_CLIENTS, clients_of};
use step_parts::{Cell, Part};

/// Lets a client hear what its octets come to where no table is used. Without memory all is as before.
fn hear_own(who: Serving, held: &mut Hand<Cell>, found: &Found<'_>) -> Result<(), Memory>
    requires serving { IsServing who.clients who.client held.old }
    requires alone { uses_no_table (row_held held.old who.client) (meant found.now) ≡ true }
    ensures put { OnOk result (held.new ≡ heard_in_place who.client (meant found.now) held.old) }
    ensures kept { OnErr result (held.new ≡ held.old) }
{
    let mut part = take(held, BEFORE_CLIENTS + who.client);
    let heard = match &mut *part {
        Part::Client(own) => hear(who.alloc, own, found),
        _ => unreachable!(),
    };
    put(held, BEFORE_CLIENTS + who.client, part);
    heard
}

/// Serves a request of a client, of which all is held that it needs.
fn serve_request(
    who: Serving,
    held: &mut Hand<Cell>,
    invoke: u32,
    asked: AreaRequest<'_>,
) -> Result<(), Memory>
    requires serving { IsServing who.clients who.client held.old }
    requires ready { IsReady who.clients who.client (Takes invoke (request_of asked)) held.old }
    requires tables { plain_answer (row_held held.old who.client) (request_of asked) ≡ None }
    requires open { is_open (row_held held.old who.client).association ≡ true }
    ensures put { OnOk result (held.new
        ≡ heard_in_place who.client (Takes invoke (request_of asked.entry)) held.old) }
    ensures kept { OnErr result (held.new ≡ held.old) }
{
    match asked {
        AreaRequest::Device(asked) => serve_on_device(who, held, invoke, asked),
        AreaRequest::Variables(asked) => serve_on(who, held, invoke, &asked),
        AreaRequest::Semaphores(asked) => serve_on(who, held, invoke, &asked),
        AreaRequest::Domains(asked) => serve_on_domains(who, held, invoke, asked),
        AreaRequest::Invocations(asked) => make_on_programs(who, held, invoke, asked),
        AreaRequest::Programs(asked) => serve_on(who, held, invoke, &asked),
        AreaRequest::Events(asked) => serve_on(who, held, invoke, &asked),
        AreaRequest::Journals(asked) => serve_on(who, held, invoke, &asked),
    }
}

/// Lets a client hear what its octets come to.
fn hear_found(who: Serving, held: &mut Hand<Cell>, found: &Found<'_>) -> Result<(), Memory>
    requires serving { IsServing who.clients who.client held.old }
    requires found { (told : Result Pdu Refusal) × (meant found.now
        ≡ verdict_by (row_held held.old who.client).association
        (row_held held.old who.client) told) }
    requires ready { IsReady who.clients who.client (meant found.now) held.old }
    ensures heard { OnOk result (held.new ≡ heard_in_place who.client (meant found.now) held.old) }
    ensures kept { OnErr result (held.new ≡ held.old) }
{
    match left_of(found) {
        None => hear_own(who, held, found),
        Some(Act::Request { invoke, asked }) => serve_request(who, held, invoke, asked.area()),
        Some(Act::Reply { number, answer }) => reply_on_domains(who, held, number, answer),
        Some(Act::Cancel { invoke }) => serve_on(who, held, invoke, &Cancel),
        Some(act) => serve(who.alloc, held, who.clients, &Task::Client(who.client, act)),
    }
}

/// What was read from a client comes to, unless memory was wanting to read it.
fn found_of<'a>(
    held: &Hand<Cell>,
    client: u32,
    read: &'a Result<Read, Refusal>,
) -> Result<Found<'a>, Memory>
    requires small { client ≤ 64 }
    requires held { IsClient (held_at held.now (client_place client)) }
    requires depth { IsDeep read.now }
    ensures { IfOk result (λ found. (told : Result Pdu Refusal) → Hears (λ r. r.pdu) read.now told
        → meant found ≡ verdict_by (row_held held.now client).association
        (row_held held.now client) told) }
{
    if wants_memory(read) {
        return Err(Memory::wanting());
    }
    verdict_of(client_held(held, client), read)
}

/// Lets octets be heard from a client, which are read here.
fn hear_octets(who: Serving, held: &mut Hand<Cell>, octets: &[u8]) -> Result<(), Memory>
    requires serving { IsServing who.clients who.client held.old }
    requires ready { IsReady who.clients who.client
        (verdict (row_held held.old who.client) octets.now) held.old }
    ensures heard { OnOk result (held.new ≡ heard_in_place who.client
        (verdict (row_held held.old who.client) octets.now) held.old) }
    ensures kept { OnErr result (held.new ≡ held.old) }
{
    let edition = client_held(held, who.client).constants().edition;
    let mut read = Err(Refusal::Memory);
    read_pdu_to(who.alloc, octets, edition, &mut read);
    match found_of(held, who.client, &read) {
        Ok(found) => hear_found(who, held, &found),
        Err(error) => Err(error),
    }
}

/// Lets octets be heard from a client that come to that, or whose verdict isn't found yet.
fn hear_from(
    who: Serving,
    held: &mut Hand<Cell>,
    octets: &[u8],
    found: &Option<Found<'_>>,
) -> Result<(), Memory>
    requires serving { IsServing who.clients who.client held.old }
    requires found { IfSome found.now (λ found.
        meant found ≡ verdict (row_held held.old who.client) octets.now) }
    requires ready { IsReady who.clients who.client
        (verdict (row_held held.old who.client) octets.now) held.old }
    ensures heard { OnOk result (held.new ≡ heard_in_place who.client
        (verdict (row_held held.old who.client) octets.now) held.old) }
    ensures kept { OnErr result (held.new ≡ held.old) }
{
    match found {
        Some(found) => hear_found(who, held, found),
        None => hear_octets(who, held, octets),
    }
}

/// Takes what is to be sent to a client out of its part: the step of `Drain` on the parts that are held. It takes no
/// memory.
pub fn drain(client: u32, held: &mut Hand<Cell>) -> Vec<What>
    requires small { client ≤ 64 }
    requires held { IsClient (held_at held.old (client_place client)) }
    ensures outputs { result.items ≡ outbox_held (held_at held.old (client_place client)) }
    ensures emptied { held.new ≡ change (option_map (on_client drained_row)) held.old
        (client_place client) }
    // Of a state that has that client, they are then the parts after the event.
    ensures parts { (s : State) → IsHandOf held.old (parts_of s)
        → IsAmong (length s.clients) (Drain client) → held.new ≡ after (Drain client) held.old }
{
    let place = BEFORE_CLIENTS + client;
    let Some(mut part) = held.take(place) else {
        unreachable!()
    };
    let outputs = match &mut *part {
        Part::Client(client) => client.drain(),
        _ => unreachable!(),
    };
    held.put(place, part);
    outputs
}

/// Does the step of an event on the parts that are held, and puts outputs into outboxes. `held` are parts of a state of
/// the device, a client of the event is one of its clients, and nothing is needed that is not held. `found` is what the
/// octets of the event come to, by the part of its client that is held; where nothing is found they are read here.
/// Without memory the parts are as before.
pub fn apply_by(
    alloc: Global,
    event: &CellEvent,
    found: &Option<Found<'_>>,
    held: &mut Hand<Cell>,
) -> Result<(), Memory>
    requires of { (s : State) × ((count : ℕ) × IsSound count s) × IsHandOf held.old (parts_of s) }
    requires found { IsFoundOf found.now event.now held.old }
    requires among { IsAmong (clients_among (length held.old)) event.now }
    requires held { need event.now held.old ≡ [] }
    requires time { IsInTime (clock_in (held_at held.old clock_place)) event.now }
    // They are then parts of the state after the step, whichever state they were parts of.
    ensures step { OnOk result ((s : State) → IsHandOf held.old (parts_of s)
        → IsHandOf held.new (parts_of (step s event.now))) }
    ensures parts { OnOk result (held.new ≡ after event.now held.old) }
    ensures places { places_held held.new ≡ places_held held.old }
    ensures kept { OnErr result (held.new ≡ held.old) }
{
    let clients = clients_of(held);
    match event {
        CellEvent::Heard { client, octets } => {
            let who = Serving {
                alloc,
                clients,
                client: *client,
            };
            hear_from(who, held, octets.as_slice(), found)
        }
        CellEvent::Lost { client } => serve(
            alloc,
            held,
            clients,
            &Task::Client(*client, Act::Loss),
        ),
        CellEvent::Tick { ms } => tick(alloc, held, clients, *ms),
        CellEvent::Ends { name } => {
            end_program(held, name);
            Ok(())
        }
        CellEvent::Drain { client } => {
            let _outputs = drain(*client, held);
            Ok(())
        }
    }
}

/// Does the step of an event on the parts that are held, as `apply_by` where nothing is found.
pub fn apply(alloc: Global, event: &CellEvent, held: &mut Hand<Cell>) -> Result<(), Memory>
    requires of { (s : State) × ((count : ℕ) × IsSound count s) × IsHandOf held.old (parts_of s) }
    requires among { IsAmong (clients_among (length held.old)) event.now }
    requires held { need event.now held.old ≡ [] }
    requires time { IsInTime (clock_in (held_at held.old clock_place)) event.now }
    // They are then parts of the state after the step, whichever state they were parts of.
    ensures step { OnOk result ((s : State) → IsHandOf held.old (parts_of s)
        → IsHandOf held.new (parts_of (step s event.now))) }
    ensures parts { OnOk result (held.new ≡ after event.now held.old) }
    ensures places { places_held held.new ≡ places_held held.old }
    ensures kept { OnErr result (held.new ≡ held.old) }
{
    apply_by(alloc, event, &None, held)
}
