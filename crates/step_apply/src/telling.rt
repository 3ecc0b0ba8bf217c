//! What clients are told. Room for it is made in their parts first, which alone may want memory; telling them can't
//! fail.

ghost use Rattle.std.specs.Prelude.{◌≡◌, ◌==◌, ◌+◌, ◌<◌, ◌≤◌, OnOk, OnErr};
ghost use Rattle.std.specs.List.{list_any};
ghost use Rattle.std.specs.Option.{option_map};
ghost use Rattle.part_table.specs.Held.{held_at};
ghost use Rattle.parted_state.specs.Lifted.{told_all};
ghost use Rattle.parted_state.specs.Served.{change};
ghost use Rattle.step_parts.specs.Partition.{cell, client_place};
ghost use Rattle.cell_client.specs.Telling.{effects_told};
ghost use Rattle.step_apply.specs.Rooms.{no_room, room_to, telling, with_room, with_rooms, without_rooms, AreClients, HasRoom, IsSettled};

use cell_client::ClientTold;
use mms_types::Memory;
use part_table::Hand;
use step_parts::tables::BEFORE_CLIENTS;
use step_parts::{Cell, Part};

/// Room in the part of a client.
#[derive(Clone, Copy)]
pub(crate) struct Room {
    /// For so many outputs.
    outputs: usize,
    /// For so many requests that wait.
    waiting: usize,
}

/// Whether a client is told anything.
fn is_told(told: &[(u32, ClientTold)], client: u32) -> bool
    ensures { result ≡ list_any (λ t. t.0 == client) told.now }
{
    told.iter().any(|t| t.0 == client)
}

/// How many outputs a client is told.
fn outputs_to(told: &[(u32, ClientTold)], client: u32) -> usize
    ensures { result ≡ (room_to told.now client).outputs }
{
    told.iter()
        .filter(|t| t.0 == client && t.1.is_output())
        .count()
}

/// How many requests that wait a client is told.
fn waits_to(told: &[(u32, ClientTold)], client: u32) -> usize
    ensures { result ≡ (room_to told.now client).waiting }
{
    told.iter()
        .filter(|t| t.0 == client && t.1.is_wait())
        .count()
}

/// The room that is used by what a client is told.
fn room_to(told: &[(u32, ClientTold)], client: u32) -> Room
    ensures { result ≡ room_to told.now client }
{
    Room {
        outputs: outputs_to(told, client),
        waiting: waits_to(told, client),
    }
}

/// Makes room in the part of a client, where it is held, in place of the room that there was.
fn make_room(held: &mut Hand<Cell>, client: u32, room: Room) -> Result<(), Memory>
    requires small { client ≤ 64 }
    ensures made { OnOk result (held.new
        ≡ change (option_map (with_room room)) held.old (client_place client)) }
    ensures kept { OnErr result (held.new ≡ held.old) }
{
    let place = BEFORE_CLIENTS + client;
    let Some(mut part) = held.take(place) else {
        return Ok(());
    };
    match &mut *part {
        Part::Client(client) => {
            let made = client.reserve(room.outputs, room.waiting);
            held.put(place, part);
            made
        }
        _ => {
            held.put(place, part);
            Ok(())
        }
    }
}

/// Gives up the room in the part of a client, where it is held.
fn release(held: &mut Hand<Cell>, client: u32)
    requires small { client ≤ 64 }
    ensures { held.new ≡ change (option_map (with_room no_room)) held.old (client_place client) }
{
    let place = BEFORE_CLIENTS + client;
    let Some(mut part) = held.take(place) else {
        return;
    };
    if let Part::Client(client) = &mut *part {
        client.release();
        held.put(place, part);
    } else {
        held.put(place, part);
    }
}

/// Gives up the room in the parts of all clients.
pub(crate) fn release_all(held: &mut Hand<Cell>, clients: u32)
    requires few { clients ≤ 64 }
    ensures { held.new ≡ without_rooms (clients + 1) held.old }
{
    for client in 1..clients + 1 {
        release(held, client);
    }
}

/// Makes room in the parts of those of clients 1 to n that are told something. Without memory there is none anywhere.
pub(crate) fn make_rooms(
    held: &mut Hand<Cell>,
    clients: u32,
    told: &[(u32, ClientTold)],
) -> Result<(), Memory>
    requires few { clients ≤ 64 }
    requires settled { IsSettled (clients + 1) held.old }
    ensures made { OnOk result
        (held.new ≡ with_rooms (clients + 1) (room_to told.now) held.old) }
    ensures kept { OnErr result (held.new ≡ held.old) }
{
    for client in 1..clients + 1 {
        if is_told(told, client) {
            if let Err(error) = make_room(held, client, room_to(told, client)) {
                release_all(held, clients);
                return Err(error);
            }
        }
    }
    Ok(())
}

/// Tells a client something, where its part is held. It uses room that there is.
fn tell(held: &mut Hand<Cell>, client: u32, told: ClientTold)
    requires small { client ≤ 64 }
    requires room { HasRoom told (held_at held.old (client_place client)) }
    ensures { held.new ≡ change (option_map (telling told)) held.old (client_place client) }
{
    let place = BEFORE_CLIENTS + client;
    let Some(mut part) = held.take(place) else {
        return;
    };
    if let Part::Client(client) = &mut *part {
        client.tell(told);
        held.put(place, part);
    } else {
        held.put(place, part);
    }
}

/// Tells one of clients 1 to n something, and nobody where it is none of them.
fn tell_one(held: &mut Hand<Cell>, clients: u32, client: u32, told: ClientTold)
    requires few { clients ≤ 64 }
    requires room { 1 ≤ client → client ≤ clients
        → HasRoom told (held_at held.old (client_place client)) }
    ensures one { 1 ≤ client → client ≤ clients
        → held.new ≡ change (option_map (telling told)) held.old (client_place client) }
    ensures nobody { (1 ≤ client → client ≤ clients → ⊥) → held.new ≡ held.old }
{
    if 1 <= client && client <= clients {
        tell(held, client, told);
    }
}

/// Tells those of clients 1 to n something that are told it, in order. There is room for it.
pub(crate) fn tell_all(held: &mut Hand<Cell>, clients: u32, told: Vec<(u32, ClientTold)>)
    requires few { clients ≤ 64 }
    requires rooms { held.old
        ≡ with_rooms (clients + 1) (room_to told.items) (without_rooms (clients + 1) held.old) }
    requires are { AreClients clients held.old }
    ensures { held.new
        ≡ told_all cell clients (effects_told told.items) (without_rooms (clients + 1) held.old) }
{
    for (client, told) in told {
        tell_one(held, clients, client, told);
    }
}
