//! Two clients contend for one token, on two threads, and the history that comes of it is replayed on one.

ghost use Rattle.std.specs.Prelude.{◌≡◌, ◌+◌, ◌<◌, ◌≤◌, length, IfSome};
ghost use Rattle.cell_config.specs.Said.{IsConfig};
ghost use Rattle.part_table.specs.Known.{HoldsNothing};

use crate::asking::{sent, two_clients};
use crate::callers::{commits_left, finish, opened, serve_octets};
use cell_config::Config;
use cell_io::Open;
use mms_device::{Device, Drained, Whole};
use mms_step::Cell;
use mms_types::{CellEvent, Octets};
use part_table::Pass;
use std::alloc::Global;
use std::sync::Wait;
use std::test::Fail;
use std::thread::{Threads, join};

/// How many steps a script has.
const STEPS: usize = 200;

/// What a client did: the places of its events, in the order of its script, and what it took at the end.
#[derive(Drop)]
struct Played {
    pass: Pass<Cell>,
    places: Vec<u64>,
    drained: Drained,
}

/// The client takes what is to be sent to it, and tries again while the device is busy.
fn drain_at_last<R: Wait>(rt: &R, device: &Device, pass: &mut Pass<Cell>) -> Option<Drained>
    requires table { pass.old.table ≡ device.now.table }
    requires idle { HoldsNothing pass.old }
    requires client { 1 ≤ pass.old.by }
    ensures table { pass.new.table ≡ pass.old.table }
    ensures by { pass.new.by ≡ pass.old.by }
    ensures idle { HoldsNothing pass.new }
{
    for _ in rt.forever() {
        if commits_left(pass) == 0 {
            return None;
        }
        if let Ok(drained) = device.drain(pass, &Open) {
            return Some(drained);
        }
    }
    None
}

/// Serves the script of a client by its pass, and drains it.
fn play<R: Wait>(
    rt: &R,
    alloc: Global,
    device: &Device,
    mut pass: Pass<Cell>,
    client: u32,
) -> Option<Played>
    requires table { pass.table ≡ device.now.table }
    requires idle { HoldsNothing pass }
    requires client { (client ≡ pass.by) × (1 ≤ client) }
    ensures table { IfSome result (λ played. played.pass.table ≡ device.now.table) }
    ensures by { IfSome result (λ played. played.pass.by ≡ client) }
    ensures idle { IfSome result (λ played. HoldsNothing played.pass) }
{
    let mut places = Vec::new(alloc);
    for step in 0..STEPS {
        if commits_left(&pass) == 0 {
            return None;
        }
        let octets = sent(step);
        let place = serve_octets(rt, alloc, device, &mut pass, client, octets, &Open).ok()?;
        places.push(place).ok()?;
    }
    let drained = drain_at_last(rt, device, &mut pass)?;
    Some(Played {
        pass,
        places,
        drained,
    })
}

/// What stands at a place of the history.
#[derive(Clone, Copy)]
enum Stands {
    /// That step of the first client's script, or of the second's.
    Step(u32, usize),
    /// That client's drain.
    Drain(u32),
}

/// Whose event has that place, of two clients.
fn stands_at(place: u64, clients: [(&[u64], u64); 2]) -> Option<Stands> {
    for (index, (places, drain)) in clients.into_iter().enumerate() {
        let client = index as u32 + 1;
        if drain == place {
            return Some(Stands::Drain(client));
        }
        if let Ok(step) = places.binary_search(&place) {
            return Some(Stands::Step(client, step));
        }
    }
    None
}

/// Lets a client of the device of one thread be heard.
fn hear(alloc: Global, device: &mut Whole, client: u32, octets: &[u8]) -> Option<u64> {
    if client == 0 || client > device.clients() || device.count() > 1_000_000 {
        return None;
    }
    let event = CellEvent::Heard {
        client,
        octets: Octets::from_slice(alloc, octets).ok()?,
    };
    device.serve(alloc, &event).ok()
}

/// Lets a client of the device of one thread take what is to be sent to it.
fn take(device: &mut Whole, client: u32) -> Option<Drained> {
    if client == 0 || client > device.clients() || device.count() > 1_000_000 {
        return None;
    }
    Some(device.drain(client))
}

/// Whether a device of one thread, which serves the events in the order of their places, lets each client take the
/// same.
fn is_replayed(alloc: Global, config: &Config, first: &Played, second: &Played) -> Option<bool>
    requires config { IsConfig config.now }
{
    let mut device = Whole::new(alloc, config).ok()?;
    let mut same = true;
    for place in 1..=(2 * STEPS as u64 + 2) {
        let clients = [
            (first.places.as_slice(), first.drained.ticket),
            (second.places.as_slice(), second.drained.ticket),
        ];
        match stands_at(place, clients)? {
            Stands::Step(client, step) => {
                same = same && hear(alloc, &mut device, client, sent(step))? == place;
            }
            Stands::Drain(client) => {
                let taken = take(&mut device, client)?;
                let told = if client == 1 {
                    &first.drained
                } else {
                    &second.drained
                };
                same = same && taken.outputs == told.outputs;
            }
        }
    }
    Some(same)
}

/// Plays both scripts on two threads. How many events were made, whether they are replayed, and how many outputs each
/// client took.
fn play_both<R: Threads + Wait + Sync>(rt: &R, alloc: Global) -> Option<(u64, bool, usize, usize)> {
    let config = two_clients(alloc)?;
    let made = opened(alloc, &config)?;
    let device = made.device;
    let (first, second) = join(
        rt,
        || play(rt, alloc, &device, made.first, 1),
        || play(rt, alloc, &device, made.second, 2),
    );
    let (first, second) = (first?, second?);
    let same = is_replayed(alloc, &config, &first, &second)?;
    let sizes = (first.drained.outputs.len(), second.drained.outputs.len());
    let events = finish(alloc, device, made.cell, first.pass, second.pass)?;
    Some((events, same, sizes.0, sizes.1))
}

#[test]
fn what_two_clients_make_on_two_threads_is_one_history(rt: HostRuntime) {
    let found = play_both(&rt, rt.alloc());
    // Each request of a client has one answer, but for one that may wait at the end.
    assert!(rt;
        match found {
            Some((events, same, first, second)) => {
                events == 402 && same && first.abs_diff(200) <= 1 && second.abs_diff(200) <= 1
            }
            None => false,
        }
    );
}
