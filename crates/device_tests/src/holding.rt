//! A gate that holds a caller, while another one is served.

ghost use Rattle.std.specs.Prelude.{◌≡◌, ◌<◌, ◌≤◌, IfSome};
ghost use Rattle.part_table.specs.Known.{HoldsNothing};

use crate::asking::{DEFINE, OPEN, READ, TAKE, two_clients};
use crate::callers::{commits_left, finish, opened, serve_octets, try_octets};
use cell_io::{Gate, Open, Point};
use mms_device::{Busy, Device, Refused};
use mms_step::Cell;
use part_table::Pass;
use std::alloc::Global;
use std::sync::Wait;
use std::sync::atomic::{AtomicU64, Ordering};
use std::thread;
use std::thread::{Threads, join};
use std::time::{Clock, Duration};

/// How many milliseconds somebody waits at most.
const MOST: u64 = 20_000;

/// The part of the variables.
const VARIABLES: u32 = 1;

/// Holds the first client where it has just taken the variables, until an event of the second is committed.
#[derive(Drop)]
struct Holding<'a, R> {
    rt: &'a R,
    /// Whether the first client was there.
    held: AtomicU64,
    /// Whether an event of the second client was committed.
    committed: AtomicU64,
    /// How often the second client was about to answer that the variables are held.
    busy: AtomicU64,
}

/// Waits until a word isn't 0, but not for long. Whether it is then.
fn is_raised<R: Clock>(rt: &R, word: &AtomicU64) -> bool {
    for _ in 0..MOST {
        if word.load(Ordering::SeqCst) != 0 {
            return true;
        }
        thread::sleep(rt, Duration::from_millis(1));
    }
    false
}

impl<R: Clock> Gate for Holding<'_, R> {
    fn pass(&self, caller: u32, point: Point) {
        match (caller, point) {
            (1, Point::Took(VARIABLES)) => {
                self.held.store(1, Ordering::SeqCst);
                let _ = is_raised(self.rt, &self.committed);
            }
            (2, Point::Committed) => self.committed.store(1, Ordering::SeqCst),
            (2, Point::Busy(VARIABLES)) => {
                self.busy.fetch_add(1, Ordering::SeqCst);
            }
            _ => {}
        }
    }
}

/// The first client opens, and reads through the gate: the place of the read.
fn read_held<R: Wait, G: Gate>(
    rt: &R,
    alloc: Global,
    device: &Device,
    mut pass: Pass<Cell>,
    gate: &G,
) -> Option<(Pass<Cell>, u64)>
    requires table { pass.table ≡ device.now.table }
    requires idle { HoldsNothing pass }
    requires client { 1 ≡ pass.by }
    ensures table { IfSome result (λ read. read.0.table ≡ device.now.table) }
    ensures by { IfSome result (λ read. read.0.by ≡ 1) }
    ensures idle { IfSome result (λ read. HoldsNothing read.0) }
{
    if commits_left(&pass) == 0 {
        return None;
    }
    let _opened = serve_octets(rt, alloc, device, &mut pass, 1, OPEN, &Open).ok()?;
    if commits_left(&pass) == 0 {
        return None;
    }
    let place = serve_octets(rt, alloc, device, &mut pass, 1, READ, gate).ok()?;
    Some((pass, place))
}

/// What came of the second client, while the first one was held: what it met where it wanted the variables too, and the
/// place of its request for a token, which doesn't want them.
#[derive(Clone, Copy, Drop)]
struct Met {
    busy: Option<Busy>,
    place: u64,
}

/// The second client opens and defines a semaphore, waits until the first is held, tries to read, and asks for the
/// token.
fn ask_meanwhile<R: Wait + Clock, G: Gate>(
    rt: &R,
    alloc: Global,
    device: &Device,
    mut pass: Pass<Cell>,
    held: &AtomicU64,
    gate: &G,
) -> Option<(Pass<Cell>, Met)>
    requires table { pass.table ≡ device.now.table }
    requires idle { HoldsNothing pass }
    requires client { 2 ≡ pass.by }
    ensures table { IfSome result (λ asked. asked.0.table ≡ device.now.table) }
    ensures by { IfSome result (λ asked. asked.0.by ≡ 2) }
    ensures idle { IfSome result (λ asked. HoldsNothing asked.0) }
{
    if commits_left(&pass) == 0 {
        return None;
    }
    let _opened = serve_octets(rt, alloc, device, &mut pass, 2, OPEN, &Open).ok()?;
    if commits_left(&pass) == 0 {
        return None;
    }
    let _defined = serve_octets(rt, alloc, device, &mut pass, 2, DEFINE, &Open).ok()?;
    if commits_left(&pass) == 0 || !is_raised(rt, held) {
        return None;
    }
    let busy = match try_octets(alloc, device, &mut pass, 2, READ, gate) {
        Err(Refused::Busy(busy)) => Some(busy),
        _ => None,
    };
    if commits_left(&pass) == 0 {
        return None;
    }
    let place = serve_octets(rt, alloc, device, &mut pass, 2, TAKE, gate).ok()?;
    Some((pass, Met { busy, place }))
}

/// Closes the device, once both clients are served: what the second met, and the places of its request and of the
/// first's read, and how many events were made.
fn met_at_last(
    alloc: Global,
    device: Device,
    cell: Pass<Cell>,
    first: Option<(Pass<Cell>, u64)>,
    second: Option<(Pass<Cell>, Met)>,
) -> Option<(Met, u64, u64)>
    requires callers { device.table.callers ≡ 3 }
    requires cell { (cell.table ≡ device.table) × (cell.by ≡ 0) × HoldsNothing cell }
    requires first_table { IfSome first (λ read. read.0.table ≡ device.table) }
    requires first_by { IfSome first (λ read. read.0.by ≡ 1) }
    requires first_idle { IfSome first (λ read. HoldsNothing read.0) }
    requires second_table { IfSome second (λ asked. asked.0.table ≡ device.table) }
    requires second_by { IfSome second (λ asked. asked.0.by ≡ 2) }
    requires second_idle { IfSome second (λ asked. HoldsNothing asked.0) }
{
    let (first, read) = first?;
    let (second, met) = second?;
    let events = finish(alloc, device, cell, first, second)?;
    Some((met, read, events))
}

/// Lets both clients be served on two threads, through a gate that holds the first until a word is raised: what the
/// second met, and the places of its request and of the first's read, and how many events were made.
fn serve_through<R: Threads + Wait + Clock + Sync, G: Gate + Sync>(
    rt: &R,
    alloc: Global,
    held: &AtomicU64,
    gate: &G,
) -> Option<(Met, u64, u64)> {
    let config = two_clients(alloc)?;
    let made = opened(alloc, &config)?;
    let device = made.device;
    let (first, second) = join(
        rt,
        || read_held(rt, alloc, &device, made.first, gate),
        || ask_meanwhile(rt, alloc, &device, made.second, held, gate),
    );
    met_at_last(alloc, device, made.cell, first, second)
}

/// Lets both clients be served, and the first be held until an event of the second is committed: what `serve_through`
/// tells, and how often the gate was told that the variables are held.
fn serve_both<R: Threads + Wait + Clock + Sync>(
    rt: &R,
    alloc: Global,
) -> Option<(Met, u64, u64, u64)> {
    let gate = Holding {
        rt,
        held: AtomicU64::new(0),
        committed: AtomicU64::new(0),
        busy: AtomicU64::new(0),
    };
    let (met, read, events) = serve_through(rt, alloc, &gate.held, &gate)?;
    Some((met, read, events, gate.busy.load(Ordering::SeqCst)))
}

#[test]
fn a_caller_is_served_while_another_holds_what_it_does_not_want(rt: HostRuntime) {
    let found = serve_both(&rt, rt.alloc());
    assert!(rt;
        match found {
            Some((met, read, events, busy)) => {
                met.busy == Some(Busy { part: 1, by: 1 })
                    && read == 5
                    && met.place == read - 1
                    && events == 5
                    && busy == 1
            }
            None => false,
        }
    );
}
