//! Callers of a device: each call serves octets of a client by its pass.

ghost use Rattle.std.specs.Prelude.{◌≡◌, ◌+◌, ◌<◌, ◌≤◌, ◌∷◌, [], ◌++◌, length, IfOk, IfErr, IfSome, OnOk};
ghost use Rattle.cell_config.specs.Said.{IsConfig};
ghost use Rattle.part_table.specs.Known.{HoldsNothing};
ghost use Rattle.mms_device.specs.Callers.{AreInOrder};

use cell_config::Config;
use cell_io::Gate;
use mms_device::{Device, Refused};
use mms_step::Cell;
use mms_types::{CellEvent, Memory, Octets};
use part_table::Pass;
use std::alloc::Global;
use std::sync::Wait;

/// A device, and the passes of the cell and of its two clients.
#[derive(Drop)]
pub(crate) struct OpenDevice {
    pub(crate) device: Device,
    pub(crate) cell: Pass<Cell>,
    pub(crate) first: Pass<Cell>,
    pub(crate) second: Pass<Cell>,
}

/// The three passes that these are, in their order, and None where there aren't so many.
fn taken_apart(mut passes: Vec<Pass<Cell>>) -> Option<(Pass<Cell>, Pass<Cell>, Pass<Cell>)>
    requires { length passes.items ≡ 3 }
    ensures { IfSome result (λ apart. passes.items ≡ apart.0 ∷ apart.1 ∷ apart.2 ∷ []) }
{
    let second = passes.pop()?;
    let first = passes.pop()?;
    let cell = passes.pop()?;
    Some((cell, first, second))
}

/// The device of two clients.
pub(crate) fn opened(alloc: Global, config: &Config) -> Option<OpenDevice>
    requires config { IsConfig config.now × (config.now.clients ≡ 2) }
    ensures callers { IfSome result (λ made. made.device.table.callers ≡ 3) }
    ensures passes { IfSome result (λ made. AreInOrder made.device.table 0
        (made.cell ∷ made.first ∷ made.second ∷ [])) }
    ensures left { IfSome result (λ made. (0 < made.first.left) × (0 < made.second.left)) }
{
    let Ok((device, passes)) = Device::new(alloc, config) else {
        return None;
    };
    let (cell, first, second) = taken_apart(passes)?;
    Some(OpenDevice {
        device,
        cell,
        first,
        second,
    })
}

/// How many events the caller may still commit.
pub(crate) fn commits_left(pass: &Pass<Cell>) -> u64
    ensures { result ≡ pass.now.left }
{
    pass.left()
}

/// Serves octets of a client: the place of the event.
pub(crate) fn serve_octets<R: Wait, G: Gate>(
    rt: &R,
    alloc: Global,
    device: &Device,
    pass: &mut Pass<Cell>,
    client: u32,
    octets: &[u8],
    gate: &G,
) -> Result<u64, Memory>
    requires table { pass.old.table ≡ device.now.table }
    requires idle { HoldsNothing pass.old }
    requires left { 0 < pass.old.left }
    requires client { (client ≡ pass.old.by) × (1 ≤ client) }
    ensures table { OnOk result (pass.new.table ≡ pass.old.table) }
    ensures by { OnOk result (pass.new.by ≡ pass.old.by) }
    ensures idle { OnOk result (HoldsNothing pass.new) }
{
    let event = CellEvent::Heard {
        client,
        octets: Octets::from_slice(alloc, octets)?,
    };
    Ok(device.serve(rt, alloc, pass, &event, gate)?.ticket)
}

/// Tries once to serve octets of a client: the place of the event.
pub(crate) fn try_octets<G: Gate>(
    alloc: Global,
    device: &Device,
    pass: &mut Pass<Cell>,
    client: u32,
    octets: &[u8],
    gate: &G,
) -> Result<u64, Refused>
    requires table { pass.old.table ≡ device.now.table }
    requires idle { HoldsNothing pass.old }
    requires left { 0 < pass.old.left }
    requires client { (client ≡ pass.old.by) × (1 ≤ client) }
    ensures table { pass.new.table ≡ pass.old.table }
    ensures by { pass.new.by ≡ pass.old.by }
    ensures idle { HoldsNothing pass.new }
{
    let Ok(octets) = Octets::from_slice(alloc, octets) else {
        return Err(Refused::Memory);
    };
    let event = CellEvent::Heard { client, octets };
    Ok(device.try_serve(alloc, pass, &event, gate)?.ticket)
}

/// Gathers the passes and closes the device: how many events were made.
fn closed(alloc: Global, device: Device, mut passes: Vec<Pass<Cell>>) -> Option<u64>
    requires count { length passes.items ≡ device.table.callers }
    requires order { AreInOrder device.table 0 passes.items }
{
    let places = device.gather(passes.as_mut_slice());
    let _parts = device.close(alloc, passes).ok()?;
    Some(places)
}

/// Gathers the passes of the cell and of both clients, and closes the device: how many events were made.
pub(crate) fn finish(
    alloc: Global,
    device: Device,
    cell: Pass<Cell>,
    first: Pass<Cell>,
    second: Pass<Cell>,
) -> Option<u64>
    requires callers { device.table.callers ≡ 3 }
    requires cell { (cell.table ≡ device.table) × (cell.by ≡ 0) × HoldsNothing cell }
    requires first { (first.table ≡ device.table) × (first.by ≡ 1) × HoldsNothing first }
    requires second { (second.table ≡ device.table) × (second.by ≡ 2) × HoldsNothing second }
{
    let Ok(passes) = vec![in alloc; cell, first, second] else {
        return None;
    };
    closed(alloc, device, passes)
}
