//! The drains that end a phase.

ghost use Rattle.std.specs.Prelude.{◌≡◌, ◌≤◌, ◌<◌, ◌+◌, ℕ, Some, IfOk, length, slice_get};
ghost use Rattle.mms_types.specs.declared.event.CellEvent.TheVariants.{Drain};
ghost use Rattle.part_table.specs.History.{StartsWith};
ghost use Rattle.part_table.specs.Known.{HoldsNothing};
ghost use Rattle.step_parts.specs.Step.{said};
ghost use Rattle.mms_device.specs.Shared.{Caller, History, IsServed, all_events};
ghost use Rattle.cell_run.specs.Drained.{HasDrained, HaveDrained, IsIdle};

use cell_io::Gate;
use cell_record::ClientOutputs;
use mms_device::{Device, Drained};
use mms_step::Cell;
use mms_types::Memory;
use part_table::Pass;
use std::alloc::Global;
use std::sync::Wait;

/// The client of a pass takes what is to be sent to it. It is tried again while another caller holds the client's part.
fn drain_out<R: Wait, G: Gate>(rt: &R, device: &Device, pass: &mut Pass<Cell>, gate: &G) -> Drained
    requires table { pass.old.table ≡ device.now.table }
    requires idle { HoldsNothing pass.old }
    requires left { 0 < pass.old.left }
    requires client { 1 ≤ pass.old.by }
    ensures { (h : History)
        × IsServed (Drain pass.old.by) (record pass.old { lost = pass.new.lost })
        pass.new result.ticket h
        × (result.outputs.items ≡ said device.now.config (all_events h) pass.old.by) }
{
    for _ in rt.forever() {
        if let Ok(drained) = device.drain(pass, gate) {
            return drained;
        }
    }
    unreachable!()
}

/// A client takes what is to be sent to it. The cell's pass meets its own before and after.
fn drain_one<R: Wait, G: Gate>(
    rt: &R,
    device: &Device,
    cell: &mut Pass<Cell>,
    client: &mut Pass<Cell>,
    gate: &G,
) -> Drained
    requires cell { cell.old.table ≡ device.now.table }
    requires table { client.old.table ≡ device.now.table }
    requires idle { HoldsNothing client.old }
    requires left { 0 < client.old.left }
    requires client { 1 ≤ client.old.by }
    ensures { HasDrained (said device.now.config)
        cell.old cell.new client.old client.new result.outputs.items }
{
    device.meet(cell, client);
    let drained = drain_out(rt, device, client, gate);
    device.meet(cell, client);
    drained
}

/// Each client takes what is to be sent to it, from client 1 on. The cell's pass meets each client's before and after.
pub(crate) fn drain_each<R: Wait, G: Gate>(
    rt: &R,
    alloc: Global,
    device: &Device,
    cell: &mut Pass<Cell>,
    clients: &mut [Pass<Cell>],
    gate: &G,
) -> Result<ClientOutputs, Memory>
    requires cell { cell.old.table ≡ device.now.table }
    requires clients { (i : ℕ) (p : Caller) → slice_get clients.old i ≡ Some p
        → IsIdle device.now.table (i + 1) p }
    ensures drained { (common : History) → StartsWith cell.old.seen common → IfOk result
        (HaveDrained (said device.now.config) common
        cell.old cell.new clients.old clients.new (length clients.old)) }
{
    let mut outputs = ClientOutputs::new(alloc);
    for client in clients.iter_mut() {
        let drained = drain_one(rt, device, cell, client, gate);
        outputs.push(drained.outputs)?;
    }
    Ok(outputs)
}
