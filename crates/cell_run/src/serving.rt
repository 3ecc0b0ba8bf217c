//! The device of one thread serves phases as they are recorded.

ghost use Rattle.std.specs.Prelude.{◌≡◌, ◌+◌, ◌-◌, ◌≤◌, ◌<◌, ◌^◌, ◌++◌, length, OnOk, OnErr, IfOk, IfErr};
ghost use Rattle.std.specs.List.{All};
ghost use Rattle.std.specs.Io.KnownBytes.{Appends};
ghost use Rattle.cell_io.specs.Faults.{Rose};
ghost use Rattle.cell_io.specs.Prefix.{AppendsPrefix};
ghost use Rattle.cell_services.specs.Tables.{last_moment};
ghost use Rattle.cell_record.specs.EventLine.{IsRecorded};
ghost use Rattle.cell_record.specs.Grammar.{phase_ms};
ghost use Rattle.cell_record.specs.History.{drains};
ghost use Rattle.cell_record.specs.Report.{placed_from};
ghost use Rattle.cell_run.specs.Along.{AreRecorded, along, clients_of, taken_along};

use crate::server::Server;
use cell_record::{ClientOutputs, Phase, PlacedEvents, Told};
use mms_device::Whole;
use mms_types::{CellEvent, Memory};
use std::alloc::Global;

/// Serves events, one after the other.
#[tactic(auto, using(crate::proofs::Alongside::one_more))]
fn serve_events(alloc: Global, device: &mut Whole, events: &[CellEvent]) -> Result<(), Memory>
    requires recorded { AreRecorded (length device.old.state.clients) events.now }
    requires time { device.old.state.now + phase_ms events.now ≤ last_moment }
    requires few { device.old.count + length events.now < 2 ^ 57 - 1 }
    ensures { OnOk result (device.new ≡ along device.old events.now) }
{
    for event in events {
        device.serve(alloc, event)?;
    }
    Ok(())
}

/// Lets each client take what is to be sent to it.
#[tactic(auto, using(crate::proofs::Alongside::one_drain))]
fn drain_clients(alloc: Global, device: &mut Whole) -> Result<ClientOutputs, Memory>
    requires few { device.old.count + 64 < 2 ^ 57 - 1 }
    ensures taken { IfOk result
        (λ outputs. outputs ≡ taken_along device.old (clients_of device.old)) }
    ensures drained { OnOk result (device.new ≡ along device.old (drains (clients_of device.old))) }
{
    let mut outputs = ClientOutputs::new(alloc);
    let clients = device.clients();
    for client in 0..clients {
        let drained = device.drain(client + 1);
        outputs.push(drained.outputs)?;
    }
    Ok(outputs)
}

/// Serves a phase: what there is to tell of it.
fn serve_whole(alloc: Global, device: &mut Whole, phase: Phase) -> Result<Told, Memory>
    requires recorded { AreRecorded (length device.old.state.clients) phase.events }
    requires time { device.old.state.now + phase_ms phase.events ≤ last_moment }
    requires few { device.old.count + length phase.events + 64 < 2 ^ 57 - 1 }
    ensures number { IfOk result (λ told. told.number ≡ phase.number) }
    ensures served { IfOk result
        (λ told. told.served ≡ placed_from (device.old.count + 1) phase.events) }
    ensures outputs { IfOk result (λ told. told.outputs
        ≡ taken_along (along device.old phase.events) (clients_of device.old)) }
    ensures device { OnOk result (device.new
        ≡ along device.old (phase.events ++ drains (clients_of device.old))) }
{
    let first = device.count() + 1;
    let events = phase.events.into_vec();
    serve_events(alloc, device, &events)?;
    let outputs = drain_clients(alloc, device)?;
    let served = PlacedEvents::consecutive(alloc, first, events)?;
    Ok(Told {
        number: phase.number,
        served,
        outputs,
    })
}

impl Server for Whole {
    ghost use Rattle.cell_words.specs.declared.words.Command.TheVariants.{Replay};
    ghost use Rattle.cell_run.specs.Serving.{HasReplayed, replay_serves};

    ghost command = { Replay };

    ghost has_served = { HasReplayed };

    ghost serves = { replay_serves };

    fn serve(&mut self, alloc: Global, phase: Phase) -> Result<Told, Memory> {
        serve_whole(alloc, self, phase)
    }
}
