//! The device of one thread.

ghost use Rattle.std.specs.Prelude.{◌≡◌, ◌+◌, ◌-◌, ◌<◌, ◌≤◌, ◌^◌, length, map, Some, IfOk, OnOk, OnErr};
ghost use Rattle.mms_types.specs.Moments.{IsDated};
ghost use Rattle.mms_types.specs.declared.event.CellEvent.TheVariants.{Drain};
ghost use Rattle.cell_config.specs.Said.{IsConfig};
ghost use Rattle.step_parts.specs.State.{start, IsSound};
ghost use Rattle.step_parts.specs.Step.{MayCome, outbox_of};
ghost use Rattle.step_parts.specs.Partition.{parts_of, state_in};
ghost use Rattle.mms_device.specs.Served.{served};

use cell_config::Config;
use mms_types::{CellEvent, Memory, Moment, What};
use part_table::Hand;
use std::alloc::{AllocError, Global};
use std::marker::Model;
use step_apply::{apply, drain, start_parts};
use step_parts::{Cell, Part, clients_of};

/// What a client took, and the place of that event in the history.
#[derive(Drop)]
pub struct Drained {
    /// The place, from 1.
    pub ticket: u64,
    /// What was to be sent, in order.
    pub outputs: Vec<What>,
}

/// The device, with all of its parts. Contracts see its state, and how many events it served.
#[derive(Drop)]
pub struct Whole {
    hand: Hand<Cell>,
    count: u64,
}

impl Model for Whole {
    ghost use Rattle.std.specs.Prelude.{◌≡◌, map, Some};
    ghost use Rattle.step_parts.specs.State.{IsSound};
    ghost use Rattle.step_parts.specs.Partition.{parts_of, state_in};
    ghost use Rattle.mms_device.specs.Served.{Served};

    ghost Value = { Served };

    ghost use Rattle.std.specs.Coded.{codes};
    ghost use Rattle.variable_services.specs.contracts.tables.VariableTables as kept;
    ghost use Rattle.mms_types.specs.DatumCode.{datum_code};

    ghost coded = { Prim.hlevel (codes, kept.the_row.coded, datum_code) };

    ghost view = { λ device. record { state = state_in device.hand; count = device.count } };

    ghost invariant = { λ device. (device.hand ≡ map Some (parts_of (state_in device.hand))) × IsSound device.count (state_in device.hand) };
}

/// Each part in a place of its own.
fn in_places(alloc: Global, parts: Vec<Box<Part>>) -> Result<Vec<Option<Box<Part>>>, AllocError>
    ensures { IfOk result (λ places. places.items ≡ map Some parts.items) }
{
    parts.into_iter().map(Some).collect(alloc)
}

/// The parts at the start, all held.
#[tactic(auto, using(crate::proofs::AllHeld::unboxed_all))]
fn all_held(alloc: Global, config: &Config) -> Result<Hand<Cell>, Memory>
    requires config { IsConfig config.now }
    ensures { IfOk result (λ hand. hand ≡ map Some (parts_of (start config.now))) }
{
    let parts = start_parts(alloc, config)?;
    let places = in_places(alloc, parts)?;
    Ok(Hand::of(places))
}

impl Whole {
    /// The device at the start, as it is configured: it is the configured moment, there are as many clients as are
    /// configured, no association is open, nothing waits and nothing is to be sent.
    pub fn new(alloc: Global, config: &Config) -> Result<Whole, Memory>
        requires config { IsConfig config.now }
        ensures { IfOk result (λ device. device ≡ record { state = start config.now; count = 0 }) }
    {
        Ok(Whole {
            hand: all_held(alloc, config)?,
            count: 0,
        })
    }

    /// How many clients there are.
    pub fn clients(&self) -> u32
        ensures clients { result ≡ length self.now.state.clients }
        ensures some { 1 ≤ length self.now.state.clients }
        ensures few { length self.now.state.clients ≤ 64 }
    {
        clients_of(&self.hand)
    }

    /// The moment.
    pub fn moment(&self) -> Moment
        ensures moment { result.0 ≡ self.now.state.now }
        ensures dated { IsDated result }
    {
        match self.hand.get(0) {
            Some(Part::Clock(clock)) => clock.now(),
            _ => unreachable!(),
        }
    }

    /// How many events were served.
    pub fn count(&self) -> u64
        ensures { result ≡ self.now.count }
    {
        self.count
    }

    /// Serves an event: its answer is the event's place in the history, from 1. Without memory the device is as before.
    pub fn serve(&mut self, alloc: Global, event: &CellEvent) -> Result<u64, Memory>
        requires may { MayCome self.old.state event.now }
        requires few { self.old.count < 2 ^ 57 - 1 }
        ensures place { IfOk result (λ place. place ≡ self.old.count + 1) }
        ensures step { OnOk result (self.new ≡ served self.old event.now) }
        ensures kept { OnErr result (self.new ≡ self.old) }
    {
        apply(alloc, event, &mut self.hand)?;
        self.count += 1;
        Ok(self.count)
    }

    /// Serves the event that a client takes what is to be sent to it. It takes no memory.
    pub fn drain(&mut self, client: u32) -> Drained
        requires some { 1 ≤ client }
        requires there { client ≤ length self.old.state.clients }
        requires few { self.old.count < 2 ^ 57 - 1 }
        ensures place { result.ticket ≡ self.old.count + 1 }
        ensures outputs { result.outputs.items ≡ outbox_of self.old.state client }
        ensures step { self.new ≡ served self.old (Drain client) }
    {
        let outputs = drain(client, &mut self.hand);
        self.count += 1;
        Drained {
            ticket: self.count,
            outputs,
        }
    }
}
