//! Serving an event on the parts that it wants.

ghost use Rattle.std.specs.Prelude.{◌≡◌, ◌≢◌, ◌<◌, ◌≤◌, ◌++◌, ◌∷◌, [], ℕ, true, false, List, Contains, IfOk, IfErr, OnOk, OnErr};
ghost use Rattle.mms_types.specs.declared.event.CellEvent.{CellEvent};
ghost use Rattle.mms_types.specs.declared.event.CellEvent.TheVariants.{Drain};
ghost use Rattle.part_table.specs.History.{StartsWith};
ghost use Rattle.part_table.specs.Known.{HoldsNothing};
ghost use Rattle.step_parts.specs.Needs.{footprint, shown};
ghost use Rattle.cell_client.specs.Reads.{IsReadingOf};
ghost use Rattle.step_parts.specs.Step.{said};
ghost use Rattle.step_parts.specs.Found.{IsFoundOf};
ghost use Rattle.mms_device.specs.Making.{MayMake};
ghost use Rattle.mms_device.specs.Refusals.{IsRefused};
ghost use Rattle.mms_device.specs.Shared.{HasTried, IsBusy, IsServed, IsTimely, MayMakeNow, all_events};
ghost use Rattle.mms_device.specs.Taken.{AreHeld, CanTake, HasLost, HasSeen, HasTaken, HoldsAll, IsNeeded, IsStopped, IsTaking, free_count};

use crate::answers::{Busy, Refused, Served};
use crate::giving::give_all;
use crate::stepping::{drain, on_hand};
use crate::taking::take_each;
use crate::{Device, Drained};
use cell_client::{Found, Reading, read_event};
use cell_io::{Gate, Point};
use mms_types::{CellEvent, Memory};
use part_table::{Pass, a_pass_knows_its_own_places};
use parted_state::Parts;
use std::alloc::Global;
use std::sync::Wait;
use step_needs::{footprint, need_by, verdict};
use step_parts::Cell;

impl Device {
    /// Sees the history, and finds what is then shown to be needed.
    fn find_needed(
        &self,
        alloc: Global,
        pass: &mut Pass<Cell>,
        event: &CellEvent,
        found: &Option<Found<'_>>,
    ) -> Result<Parts, Memory>
        requires can { CanTake self.now event.now found.now pass.old }
        ensures seen { HasSeen pass.old pass.new }
        ensures can { CanTake self.now event.now found.now pass.new }
        ensures needed { IfOk result (λ parts. IsNeeded self.now event.now pass.new parts) }
    {
        a_pass_knows_its_own_places(pass);
        self.table.see(pass);
        a_pass_knows_its_own_places(pass);
        need_by(alloc, event, found, pass.hand())
    }

    /// Takes what is needed.
    fn take_needed<G: Gate>(
        &self,
        pass: &mut Pass<Cell>,
        event: &CellEvent,
        needed: &Parts,
        gate: &G,
    ) -> Result<(), Busy>
        requires may { MayMakeNow self.now event.now pass.old }
        requires hand { pass.old.hand ≡ pass.old.taken }
        requires needed { IsNeeded self.now event.now pass.old needed.now }
        ensures taken { HasTaken needed.now pass.old pass.new }
        ensures shown { (i : ℕ) → Contains needed.now i
            → Contains (shown event.now pass.old.taken) i }
        ensures fewer { OnOk result (needed.now ≢ []
            → free_count pass.new.taken < free_count pass.old.taken) }
        ensures kept { OnOk result (pass.new.lost ≡ pass.old.lost) }
        ensures lost { IfErr result (λ busy. Contains needed.now busy.part
            × (busy.by ≢ pass.old.by)
            × (pass.new.lost ≡ pass.old.lost ++ (busy.part, busy.by) ∷ [])) }
    {
        a_pass_knows_its_own_places(pass);
        take_each(&self.table, pass, needed, gate)
    }

    /// Sees the history, and takes what is then shown to be needed. Whether nothing was.
    fn take_more<G: Gate>(
        &self,
        alloc: Global,
        pass: &mut Pass<Cell>,
        event: &CellEvent,
        found: &Option<Found<'_>>,
        gate: &G,
    ) -> Result<bool, Refused>
        requires can { CanTake self.now event.now found.now pass.old }
        ensures taking { IsTaking event.now pass.old pass.new }
        ensures can { CanTake self.now event.now found.now pass.new }
        ensures all { IfOk result (λ all. all ≡ true → HoldsAll self.now event.now pass.new) }
        ensures more { IfOk result (λ all. all ≡ false
            → free_count pass.new.taken < free_count pass.old.taken) }
        ensures lost { OnOk result (pass.new.lost ≡ pass.old.lost) }
        ensures stopped { IfErr result (IsStopped event.now pass.old pass.new) }
    {
        let Ok(needed) = self.find_needed(alloc, pass, event, found) else {
            return Err(Refused::Memory);
        };
        if needed.is_empty() {
            return Ok(true);
        }
        match self.take_needed(pass, event, &needed, gate) {
            Ok(()) => Ok(false),
            Err(busy) => Err(Refused::Busy(busy)),
        }
    }

    /// Takes the parts that the event's words tell, by a pass that holds nothing.
    fn take_told<G: Gate>(
        &self,
        pass: &mut Pass<Cell>,
        event: &CellEvent,
        gate: &G,
    ) -> Result<(), Busy>
        requires may { MayMakeNow self.now event.now pass.old }
        requires idle { HoldsNothing pass.old }
        ensures taking { IsTaking event.now pass.old pass.new }
        ensures may { MayMakeNow self.now event.now pass.new }
        ensures told { IfOk result (λ _.
            AreHeld pass.new.taken (footprint self.now.config.clients event.now)
            × (pass.new.lost ≡ pass.old.lost)) }
        ensures stopped { IfErr result
            (λ busy. HasLost event.now pass.old pass.new busy.part busy.by) }
    {
        a_pass_knows_its_own_places(pass);
        let parts = footprint(event, self.clients);
        take_each(&self.table, pass, &parts, gate)
    }

    /// Takes what is then shown to be needed until nothing is.
    fn take_rest<G: Gate>(
        &self,
        alloc: Global,
        pass: &mut Pass<Cell>,
        event: &CellEvent,
        found: &Option<Found<'_>>,
        gate: &G,
    ) -> Result<(), Refused>
        requires can { CanTake self.now event.now found.now pass.old }
        ensures taking { IsTaking event.now pass.old pass.new }
        ensures can { CanTake self.now event.now found.now pass.new }
        ensures all { IfOk result (λ _. HoldsAll self.now event.now pass.new
            × (pass.new.lost ≡ pass.old.lost)) }
        ensures stopped { IfErr result (IsStopped event.now pass.old pass.new) }
    {
        while !self.take_more(alloc, pass, event, found, gate)? {}
        Ok(())
    }

    /// Takes all parts that the event wants, by a pass that holds nothing, and answers what its octets come to. That is
    /// found once, as soon as the part of its client is held.
    fn take_wanted<'a, G: Gate>(
        &self,
        alloc: Global,
        pass: &mut Pass<Cell>,
        event: &CellEvent,
        reading: &'a Reading,
        gate: &G,
    ) -> Result<Option<Found<'a>>, Refused>
        requires may { MayMakeNow self.now event.now pass.old }
        requires idle { HoldsNothing pass.old }
        requires reading { IsReadingOf reading.now event.now }
        ensures taking { IsTaking event.now pass.old pass.new }
        ensures found { IfOk result (λ found. IsFoundOf found event.now pass.new.taken) }
        ensures all { IfOk result (λ _. HoldsAll self.now event.now pass.new
            × (pass.new.lost ≡ pass.old.lost)) }
        ensures stopped { IfErr result (IsStopped event.now pass.old pass.new) }
    {
        let _clients = self.clients;
        a_pass_knows_its_own_places(pass);
        if let Err(busy) = self.take_told(pass, event, gate) {
            return Err(Refused::Busy(busy));
        }
        let Ok(found) = verdict(event, reading, pass.hand()) else {
            return Err(Refused::Memory);
        };
        self.take_rest(alloc, pass, event, &found, gate)?;
        Ok(found)
    }

    /// Serves an event of whose octets that was read.
    fn try_read<G: Gate>(
        &self,
        alloc: Global,
        pass: &mut Pass<Cell>,
        event: &CellEvent,
        reading: &Reading,
        gate: &G,
    ) -> Result<Served, Refused>
        requires may { MayMakeNow self.now event.now pass.old }
        requires idle { HoldsNothing pass.old }
        requires left { 0 < pass.old.left }
        requires reading { IsReadingOf reading.now event.now }
        ensures served { IfOk result (λ served. (h : List (ℕ × CellEvent))
            × IsServed event.now pass.old pass.new served.ticket h) }
        ensures refused { IfErr result (IsRefused self.now.config event.now pass.old pass.new) }
    {
        a_pass_knows_its_own_places(pass);
        let found = match self.take_wanted(alloc, pass, event, reading, gate) {
            Ok(found) => found,
            Err(refused) => {
                self.table.see(pass);
                a_pass_knows_its_own_places(pass);
                give_all(&self.table, pass);
                tell(gate, pass.by(), refused);
                return Err(refused);
            }
        };
        a_pass_knows_its_own_places(pass);
        let Ok(()) = on_hand(alloc, pass, event, &found) else {
            give_all(&self.table, pass);
            return Err(Refused::Memory);
        };
        let ticket = self.table.commit(pass, event);
        gate.pass(pass.by(), Point::Committed);
        give_all(&self.table, pass);
        Ok(Served { ticket })
    }

    /// Serves an event by its actor's pass, which holds nothing: takes the parts that the event's words tell and then
    /// those that the held ones show to be needed, does its step, commits it once, and gives all back. The answer is
    /// its place in the history. The gate is passed after each part that was taken, after the commit, and before `Busy`
    /// is answered.
    ///
    /// `Busy` is answered where another caller held a part that the event wants; the claim is noted among those that
    /// the pass lost. After it and after `Memory` the pass holds nothing, and the event isn't in the history.
    pub fn try_serve<G: Gate>(
        &self,
        alloc: Global,
        pass: &mut Pass<Cell>,
        event: &CellEvent,
        gate: &G,
    ) -> Result<Served, Refused>
        requires table { pass.old.table ≡ self.now.table }
        requires idle { HoldsNothing pass.old }
        requires left { 0 < pass.old.left }
        requires actor { MayMake pass.old.by event.now }
        requires time { IsTimely self.now.config pass.old event.now }
        ensures served { IfOk result (λ served. (h : List (ℕ × CellEvent))
            × IsServed event.now pass.old pass.new served.ticket h) }
        ensures refused { IfErr result (IsRefused self.now.config event.now pass.old pass.new) }
    {
        match read_event(alloc, event, self.edition) {
            Ok(reading) => self.try_read(alloc, pass, event, &reading, gate),
            Err(Memory) => Err(Refused::Memory),
        }
    }

    /// Serves an event of whose octets that was read, and tries again while it is busy.
    fn serve_read<R: Wait, G: Gate>(
        &self,
        rt: &R,
        alloc: Global,
        pass: &mut Pass<Cell>,
        event: &CellEvent,
        reading: &Reading,
        gate: &G,
    ) -> Result<Served, Memory>
        requires may { MayMakeNow self.now event.now pass.old }
        requires idle { HoldsNothing pass.old }
        requires left { 0 < pass.old.left }
        requires reading { IsReadingOf reading.now event.now }
        ensures served { IfOk result (λ served. (h : List (ℕ × CellEvent)) × IsServed event.now
            (record pass.old { lost = pass.new.lost }) pass.new served.ticket h) }
        ensures lost { StartsWith pass.new.lost pass.old.lost }
        ensures memory { OnErr result (HasTried pass.old pass.new) }
    {
        for _ in rt.forever() {
            match self.try_read(alloc, pass, event, reading, gate) {
                Ok(served) => return Ok(served),
                Err(Refused::Memory) => return Err(Memory::wanting()),
                Err(Refused::Busy(_)) => {}
            }
        }
        unreachable!()
    }

    /// Serves an event as `try_serve`, and tries again while it is busy. So it may wait, and never return. The claims
    /// that were lost meanwhile are noted. The error is want of memory.
    pub fn serve<R: Wait, G: Gate>(
        &self,
        rt: &R,
        alloc: Global,
        pass: &mut Pass<Cell>,
        event: &CellEvent,
        gate: &G,
    ) -> Result<Served, Memory>
        requires table { pass.old.table ≡ self.now.table }
        requires idle { HoldsNothing pass.old }
        requires left { 0 < pass.old.left }
        requires actor { MayMake pass.old.by event.now }
        requires time { IsTimely self.now.config pass.old event.now }
        ensures served { IfOk result (λ served. (h : List (ℕ × CellEvent)) × IsServed event.now
            (record pass.old { lost = pass.new.lost }) pass.new served.ticket h) }
        ensures lost { StartsWith pass.new.lost pass.old.lost }
        ensures memory { OnErr result (HasTried pass.old pass.new) }
    {
        match read_event(alloc, event, self.edition) {
            Ok(reading) => self.serve_read(rt, alloc, pass, event, &reading, gate),
            Err(memory) => Err(memory),
        }
    }

    /// Serves the event that the pass's client takes what is to be sent to it, which is what the client has to be sent
    /// after the events before this one. It takes no memory.
    ///
    /// `Busy` is answered where another caller held the client's part, as `try_serve` does.
    pub fn drain<G: Gate>(&self, pass: &mut Pass<Cell>, gate: &G) -> Result<Drained, Busy>
        requires table { pass.old.table ≡ self.now.table }
        requires idle { HoldsNothing pass.old }
        requires left { 0 < pass.old.left }
        requires client { 1 ≤ pass.old.by }
        ensures served { IfOk result (λ drained. (h : List (ℕ × CellEvent))
            × IsServed (Drain pass.old.by) pass.old pass.new drained.ticket h
            × (drained.outputs.items ≡ said self.now.config (all_events h) pass.old.by)) }
        ensures busy { IfErr result (λ busy.
            IsBusy self.now.config (Drain pass.old.by) pass.old pass.new busy.part busy.by) }
    {
        a_pass_knows_its_own_places(pass);
        let client = pass.by();
        let event = CellEvent::Drain { client };
        if let Err(busy) = self.take_told(pass, &event, gate) {
            self.table.see(pass);
            a_pass_knows_its_own_places(pass);
            give_all(&self.table, pass);
            gate.pass(client, Point::Busy(busy.part));
            return Err(busy);
        }
        self.table.see(pass);
        a_pass_knows_its_own_places(pass);
        let outputs = drain(client, pass);
        let ticket = self.table.commit(pass, &event);
        gate.pass(client, Point::Committed);
        give_all(&self.table, pass);
        Ok(Drained { ticket, outputs })
    }
}

/// Passes the gate before a `Busy` answer.
fn tell<G: Gate>(gate: &G, caller: u32, refused: Refused) {
    if let Refused::Busy(busy) = refused {
        gate.pass(caller, Point::Busy(busy.part));
    }
}
