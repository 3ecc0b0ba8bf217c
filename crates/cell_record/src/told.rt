//! A phase as it was served.

ghost use Rattle.std.specs.Prelude.{◌≡◌, ◌+◌, ◌<◌, ◌^◌, [], ◌∷◌, ◌++◌, OnOk, OnErr, IfOk};
ghost use Rattle.std.specs.Prelude.{length, get_or, slice_get, Some};
ghost use Rattle.cell_record.specs.Report.{placed_from};
ghost use Rattle.cell_record.specs.Placed.{places_from};

use mms_types::{CellEvent, Memory, What};
use std::alloc::Global;
use std::marker::Model;

/// Events with their places in the history, in order of place. Contracts see the list of pairs of
/// place and event.
#[derive(Drop)]
pub struct PlacedEvents {
    places: Vec<u64>,
    events: Vec<CellEvent>,
}

impl Model for PlacedEvents {
    ghost use Rattle.std.specs.Prelude.{◌≡◌, ℕ, List, length};
    ghost use Rattle.std.specs.List.{zip};
    ghost use Rattle.mms_types.specs.declared.event.CellEvent.{CellEvent};

    ghost Value = { List (ℕ × CellEvent) };

    ghost view = { λ served. zip served.places.items served.events.items };

    ghost invariant = { λ served. length served.places.items ≡ length served.events.items };
}

impl PlacedEvents {
    /// No events. Nothing is allocated.
    pub fn new(alloc: Global) -> PlacedEvents
        ensures { result ≡ [] }
    {
        PlacedEvents {
            places: Vec::new(alloc),
            events: Vec::new(alloc),
        }
    }

    /// Appends an event with its place. Where there is no memory for it, it is dropped and the list
    /// is as before.
    #[tactic(auto, using(crate::proofs::Placing::zip_more))]
    pub fn push(&mut self, place: u64, event: CellEvent) -> Result<(), Memory>
        ensures appended { OnOk result (self.new ≡ self.old ++ (place, event) ∷ []) }
        ensures kept { OnErr result (self.new ≡ self.old) }
    {
        self.places.reserve(1)?;
        self.events.reserve(1)?;
        self.places.push_reserved(place);
        self.events.push_reserved(event);
        Ok(())
    }

    /// Events that were served one after the other, the first of them at that place. Without memory
    /// they are dropped.
    #[tactic(auto, using(crate::proofs::Placing::zip_places))]
    pub fn consecutive(
        alloc: Global,
        first: u64,
        events: Vec<CellEvent>,
    ) -> Result<PlacedEvents, Memory>
        requires { first + length events.items < 2 ^ 64 }
        ensures { IfOk result (λ served. served ≡ placed_from first events.items) }
    {
        let places = places_from(alloc, first, events.len())?;
        Ok(PlacedEvents { places, events })
    }

    /// How many there are.
    #[tactic(auto, using(crate::proofs::Placing::zip_length))]
    pub fn len(&self) -> usize
        ensures { result ≡ length self.now }
    {
        self.events.len()
    }

    /// The place and the event of that index, from 0.
    pub fn at(&self, index: usize) -> (u64, &CellEvent)
        requires { index < length self.now }
        ensures { slice_get self.now index ≡ Some (result.0, result.1.now) }
    {
        (self.places[index], &self.events[index])
    }
}

/// So many places, one after the other.
#[tactic(auto, using(crate::proofs::Placing::places_more))]
fn places_from(alloc: Global, first: u64, count: usize) -> Result<Vec<u64>, Memory>
    requires { first + count < 2 ^ 64 }
    ensures places { IfOk result (λ places. places.items ≡ places_from first count) }
    ensures count { IfOk result (λ places. length places.items ≡ count) }
{
    let mut places = Vec::with_capacity(alloc, count)?;
    for index in 0..count {
        places.push(first + index as u64)?;
    }
    Ok(places)
}

/// What each client was sent, from client 1 on. Contracts see the list of the clients' lists.
#[derive(Drop)]
pub struct ClientOutputs {
    list: Vec<Vec<What>>,
}

impl Model for ClientOutputs {
    ghost use Rattle.std.specs.Prelude.{List, map};
    ghost use Rattle.mms_types.specs.declared.event.What.{What};

    ghost Value = { List (List What) };

    ghost view = { λ outputs. map (λ sent. sent.items) outputs.list.items };
}

impl ClientOutputs {
    /// No clients. Nothing is allocated.
    pub fn new(alloc: Global) -> ClientOutputs
        ensures { result ≡ [] }
    {
        ClientOutputs {
            list: Vec::new(alloc),
        }
    }

    /// Appends what the next client was sent. Where there is no memory for it, it is dropped and
    /// the list is as before.
    pub fn push(&mut self, sent: Vec<What>) -> Result<(), Memory>
        ensures appended { OnOk result (self.new ≡ self.old ++ sent.items ∷ []) }
        ensures kept { OnErr result (self.new ≡ self.old) }
    {
        self.list.push(sent)?;
        Ok(())
    }

    /// How many clients there are.
    pub fn len(&self) -> usize
        ensures { result ≡ length self.now }
    {
        self.list.len()
    }

    /// What the client was sent that stands at that place, from 0.
    pub fn at(&self, place: usize) -> &[What]
        requires { place < length self.now }
        ensures { result.now ≡ get_or self.now place [] }
    {
        &self.list[place]
    }
}

/// A phase as it was served.
#[derive(Drop)]
pub struct Told {
    /// The phase's number, from 1.
    pub number: u32,
    /// The events as they were served, with their places.
    pub served: PlacedEvents,
    /// What each client was sent.
    pub outputs: ClientOutputs,
}
