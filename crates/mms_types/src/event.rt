ghost use Rattle.std.specs.Prelude.{◌≡◌, ◌==◌, [], ◌∷◌, ◌++◌, List, OnOk, OnErr, MatchOption, length};
ghost use Rattle.mms_types.specs.declared.event.CellEvent.{CellEvent as EventOf};

use crate::{Identifier, Memory, Octets};
use std::alloc::Global;
use std::collections::VecDeque;
use std::marker::Model;

/// What is sent to a client.
#[derive(PartialEq, Eq)]
pub enum What {
    /// The octets of one PDU.
    Octets(Octets),
    /// The association is aborted.
    Abort,
}

/// What is sent, and to which client.
#[derive(Drop)]
pub struct Output {
    /// The number of the client.
    pub client: u32,
    pub what: What,
}

/// What happens to the device.
pub enum CellEvent {
    /// A client sent octets.
    Heard { client: u32, octets: Octets },
    /// The association of a client was lost.
    Lost { client: u32 },
    /// So many milliseconds went by.
    Tick { ms: u32 },
    /// The program invocation of that name came to its end by itself.
    Ends { name: Identifier },
    /// What is to be sent to a client is taken away.
    Drain { client: u32 },
}

/// Events in order, of which the first can be taken off. Contracts see the list of them.
#[derive(Drop)]
pub struct Events {
    list: VecDeque<CellEvent>,
}

impl Model for Events {
    ghost use Rattle.std.specs.Prelude.{List};
    ghost use Rattle.mms_types.specs.declared.event.CellEvent.{CellEvent};

    ghost Value = { List CellEvent };

    ghost view = { λ events. events.list.items };
}

impl Events {
    /// No events. Nothing is allocated.
    pub fn new(alloc: Global) -> Events
        ensures { result ≡ [] }
    {
        Events {
            list: VecDeque::new(alloc),
        }
    }

    /// Appends an event. Where there is no memory for it, it is dropped and the list is as before.
    pub fn push(&mut self, event: CellEvent) -> Result<(), Memory>
        ensures appended { OnOk result (self.new ≡ self.old ++ event ∷ []) }
        ensures kept { OnErr result (self.new ≡ self.old) }
    {
        self.list.push_back(event)?;
        Ok(())
    }

    /// The first event: None where there is none.
    pub fn first(&self) -> Option<&CellEvent>
        ensures { MatchOption result (self.now ≡ [])
            (λ event. (more : List EventOf) × (self.now ≡ event.now ∷ more)) }
    {
        self.list.front()
    }

    /// Takes the first event off: None where there is none.
    pub fn take_first(&mut self) -> Option<CellEvent>
        ensures { MatchOption result ((self.old ≡ []) × (self.new ≡ []))
            (λ event. self.old ≡ event ∷ self.new) }
    {
        self.list.pop_front()
    }

    /// How many there are.
    pub fn len(&self) -> usize
        ensures { result ≡ length self.now }
    {
        self.list.len()
    }

    /// Whether there is none.
    pub fn is_empty(&self) -> bool
        ensures { result ≡ (length self.now == 0) }
    {
        self.list.is_empty()
    }

    /// The vector that holds the events. Where none was taken off, none is moved.
    pub fn into_vec(self) -> Vec<CellEvent>
        ensures { result.items ≡ self }
    {
        self.list.into_vec()
    }
}

impl Drop for What {
    fn drop(self) {
        match self {
            What::Octets(_x) => {}
            What::Abort => {}
        }
    }
}

impl Drop for CellEvent {
    fn drop(self) {
        match self {
            CellEvent::Heard {
                client: _,
                octets: _octets,
            } => {}
            CellEvent::Lost { client: _ } => {}
            CellEvent::Tick { ms: _ } => {}
            CellEvent::Ends { name: _name } => {}
            CellEvent::Drain { client: _ } => {}
        }
    }
}
