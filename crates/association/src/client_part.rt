ghost use Rattle.std.specs.Prelude.{◌≡◌, ◌≢◌, ◌↔◌, ◌<◌, ◌≤◌, ◌+◌, ◌-◌, ◌==◌, not, false, true, [], OnOk, OnErr, OnSome, IfNone, option_map, IfOk, IfSome, IsOk, IsSome, length, slice_get, vec_len, vec_capacity};
ghost use Rattle.std.specs.Option.{option_copied};
ghost use Rattle.association.specs.Admission.{admission, row_with_admitted};
ghost use Rattle.association.specs.Asked.{asked_of, is_asked, is_open, AskedAreNumbered};
ghost use Rattle.association.specs.Client.{closed_row, drained_row, negotiated_of, new_row, next_ask, opened_row, row_settled, row_with_asked, row_with_output, row_with_room, row_with_waiting, row_without_waiting};
ghost use Rattle.association.specs.Negotiation.{negotiation, values_of};
ghost use Rattle.association.specs.Waiting.{is_waiting, AreDistinct};

use crate::negotiation::{outcome_of, values};
use crate::unanswered::{find_asked, remove_asked};
use crate::waiting::{has_waiting, remove_waiting};
use crate::{Association, Constants, Negotiated, Unanswered, Waiting};
use mms_types::{Asked, Identifier, Initiate, InitiateAnswer, Key, Memory, ServiceError, What};
use std::alloc::Global;
use std::marker::Model;
use std::mem;

/// Why a request is not taken (ISO 9506-2, RejectPDU, confirmed-requestPDU).
#[derive(Clone, Copy)]
pub enum NotAdmitted {
    /// A request of that invokeID waits: invalid-invokeID.
    Waiting,
    /// As many requests wait as were negotiated: max-serv-outstanding-exceeded.
    Outstanding,
}

/// For how many outputs there is room at first, so that an outbox does not grow for each of the first few.
const FIRST_ROOM: usize = 16;

/// Makes room for so many outputs behind those of an outbox. It takes no memory where there is room.
fn make_room(outbox: &mut Vec<What>, outputs: usize) -> Result<(), Memory>
    ensures items { outbox.new.items ≡ outbox.old.items }
    ensures len { vec_len outbox.new ≡ vec_len outbox.old }
    ensures capacity { vec_capacity outbox.old ≤ vec_capacity outbox.new }
    ensures room { OnOk result (vec_len outbox.new + outputs ≤ vec_capacity outbox.new) }
    ensures enough { vec_len outbox.old + outputs ≤ vec_capacity outbox.old → IsOk result }
{
    if outputs > outbox.capacity() - outbox.len() {
        outbox.reserve(outputs.max(FIRST_ROOM))?;
    }
    Ok(())
}

/// The part of the device that belongs to one client. Contracts see its row, which is the client's
/// number, the association, the requests that wait at the server in the order in which they came,
/// the server's requests that the client has not answered, in the order in which they were made,
/// and the number of the next one, what is to be sent to the client in order, and the constants;
/// and beside it the numbers of outputs, of waiting requests and of the server's requests for which
/// there is room, as `reserve` and `reserve_asked` made it. All but these two take no memory.
pub struct ClientPart {
    client: u32,
    association: Association,
    waiting: Vec<Waiting>,
    asked: Vec<Unanswered>,
    given: u32,
    outbox: Vec<What>,
    constants: Constants,
    output_room: usize,
    waiting_room: usize,
    asked_room: usize,
}

impl Model for ClientPart {
    ghost use Rattle.std.specs.Prelude.{◌+◌, ◌≤◌, vec_len, vec_capacity};
    ghost use Rattle.association.specs.Asked.{AskedAreNumbered};
    ghost use Rattle.association.specs.Client.{Client};
    ghost use Rattle.association.specs.Waiting.{AreDistinct};

    ghost Value = { Client };

    ghost view = { λ part. record {
      row = record {
        client = part.client;
        association = part.association;
        waiting = part.waiting.items;
        asked = part.asked.items;
        next_invoke = part.given + 1;
        outbox = part.outbox.items;
        constants = part.constants;
      };
      output_room = part.output_room;
      waiting_room = part.waiting_room;
      asked_room = part.asked_room;
    } };

    ghost invariant = { λ part.
        (vec_len part.outbox + part.output_room ≤ vec_capacity part.outbox)
        × (vec_len part.waiting + part.waiting_room ≤ vec_capacity part.waiting)
        × (vec_len part.asked + part.asked_room ≤ vec_capacity part.asked)
        × AreDistinct part.waiting.items
        × AskedAreNumbered part.association part.asked.items (part.given + 1) };
}

impl ClientPart {
    /// The part of a client of that number, with which there is no association. Nothing waits,
    /// nothing is asked, and there is no room for anything.
    pub fn new(alloc: Global, client: u32, device: Constants) -> ClientPart
        ensures { result ≡ row_with_room (new_row client device) 0 0 0 }
    {
        ClientPart {
            client,
            association: Association::Idle,
            waiting: Vec::new(alloc),
            asked: Vec::new(alloc),
            given: 0,
            outbox: Vec::new(alloc),
            constants: device,
            output_room: 0,
            waiting_room: 0,
            asked_room: 0,
        }
    }

    /// The number of the client.
    pub fn client(&self) -> u32
        ensures { result ≡ self.now.row.client }
    {
        self.client
    }

    /// What never changes of the part.
    pub fn constants(&self) -> &Constants
        ensures { result.now ≡ self.now.row.constants }
    {
        &self.constants
    }

    /// The values that the association was negotiated to, and None exactly where there is none.
    pub fn negotiated(&self) -> Option<&Negotiated>
        ensures { option_copied result ≡ negotiated_of self.now.row.association }
    {
        match &self.association {
            Association::Idle => None,
            Association::Open(values) => Some(values),
        }
    }

    /// Negotiates a proposal (ISO 9506-1, Initiate). It is refused by the first of these that
    /// holds: a version below 1, a PDU size below 512, calling below 1, called below 1, a nesting
    /// below 1; then all stays as it was. Otherwise the association is open with the values of the
    /// answer.
    pub fn negotiate(&mut self, proposal: &Initiate) -> Result<InitiateAnswer, ServiceError>
        ensures told { result ≡ negotiation proposal.now }
        ensures opened { IfOk result (λ answer.
            self.new ≡ record self.old { row = opened_row self.old.row (values_of answer) }) }
        ensures refused { OnErr result (self.new ≡ self.old) }
    {
        let answer = outcome_of(proposal)?;
        self.association = Association::Open(values(&answer));
        Ok(answer)
    }

    /// Whether a confirmed request of that invokeID is taken (ISO 9506-1, the rejection of
    /// requests). It is refused as Waiting exactly where a request of that invokeID waits, and
    /// otherwise as Outstanding exactly where as many requests wait as called allows; without an
    /// association it allows none.
    pub fn admit(&self, invoke: u32) -> Result<(), NotAdmitted>
        ensures told { result ≡ admission invoke self.now.row }
        ensures distinct { AreDistinct self.now.row.waiting }
    {
        if has_waiting(&self.waiting, invoke) {
            return Err(NotAdmitted::Waiting);
        }
        let allowed = match &self.association {
            Association::Idle => 0,
            Association::Open(values) => values.called,
        };
        if self.waiting.len() >= allowed as usize {
            return Err(NotAdmitted::Outstanding);
        }
        Ok(())
    }

    /// Makes room for so many outputs and so many waiting requests; all other room that there was
    /// is given up, that for requests of the server too. Without memory for it all stays as it was.
    /// It takes no memory where there is room for as many.
    pub fn reserve(&mut self, outputs: usize, waiting: usize) -> Result<(), Memory>
        ensures made { OnOk result (self.new ≡ record self.old {
          output_room = outputs;
          waiting_room = waiting;
          asked_room = 0;
        }) }
        ensures kept { OnErr result (self.new ≡ self.old) }
        ensures enough { outputs ≤ self.old.output_room → waiting ≤ self.old.waiting_room
            → IsOk result }
    {
        make_room(&mut self.outbox, outputs)?;
        self.waiting.reserve(waiting)?;
        self.output_room = outputs;
        self.waiting_room = waiting;
        self.asked_room = 0;
        Ok(())
    }

    /// Gives up the room that is left, of all kinds.
    pub fn release(&mut self)
        ensures { self.new ≡ record self.old {
          output_room = 0;
          waiting_room = 0;
          asked_room = 0;
        } }
    {
        self.output_room = 0;
        self.waiting_room = 0;
        self.asked_room = 0;
    }

    /// Appends an output to what is to be sent. It uses the room for one.
    pub fn push(&mut self, output: What)
        requires room { 0 < self.old.output_room }
        ensures { self.new ≡ record self.old {
          row = row_with_output self.old.row output;
          output_room = self.old.output_room - 1;
        } }
    {
        self.outbox.push_reserved(output);
        self.output_room -= 1;
    }

    /// Lets the request of an invokeID wait: the entry of that number waits at the semaphore. It
    /// uses the room for one.
    pub fn wait(&mut self, invoke: u32, key: Key, entry: u64)
        requires room { 0 < self.old.waiting_room }
        requires new { is_waiting invoke self.old.row.waiting ≡ false }
        ensures { self.new ≡ record self.old {
          row = row_with_waiting self.old.row
              (record { invoke = invoke; key = key; entry = entry });
          waiting_room = self.old.waiting_room - 1;
        } }
    {
        self.waiting.push_reserved(Waiting { invoke, key, entry });
        self.waiting_room -= 1;
    }

    /// Lets a request wait that is admitted, and no other. It uses the room for one either way.
    pub fn wait_admitted(&mut self, request: Waiting)
        requires room { 0 < self.old.waiting_room }
        ensures { self.new ≡ record self.old {
          row = row_with_admitted self.old.row request;
          waiting_room = self.old.waiting_room - 1;
        } }
    {
        match self.admit(request.invoke) {
            Ok(()) => self.wait(request.invoke, request.key, request.entry),
            Err(_) => self.waiting_room -= 1,
        }
    }

    /// The requests that wait, in the order in which they began to.
    pub fn waiting(&self) -> &[Waiting]
        ensures { result.now ≡ self.now.row.waiting }
    {
        &self.waiting
    }

    /// Whether any request waits.
    pub fn has_waiting(&self) -> bool
        ensures { result ≡ not (length self.now.row.waiting == 0) }
    {
        !self.waiting.is_empty()
    }

    /// Whether the request of that invokeID waits.
    pub fn is_waiting(&self, invoke: u32) -> bool
        ensures { result ≡ is_waiting invoke self.now.row.waiting }
    {
        has_waiting(&self.waiting, invoke)
    }

    /// The request that waits at that place: its invokeID, its semaphore and the number of its
    /// entry. None exactly where the place is not below their count.
    pub fn waiting_at(&self, place: usize) -> Option<(u32, &Key, u64)>
        ensures found { IsSome result ↔ (place < length self.now.row.waiting) }
        ensures row { IfSome result (λ row. slice_get self.now.row.waiting place
            ≡ Some (record { invoke = row.0; key = row.1.now; entry = row.2 })) }
    {
        let row = self.waiting.get(place)?;
        Some((row.invoke, &row.key, row.entry))
    }

    /// Removes the request of that invokeID from those that wait. False exactly where it does not
    /// wait, and then all stays as it was.
    pub fn answered(&mut self, invoke: u32) -> bool
        ensures found { result ≡ is_waiting invoke self.old.row.waiting }
        ensures row { self.new ≡ record self.old { row = row_without_waiting self.old.row invoke } }
        ensures kept { result ≡ false → self.new ≡ self.old }
    {
        remove_waiting(&mut self.waiting, invoke)
    }

    /// Makes room for so many requests of the server, beside the room that `reserve` made; room for
    /// more of them that there was is given up. Without memory for it all stays as it was. It takes
    /// no memory where there is room for as many.
    pub fn reserve_asked(&mut self, more: usize) -> Result<(), Memory>
        ensures made { OnOk result (self.new ≡ record self.old { asked_room = more }) }
        ensures kept { OnErr result (self.new ≡ self.old) }
        ensures enough { more ≤ self.old.asked_room → IsOk result }
    {
        self.asked.reserve(more)?;
        self.asked_room = more;
        Ok(())
    }

    /// What `ask` would answer: the number of the server's next request. The numbers of an
    /// association count from 1, whatever is asked. None exactly where the next one would pass
    /// 4,294,967,295.
    pub fn next_ask(&self) -> Option<u32>
        ensures { result ≡ next_ask self.now.row }
    {
        self.given.checked_add(1)
    }

    /// The server asks that of a domain, in an open association: the request is unanswered from
    /// here on, and its number is told. It uses the room for one. None exactly where the number
    /// would pass 4,294,967,295; then nothing is asked, and all stays as it was.
    pub fn ask(&mut self, kind: Asked, domain: Identifier) -> Option<u32>
        requires room { 0 < self.old.asked_room }
        requires open { is_open self.old.row.association ≡ true }
        ensures told { result ≡ next_ask self.old.row }
        ensures asked { OnSome result (self.new ≡ record self.old {
          row = row_with_asked self.old.row kind domain;
          asked_room = self.old.asked_room - 1;
        }) }
        ensures kept { IfNone result (self.new ≡ self.old) }
    {
        let invoke = self.next_ask()?;
        self.asked.push_reserved(Unanswered {
            invoke,
            kind,
            domain,
        });
        self.asked_room -= 1;
        self.given = invoke;
        Some(invoke)
    }

    /// How many requests of the server are unanswered. Their numbers are distinct and below the
    /// next one; without an association there are none, and the next one is 1.
    pub fn unanswered(&self) -> usize
        ensures count { result ≡ length self.now.row.asked }
        ensures numbered { AskedAreNumbered self.now.row.association self.now.row.asked
            self.now.row.next_invoke }
    {
        self.asked.len()
    }

    /// What the server's request of that number asks, and of which domain. None exactly where no
    /// request of that number is unanswered.
    pub fn asked(&self, invoke: u32) -> Option<(Asked, &Identifier)>
        ensures { option_map (λ asked. (asked.0, asked.1.now)) result
            ≡ asked_of invoke self.now.row.asked }
    {
        let row = find_asked(&self.asked, invoke)?;
        Some((row.kind, &row.domain))
    }

    /// The server's request of that number is unanswered no more. False exactly where it was not
    /// unanswered, and then all stays as it was. Its number is not given again.
    pub fn settled(&mut self, invoke: u32) -> bool
        ensures found { result ≡ is_asked invoke self.old.row.asked }
        ensures row { self.new ≡ record self.old { row = row_settled self.old.row invoke } }
        ensures kept { result ≡ false → self.new ≡ self.old }
    {
        remove_asked(&mut self.asked, invoke)
    }

    /// The association is gone (ISO 9506-1, Conclude and Abort): the negotiated values, the
    /// requests that wait and those that are unanswered are forgotten, and the numbers of the
    /// server's requests begin again at 1. What is to be sent stays, and so does the room.
    pub fn close(&mut self)
        ensures { self.new ≡ record self.old { row = closed_row self.old.row } }
    {
        self.association = Association::Idle;
        self.waiting.clear();
        self.asked.clear();
        self.given = 0;
    }

    /// Hands on what is to be sent, in order. Nothing is then left to be sent, and there is no room
    /// for outputs.
    pub fn drain(&mut self) -> Vec<What>
        ensures outputs { result.items ≡ self.old.row.outbox }
        ensures emptied { self.new ≡ record self.old {
          row = drained_row self.old.row;
          output_room = 0;
        } }
    {
        let empty = Vec::new(*self.outbox.allocator());
        self.output_room = 0;
        mem::replace(&mut self.outbox, empty)
    }
}

impl Drop for ClientPart {
    fn drop(self) {
        let ClientPart {
            client: _,
            association: _association,
            waiting: _waiting,
            asked: _asked,
            given: _,
            outbox: _outbox,
            constants: _constants,
            output_room: _,
            waiting_room: _,
            asked_room: _,
        } = self;
    }
}
