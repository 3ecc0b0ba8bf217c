//! What is read of the octets of an event.

ghost use Rattle.std.specs.Prelude.{◌≡◌, ◌≢◌, None, Some, IfNone, IfOk, IfSome};
ghost use Rattle.mms_pdu.specs.Heard.{pdu_heard};
ghost use Rattle.cell_client.specs.Reads.{IsRead, IsReadingOf, edition_of, edition_read, unless_memory, wants_memory};

use mms_pdu::{Read, Refusal, read_pdu};
use mms_types::{CellEvent, Edition, Memory};
use std::alloc::Global;
use std::marker::Model;

/// What was read, or the refusal that it has; want of memory is told as such, and nothing else is.
fn unless_memory(read: Result<Read, Refusal>) -> Result<Result<Read, Refusal>, Memory>
    ensures { result ≡ unless_memory read }
{
    match read {
        Err(Refusal::Memory) => Err(Memory::wanting()),
        told => Ok(told),
    }
}

/// What octets are that a client of that edition sends: a PDU and its depth, or the first refusal that applies.
pub fn read(alloc: Global, octets: &[u8], edition: Edition) -> Result<Result<Read, Refusal>, Memory>
    ensures { IfOk result (λ told. IsRead told (pdu_heard edition octets.now)) }
{
    unless_memory(read_pdu(alloc, octets, edition))
}

/// Whether memory was wanting to read octets.
pub fn wants_memory(read: &Result<Read, Refusal>) -> bool
    ensures { result ≡ wants_memory read.now }
{
    matches!(read, Err(Refusal::Memory))
}

/// What was read of the octets of an event, so that what the event needs and what it does share it and read them once.
/// Contracts see the edition by which they were read and what was read, or that nothing was.
pub struct Reading {
    kept: Option<(Edition, Result<Read, Refusal>)>,
}

impl Model for Reading {
    ghost use Rattle.cell_client.specs.Reads.{Kept};

    ghost Value = { Kept };

    ghost use Rattle.std.specs.Coded.{codes};
    ghost use Rattle.mms_pdu.specs.contracts.reading.Read as told;

    ghost coded = { Prim.hlevel (codes, told.the_row.coded) };

    ghost view = { λ reading. reading.kept };
}

impl Reading {
    /// Nothing was read. It is of every event.
    pub fn none() -> Reading
        ensures { result ≡ None }
    {
        Reading { kept: None }
    }

    /// What was read by that edition, and None where nothing was, or by another edition.
    pub fn by(&self, edition: Edition) -> Option<&Result<Read, Refusal>>
        ensures some { IfSome result (λ read. self.now ≡ Some (edition, read.now)) }
        ensures none { IfNone result (edition_of self.now ≢ Some edition) }
    {
        let (of, read) = self.kept.as_ref()?;
        if *of == edition { Some(read) } else { None }
    }
}

/// Reads the octets of an event, where it has any, by the edition of its client.
pub fn read_event(alloc: Global, event: &CellEvent, edition: Edition) -> Result<Reading, Memory>
    ensures reading { IfOk result (λ reading. IsReadingOf reading event.now) }
    // Octets are read here, and no later.
    ensures edition { IfOk result (λ reading. edition_of reading ≡ edition_read event.now edition) }
{
    match event {
        CellEvent::Heard { octets, .. } => {
            let read = read(alloc, octets.as_slice(), edition)?;
            Ok(Reading {
                kept: Some((edition, read)),
            })
        }
        CellEvent::Lost { .. }
        | CellEvent::Tick { .. }
        | CellEvent::Ends { .. }
        | CellEvent::Drain { .. } => Ok(Reading::none()),
    }
}

impl Drop for Reading {
    fn drop(self) {
        let Reading { kept: _kept } = self;
    }
}
