//! How much there is of what was served.

ghost use Rattle.std.specs.Prelude.{◌≡◌, ◌≤◌, ◌*◌, ◌^◌, length, map};
ghost use Rattle.std.specs.List.{count_by};
ghost use Rattle.cell_record.specs.Report.{is_printed};
ghost use Rattle.cell_stress.specs.Counts.{asks, events_in, is_pdu, is_request};
ghost use Rattle.cell_stress.specs.Counts.{pdus_in, requests_in};

use cell_record::{ClientOutputs, PlacedEvents};
use mms_types::{CellEvent, What};

/// The octets begin with the tag of a confirmed-Request.
fn asks(octets: &[u8]) -> bool
    ensures { result ≡ asks octets.now }
{
    match octets {
        [] => false,
        [first, ..] => *first == 0xA0,
    }
}

/// A client asks something that is to be confirmed.
fn is_request(event: &CellEvent) -> bool
    ensures { result ≡ is_request event.now }
{
    match event {
        CellEvent::Heard { octets, .. } => asks(octets.as_slice()),
        CellEvent::Lost { .. } => false,
        CellEvent::Tick { .. } => false,
        CellEvent::Ends { .. } => false,
        CellEvent::Drain { .. } => false,
    }
}

/// The event is no drain.
fn is_printed(event: &CellEvent) -> bool
    ensures { result ≡ is_printed event.now }
{
    match event {
        CellEvent::Heard { .. } => true,
        CellEvent::Lost { .. } => true,
        CellEvent::Tick { .. } => true,
        CellEvent::Ends { .. } => true,
        CellEvent::Drain { .. } => false,
    }
}

/// What is sent is a PDU.
fn is_pdu(what: &What) -> bool
    ensures { result ≡ is_pdu what.now }
{
    match what {
        What::Octets(_) => true,
        What::Abort => false,
    }
}

/// How many events were served, but drains.
pub fn count_events(served: &PlacedEvents) -> u64
    ensures count { result ≡ events_in (map (λ placed. placed.1) served.now) }
{
    let mut count = 0;
    for index in 0..served.len() {
        let (_place, event) = served.at(index);
        if is_printed(event) {
            count += 1;
        }
    }
    count
}

/// How many confirmed requests were heard.
pub fn count_requests(served: &PlacedEvents) -> u64
    ensures count { result ≡ requests_in (map (λ placed. placed.1) served.now) }
{
    let mut count = 0;
    for index in 0..served.len() {
        let (_place, event) = served.at(index);
        if is_request(event) {
            count += 1;
        }
    }
    count
}

/// How many PDUs a client was sent.
fn count_sent(sent: &[What]) -> u64
    ensures { result ≡ count_by is_pdu sent.now }
{
    let mut count = 0;
    for what in sent {
        if is_pdu(what) {
            count += 1;
        }
    }
    count
}

/// How many PDUs the clients were sent, to each of whom there are fewer than 2^64.
pub fn count_replies(outputs: &ClientOutputs) -> u128
    ensures count { result ≡ pdus_in outputs.now }
    ensures few { result ≤ length outputs.now * 2 ^ 64 }
{
    let mut count = 0;
    for place in 0..outputs.len() {
        count += u128::from(count_sent(outputs.at(place)));
    }
    count
}
