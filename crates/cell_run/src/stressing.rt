//! A recording that is made phase by phase, served by several workers, and counted.

ghost use Rattle.std.specs.Prelude.{◌≡◌, ◌≤◌, ◌<◌, ◌+◌, ◌-◌, ◌^◌, ◌++◌, IfOk, OnOk, length};
ghost use Rattle.cell_stress.specs.Counts.{events_in, pdus_in, requests_in};
ghost use Rattle.cell_run.specs.Counted.{AreFew, HasCounted, count_line, events_told, lines_for};
ghost use Rattle.cell_run.specs.Ending.{EndsStress, WritesLines, seen};

use crate::crew::Crew;
use crate::status::Status;
use cell_io::{Gate, Sink, write_all};
use cell_record::{Phase, Told};
use cell_stress::{StressPhases, count_events, count_replies, count_requests, stress_config};
use itoa::Buffer;
use mms_types::Memory;
use std::alloc::Global;
use std::sync::Wait;
use std::thread::Threads;

/// How much was served: phases, events but drains, confirmed requests that were heard, and PDUs that were sent.
#[derive(Clone, Copy)]
pub(crate) struct Numbers {
    pub(crate) phases: u32,
    pub(crate) events: u128,
    pub(crate) requests: u128,
    pub(crate) replies: u128,
}

impl Numbers {
    /// Nothing was served.
    fn none() -> Numbers
        ensures { result ≡ record { phases = 0; events = 0; requests = 0; replies = 0 } }
    {
        Numbers {
            phases: 0,
            events: 0,
            requests: 0,
            replies: 0,
        }
    }

    /// With one phase more.
    fn with(self, told: &Told) -> Numbers
        requires phases { self.phases < 2 ^ 32 - 1 }
        requires few { AreFew self }
        requires clients { length told.now.outputs ≤ 64 }
        ensures phases { result.phases ≡ self.phases + 1 }
        ensures events { result.events ≡ self.events + events_in (events_told told.now) }
        ensures requests { result.requests ≡ self.requests + requests_in (events_told told.now) }
        ensures replies { result.replies ≡ self.replies + pdus_in told.now.outputs }
        ensures few { AreFew result }
    {
        Numbers {
            phases: self.phases + 1,
            events: self.events + u128::from(count_events(&told.served)),
            requests: self.requests + u128::from(count_requests(&told.served)),
            replies: self.replies + count_replies(&told.outputs),
        }
    }
}

/// Appends the line of a number.
fn put_line(text: &mut Vec<u8>, name: &[u8], number: u128) -> Result<(), Memory>
    ensures { OnOk result (text.new.items ≡ text.old.items ++ count_line name.now number) }
{
    text.extend_from_slice(name)?;
    text.extend_from_slice(b" ")?;
    text.extend_from_slice(Buffer::new().format(number).as_bytes())?;
    text.extend_from_slice(b"\n")?;
    Ok(())
}

/// The four lines.
fn lines(alloc: Global, numbers: Numbers) -> Result<Vec<u8>, Memory>
    ensures { IfOk result (λ text. text.items ≡ lines_for numbers) }
{
    let mut text = Vec::new(alloc);
    put_line(&mut text, b"phases", u128::from(numbers.phases))?;
    put_line(&mut text, b"events", numbers.events)?;
    put_line(&mut text, b"requests", numbers.requests)?;
    put_line(&mut text, b"replies", numbers.replies)?;
    Ok(text)
}

/// Writes the four lines.
fn write_lines<K: Sink>(alloc: Global, out: &mut K, numbers: Numbers) -> Status
    ensures { WritesLines (lines_for numbers) result
        (seen K.held K.faults out.old) (seen K.held K.faults out.new) }
{
    let Ok(text) = lines(alloc, numbers) else {
        return Status::Memory;
    };
    match write_all(out, &text) {
        Ok(()) => Status::Done,
        Err(_) => Status::WriteFault,
    }
}

/// Makes the phases, has each served by so many workers before the next is made, and counts them.
fn serve_made<R: Threads + Wait + Sync, G: Gate + Sync>(
    rt: &R,
    alloc: Global,
    seed: u64,
    clients: u32,
    rounds: u32,
    workers: u32,
    gate: &G,
) -> Result<Numbers, Memory>
    requires clients { (1 ≤ clients) × (clients ≤ 64) }
    requires rounds { rounds ≤ 1000 }
    requires workers { (1 ≤ workers) × (workers ≤ 16) }
    ensures { IfOk result (HasCounted seed clients rounds) }
{
    let config = stress_config(alloc, clients)?;
    let mut crew = Crew::new(alloc, &config, workers)?;
    let mut phases = StressPhases::new(seed, clients, rounds);
    let mut numbers = Numbers::none();
    while let Some(events) = phases.next_phase(alloc)? {
        let phase = Phase {
            number: numbers.phases + 1,
            events,
        };
        let told = crew.serve(rt, alloc, phase, gate)?;
        numbers = numbers.with(&told);
    }
    Ok(numbers)
}

/// Has the device try itself: makes a recording of the seed, in which so many clients contend for so many rounds, serves
/// it phase by phase, each by so many workers, and writes how much there was of it. It may wait, and where it waits for
/// ever it never returns.
pub fn stress<R: Threads + Wait + Sync, K: Sink, G: Gate + Sync>(
    rt: &R,
    alloc: Global,
    seed: u64,
    clients: u32,
    rounds: u32,
    workers: u32,
    out: &mut K,
    gate: &G,
) -> Status
    requires clients { (1 ≤ clients) × (clients ≤ 64) }
    requires rounds { rounds ≤ 1000 }
    requires workers { (1 ≤ workers) × (workers ≤ 16) }
    ensures ends { EndsStress seed clients rounds result
        (seen K.held K.faults out.old) (seen K.held K.faults out.new) }
{
    match serve_made(rt, alloc, seed, clients, rounds, workers, gate) {
        Ok(numbers) => write_lines(alloc, out, numbers),
        Err(_) => Status::Memory,
    }
}
