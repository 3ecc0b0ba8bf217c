ghost use Rattle.std.specs.Prelude.{◌≡◌, ◌+◌, ◌-◌, ◌<◌, ◌≤◌, ◌↔◌, ◌⊎◌, ◌^◌, [], length, drop, min, Some, Contains, IfOk, IsErr, OnOk, OnErr, vec_len, vec_capacity};
ghost use Rattle.std.specs.Io.{ReadsAtMost, WritesAtMost};
ghost use Rattle.std.specs.Io.KnownBytes.{ReadConsumes, WriteAppends};
ghost use Rattle.cell_io.specs.Faults.{CountsFault};

use crate::{Failed, Memory, Sink, Source};
use std::alloc::Global;

/// A source in memory whose reads of the listed numbers, from 1, fail.
#[derive(Drop)]
pub struct MemorySource {
    bytes: Vec<u8>,
    at: usize,
    failing: Vec<u64>,
    reads: u64,
    faults: u64,
    ghost within: { at ≤ length bytes.items },
}

impl MemorySource {
    ghost use Rattle.cell_io.specs.InMemory.{failing_reads, reads_of};

    /// A source in which all of `bytes` is left, and whose k-th read, from 1, fails where k is
    /// in `failing`.
    pub fn new(bytes: Vec<u8>, failing: Vec<u64>) -> MemorySource
        ensures left { ⟦<MemorySource as Source>⟧.left result ≡ Some bytes.items }
        ensures count { ⟦<MemorySource as Source>⟧.faults result ≡ 0 }
        ensures failing { failing_reads result ≡ failing.items }
        ensures reads { reads_of result ≡ 0 }
    {
        MemorySource {
            bytes,
            at: 0,
            failing,
            reads: 0,
            faults: 0,
        }
    }
}

impl Source for MemorySource {
    ghost use Rattle.cell_io.specs.InMemory.{failing_reads, reads_of};

    ghost left = { λ s. Some (drop s.at s.bytes.items) };

    ghost faults = { λ s. s.faults };

    /// As `Source::read`. It fails exactly where the number of the read, from 1, is listed, and
    /// else gives all that fits into `buf`.
    fn read(&mut self, buf: &mut [u8]) -> Result<usize, Failed>
        ensures bound { ReadsAtMost result buf.new }
        ensures bytes { ReadConsumes (⟦<MemorySource as Source>⟧.left self.old)
            (⟦<MemorySource as Source>⟧.left self.new) result buf.new }
        ensures cause { CountsFault (⟦<MemorySource as Source>⟧.faults self.old)
            (⟦<MemorySource as Source>⟧.faults self.new) result }

        // Which read fails, by its number, which stops at 2^64 - 1.
        ensures fails { IsErr result ↔ Contains (failing_reads self.old) (reads_of self.new) }
        ensures reads { reads_of self.new ≡ min (reads_of self.old + 1) (2 ^ 64 - 1) }
        ensures failing { failing_reads self.new ≡ failing_reads self.old }
    {
        self.reads = self.reads.saturating_add(1);
        if self.failing.contains(&self.reads) {
            self.faults = self.faults.saturating_add(1);
            return Err(Failed);
        }
        let count = buf.len().min(self.bytes.len() - self.at);
        let end = self.at + count;
        buf[..count].copy_from_slice(&self.bytes[self.at..end]);
        self.at = end;
        Ok(count)
    }
}

/// A sink in memory with room for a number of octets, whose writes of the listed numbers, from 1,
/// fail.
#[derive(Drop)]
pub struct MemorySink {
    bytes: Vec<u8>,
    room: usize,
    failing: Vec<u64>,
    writes: u64,
    faults: u64,
    ghost within: { vec_len bytes ≤ room },
    ghost reserved: { room ≤ vec_capacity bytes },
}

impl MemorySink {
    ghost use Rattle.cell_io.specs.InMemory.{failing_writes, writes_of, room_of};

    /// An empty sink that reserves `room` octets, and whose k-th write, from 1, fails where k is
    /// in `failing`. `Memory` where the room can't be reserved.
    pub fn new(alloc: Global, room: usize, failing: Vec<u64>) -> Result<MemorySink, Memory>
        ensures held { IfOk result (λ s. ⟦<MemorySink as Sink>⟧.held s ≡ Some []) }
        ensures count { IfOk result (λ s. ⟦<MemorySink as Sink>⟧.faults s ≡ 0) }
        ensures room { IfOk result (λ s. room_of s ≡ room) }
        ensures failing { IfOk result (λ s. failing_writes s ≡ failing.items) }
        ensures writes { IfOk result (λ s. writes_of s ≡ 0) }
    {
        Ok(MemorySink {
            bytes: Vec::with_capacity(alloc, room)?,
            room,
            failing,
            writes: 0,
            faults: 0,
        })
    }

    /// The octets that it holds.
    pub fn holds(&self) -> &[u8]
        ensures { ⟦<MemorySink as Sink>⟧.held self.now ≡ Some result.now }
    {
        &self.bytes
    }
}

impl Sink for MemorySink {
    ghost use Rattle.cell_io.specs.InMemory.{failing_writes, writes_of, room_of, free_in};

    ghost held = { λ s. Some s.bytes.items };

    ghost faults = { λ s. s.faults };

    /// As `Sink::write`. It fails exactly where the number of the write, from 1, is listed, or
    /// `bytes` isn't empty and the room is full, and else takes all that there is room for. It
    /// takes no memory.
    fn write(&mut self, bytes: &[u8]) -> Result<usize, Failed>
        ensures bound { WritesAtMost result bytes.now }
        ensures some { IfOk result (λ n. 0 < length bytes.now → 0 < n) }
        ensures bytes { WriteAppends (⟦<MemorySink as Sink>⟧.held self.old)
            (⟦<MemorySink as Sink>⟧.held self.new) result bytes.now }
        ensures cause { CountsFault (⟦<MemorySink as Sink>⟧.faults self.old)
            (⟦<MemorySink as Sink>⟧.faults self.new) result }

        // Which write fails, by its number, which stops at 2^64 - 1, and by the room.
        ensures fails { IsErr result ↔ (Contains (failing_writes self.old) (writes_of self.new)
            ⊎ ((0 < length bytes.now) × (free_in self.old ≡ 0))) }
        ensures takes { IfOk result (λ n. n ≡ min (length bytes.now) (free_in self.old)) }
        ensures writes { writes_of self.new ≡ min (writes_of self.old + 1) (2 ^ 64 - 1) }
        ensures failing { failing_writes self.new ≡ failing_writes self.old }
        ensures room { room_of self.new ≡ room_of self.old }
    {
        self.writes = self.writes.saturating_add(1);
        let count = bytes.len().min(self.room - self.bytes.len());
        if self.failing.contains(&self.writes) {
            self.faults = self.faults.saturating_add(1);
            return Err(Failed);
        }
        if count == 0 && !bytes.is_empty() {
            self.faults = self.faults.saturating_add(1);
            return Err(Failed);
        }
        self.bytes.extend_from_slice(&bytes[..count]).unwrap();
        Ok(count)
    }
}
