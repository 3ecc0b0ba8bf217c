ghost use Rattle.std.specs.Prelude.{◌≡◌, ◌+◌, ◌-◌, ◌<◌, ◌≤◌, [], ◌++◌, true, false, List, length, take, drop, IfOk, IfErr, OnErr, OnOk};
ghost use Rattle.std.specs.Io.KnownBytes.{Keeps, prepend_known};
ghost use Rattle.cell_io.specs.Faults.{CountsFault, CountsFaultAs};
ghost use Rattle.cell_io.specs.Lines.{first_line, after_line, has_feed, kept_of};
ghost use Rattle.cell_io.specs.Held.{Held};
ghost use Rattle.cell_io.specs.Giving.{GivesLine, HadLine, HadNoLine, StopsFor, GoesAhead};
ghost use Rattle.cell_io.specs.Giving.{GivesPart, StopsAtPart, HoldsMore, HoldsNoMore, FailsToRead};
ghost use Rattle.cell_io.specs.declared.lines.Stop.TheVariants as stop;

use crate::first_part::first_part;
use crate::{Failed, Memory, Source};
use std::alloc::Global;
use std::marker::Model;
use thiserror::Error;

/// The most octets that are given of an input.
pub const MOST: u64 = 4_294_967_296;

/// The most octets that are kept of a line.
pub const KEPT: usize = 196_612;

const CHUNK: usize = 1 << 15;

/// Why no line was given.
#[derive(Clone, Copy, Debug, PartialEq, Eq, Drop, Error)]
pub enum Stop {
    /// The source failed.
    #[error("the source failed")]
    Fault,
    /// The line holds the input's octet after the 4,294,967,296th.
    #[error("the input is too long")]
    TooMuch,
    /// Want of memory for the line.
    #[error("out of memory")]
    Memory,
}

impl From<Failed> for Stop {
    ghost from_gives = { λ _ e. e ≡ stop.Fault };

    fn from(_failed: Failed) -> Stop {
        Stop::Fault
    }
}

impl From<Memory> for Stop {
    ghost from_gives = { λ _ e. e ≡ stop.Memory };

    fn from(_lost: Memory) -> Stop {
        Stop::Memory
    }
}

/// A reader of the lines of a source. It reads 32 KiB at a time and takes no memory for a line
/// but in the caller's buffer. It remembers the end of the source, and reads nothing after it.
#[derive(Drop)]
pub struct Lines {
    chunk: Vec<u8>,
    start: usize,
    end: usize,
    given: u64,
    ended: bool,
}

impl Model for Lines {
    ghost use Rattle.std.specs.Prelude.{◌≤◌, ◌<◌, ◌-◌, take, drop, length};
    ghost use Rattle.cell_io.specs.Held.{Held};

    ghost Value = { Held };

    ghost view = { λ s. record {
      octets = take (s.end - s.start) (drop s.start s.chunk.items);
      given = s.given;
      ended = s.ended;
    } };

    ghost invariant = { λ s. (s.start ≤ s.end) × (s.end ≤ length s.chunk.items)
        × (0 < length s.chunk.items) × (s.given ≤ 4294967296) };
}

impl Lines {
    /// A reader that holds nothing and has given nothing.
    pub fn new(alloc: Global) -> Result<Lines, Memory>
        ensures octets { IfOk result (λ s. s.octets ≡ []) }
        ensures given { IfOk result (λ s. s.given ≡ 0) }
        ensures ended { IfOk result (λ s. s.ended ≡ false) }
    {
        Ok(Lines {
            chunk: vec![in alloc; 0; CHUNK]?,
            start: 0,
            end: 0,
            given: 0,
            ended: false,
        })
    }

    /// How many octets were given as lines, line feeds counted.
    pub fn given(&self) -> u64
        ensures given { result ≡ self.now.given }
        ensures most { result ≤ 4294967296 }
    {
        self.given
    }

    /// What was taken from the source and not yet given: nothing after its end was seen.
    pub fn held(&self) -> &[u8]
        ensures octets { self.now.ended ≡ false → result.now ≡ self.now.octets }
        ensures none { self.now.ended ≡ true → result.now ≡ [] }
    {
        if self.ended {
            &[]
        } else {
            &self.chunk[self.start..self.end]
        }
    }

    /// Gives so many octets of what is held: a line that the caller read in its place.
    pub fn pass(&mut self, size: usize)
        requires held { size ≤ length self.old.octets }
        requires most { self.old.given + size ≤ 4294967296 }
        ensures octets { self.new.octets ≡ drop size self.old.octets }
        ensures given { self.new.given ≡ self.old.given + size }
        ensures ended { self.new.ended ≡ self.old.ended }
    {
        self.start += size;
        self.given += size as u64;
    }

    /// Puts the next line in place of what `line` has, with its line feed where it has one: the
    /// first 196,612 octets of it, while the others are only counted. True where there is a line,
    /// false at the end of the input. A read that fails is the last one. After a `Stop` a front of the
    /// line was passed over and counted as given, and what is ahead begins with the rest of the line.
    pub fn next<S: Source>(&mut self, input: &mut S, line: &mut Vec<u8>) -> Result<bool, Stop>
        // The line: empty at the end of the input.
        ensures line { OnOk result (GivesLine
            self.old (S.left input.old) self.new (S.left input.new) line.new.items) }

        // True exactly where something was ahead. After the end was seen nothing is read, and no
        // line is given.
        ensures there { IfOk result (λ more. more ≡ true
            → HadLine self.old (S.left input.old) self.new) }
        ensures none { IfOk result (λ more. more ≡ false
            → HadNoLine self.old (S.left input.old) self.new) }
        ensures unread { self.old.ended ≡ true → (input.new ≡ input.old) × (self.new ≡ self.old) }

        // Why it stops.
        ensures stops { IfErr result (λ stop. StopsFor stop
            self.old (S.left input.old) self.new (S.left input.new)) }

        // On every answer.
        ensures goes { GoesAhead self.old (S.left input.old) self.new (S.left input.new) }
        ensures faults { CountsFaultAs Stop.Fault (S.faults input.old) (S.faults input.new) result }
    {
        line.clear();
        let _given = self.given();
        if self.ended {
            return Ok(false);
        }
        self.read_line(input, line)
    }

    /// As `next`, where the end wasn't seen yet and the line is empty.
    fn read_line<S: Source>(&mut self, input: &mut S, line: &mut Vec<u8>) -> Result<bool, Stop>
        requires unended { self.old.ended ≡ false }
        requires empty { line.old.items ≡ [] }
        ensures line { OnOk result (GivesLine
            self.old (S.left input.old) self.new (S.left input.new) line.new.items) }
        ensures there { IfOk result (λ more. more ≡ true
            → HadLine self.old (S.left input.old) self.new) }
        ensures none { IfOk result (λ more. more ≡ false
            → HadNoLine self.old (S.left input.old) self.new) }
        ensures stops { IfErr result (λ stop. StopsFor stop
            self.old (S.left input.old) self.new (S.left input.new)) }
        ensures goes { GoesAhead self.old (S.left input.old) self.new (S.left input.new) }
        ensures faults { CountsFaultAs Stop.Fault (S.faults input.old) (S.faults input.new) result }
    {
        let before = self.given();
        for _turn in 0..MOST + 2 {
            if self.give_part(line)? {
                return Ok(true);
            }
            if !self.fill(input)? {
                return Ok(self.given() > before);
            }
        }
        unreachable!()
    }

    /// Gives what is held of the line. Tells whether the line ends there.
    fn give_part(&mut self, line: &mut Vec<u8>) -> Result<bool, Stop>
        requires { length line.old.items ≤ 196612 }
        ensures part { OnOk result
            (GivesPart self.old self.new line.old.items line.new.items) }
        ensures ended { IfOk result (λ ended. has_feed self.old.octets ≡ ended) }
        ensures stops { IfErr result (λ stop. StopsAtPart stop self.old self.new) }
        ensures order { self.old.given ≤ self.new.given }
        ensures most { self.new.given ≤ 4294967296 }
        ensures same { self.new.ended ≡ self.old.ended }
    {
        let held = &self.chunk[self.start..self.end];
        let part = first_part(held);
        if part.size as u64 > MOST - self.given {
            return Err(Stop::TooMuch);
        }
        keep(line, &held[..part.size])?;
        self.given += part.size as u64;
        self.start += part.size;
        Ok(part.ended)
    }

    /// Takes octets from the source in place of what was held, by one read. Tells whether there were any.
    fn fill<S: Source>(&mut self, input: &mut S) -> Result<bool, Failed>
        ensures moved { OnOk result
            (Keeps (S.left input.old) (prepend_known self.new.octets (S.left input.new))) }
        ensures some { IfOk result (λ more. more ≡ true → HoldsMore self.new) }
        ensures none { IfOk result (λ more. more ≡ false
            → HoldsNoMore self.new (S.left input.new)) }
        ensures fails { OnErr result
            (FailsToRead self.old (S.left input.old) self.new (S.left input.new)) }
        ensures cause { CountsFault (S.faults input.old) (S.faults input.new) result }
        ensures given { self.new.given ≡ self.old.given }
    {
        self.start = 0;
        self.end = 0;
        self.end = input.read(&mut self.chunk)?;
        self.ended = self.end == 0;
        Ok(!self.ended)
    }
}

/// Puts as much of `part` to the line as is kept of it.
fn keep(line: &mut Vec<u8>, part: &[u8]) -> Result<(), Memory>
    requires { length line.old.items ≤ 196612 }
    ensures { OnOk result (line.new.items
        ≡ kept_of (line.old.items ++ part.now)) }
{
    let count = (KEPT - line.len()).min(part.len());
    line.extend_from_slice(&part[..count])?;
    Ok(())
}
