//! One row: what is run, and what must come of it.

use crate::number::number as number_of;
use anyhow::{Result, bail};
use std::alloc::{AllocError, Global};

/// What the source and the sink refuse.
pub struct Limits {
    /// The reads and the writes that fail, by their numbers from 1.
    pub failing_reads: Vec<u64>,
    pub failing_writes: Vec<u64>,
    /// How many octets the sink has room for.
    pub room: usize,
}

/// A run of the command, and the status and the report that it must have.
pub struct Row {
    /// The file that it stands in, and the line on which it begins, from 1.
    pub file: String,
    pub line: usize,
    /// The words of the command.
    pub words: Vec<String>,
    /// Which calls fail, and the room.
    pub limits: Limits,
    /// What the source gives.
    pub recording: Vec<u8>,
    /// The status that is wanted, and what must be written.
    pub status: u32,
    pub report: Vec<u8>,
}

impl Drop for Limits {
    fn drop(self) {
        let Limits {
            failing_reads: _failing_reads,
            failing_writes: _failing_writes,
            room: _,
        } = self;
    }
}

impl Drop for Row {
    fn drop(self) {
        let Row {
            file: _file,
            line: _,
            words: _words,
            limits: _limits,
            recording: _recording,
            status: _,
            report: _report,
        } = self;
    }
}

/// The room of a sink of which nothing is said.
const ROOM: usize = 16_777_216;

impl Row {
    /// A row on a line of a file, without words, which ends with status 0.
    pub fn new(alloc: Global, file: String, line: usize) -> Row {
        Row {
            file,
            line,
            words: Vec::new(alloc),
            limits: Limits::room(alloc, ROOM),
            recording: Vec::new(alloc),
            status: 0,
            report: Vec::new(alloc),
        }
    }

    /// Puts a word behind those of the command.
    pub fn put_word(&mut self, alloc: Global, word: &str) -> Result<(), AllocError> {
        self.words.push(String::from_str(alloc, word)?)?;
        Ok(())
    }

    /// Takes what stands behind `= ` in a line `= <words> | read <k> fails | write <k> fails | room <n>`. The word `''`
    /// is an empty one.
    pub(crate) fn take_head(&mut self, alloc: Global, head: &str) -> Result<()> {
        let mut parts = head.split('|');
        for word in parts.next().unwrap_or("").split_whitespace() {
            self.put_word(alloc, if word == "''" { "" } else { word })?;
        }
        for part in parts {
            self.limits.take(part.trim())?;
        }
        Ok(())
    }
}

impl Limits {
    /// No call fails, and the sink has room for so many octets.
    pub fn room(alloc: Global, room: usize) -> Limits {
        Limits {
            failing_reads: Vec::new(alloc),
            failing_writes: Vec::new(alloc),
            room,
        }
    }

    /// Takes in which call fails, or the room.
    fn take(&mut self, part: &str) -> Result<()> {
        let call = part.strip_suffix(" fails").unwrap_or(part);
        let (kind, number) = call.split_once(' ').unwrap_or((call, ""));
        let number = number_of(number)?;
        if kind == "room" {
            self.room = number as usize;
            return Ok(());
        }
        match self.calls_of(kind) {
            Some(calls) => calls.push(u64::from(number))?,
            None => bail!("no limit is {part:?}"),
        }
        Ok(())
    }

    /// The calls that fail of the reads or of the writes.
    fn calls_of(&mut self, kind: &str) -> Option<&mut Vec<u64>> {
        if kind == "read" {
            Some(&mut self.failing_reads)
        } else if kind == "write" {
            Some(&mut self.failing_writes)
        } else {
            None
        }
    }
}
