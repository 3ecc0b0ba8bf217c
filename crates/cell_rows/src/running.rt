//! What is run, and where what comes of it differs from what is wanted.

use anyhow::Result;
use cell_io::{MemorySink, MemorySource, Open};
use cell_run::run_cell;
use row_files::{Limits, Row};
use std::alloc::Global;
use std::fmt;
use std::sync::Wait;
use std::thread::Threads;

/// Where a run differs from what is wanted.
pub(crate) enum Difference {
    /// Another status.
    Status {
        wanted: u32,
        given: u32,
    },
    /// A line, from 1, of the report or of what is made of it: what was wanted, and what was given.
    Line {
        of: &'static str,
        line: usize,
        wanted: String,
        given: String,
    },
}

impl fmt::Display for Difference {
    fn fmt<W: fmt::Write>(&self, f: &mut fmt::Formatter<W>) -> fmt::Result {
        match self {
            Difference::Status { wanted, given } => {
                write!(f, "status {given} in place of {wanted}")
            }
            Difference::Line {
                of,
                line,
                wanted,
                given,
            } => write!(f, "line {line} of {of} is {given:?} in place of {wanted:?}"),
        }
    }
}

impl Drop for Difference {
    fn drop(self) {
        match self {
            Difference::Status {
                wanted: _,
                given: _,
            } => {}
            Difference::Line {
                of: _,
                line: _,
                wanted: _wanted,
                given: _given,
            } => {}
        }
    }
}

/// What a run came to.
pub(crate) struct Outcome {
    pub status: u32,
    pub report: Vec<u8>,
}

impl Drop for Outcome {
    fn drop(self) {
        let Outcome {
            status: _,
            report: _report,
        } = self;
    }
}

/// A source that gives a recording, of which the reads fail that the limits tell.
fn source_of(alloc: Global, recording: &[u8], limits: &Limits) -> Result<MemorySource> {
    let failing = Vec::from_slice(alloc, &limits.failing_reads)?;
    Ok(MemorySource::new(Vec::from_slice(alloc, recording)?, failing))
}

/// A sink with room and writes that fail as the limits tell.
fn sink_of(alloc: Global, limits: &Limits) -> Result<MemorySink> {
    let failing = Vec::from_slice(alloc, &limits.failing_writes)?;
    Ok(MemorySink::new(alloc, limits.room, failing)?)
}

/// Runs the command of these words on a recording.
pub(crate) fn outcome_of<R: Threads + Wait + Sync>(
    rt: &R,
    alloc: Global,
    words: &[String],
    recording: &[u8],
    limits: &Limits,
) -> Result<Outcome> {
    let mut source = source_of(alloc, recording, limits)?;
    let mut sink = sink_of(alloc, limits)?;
    let status = u32::from(run_cell(rt, alloc, words, &mut source, &mut sink, &Open));
    ended(alloc, status, &sink)
}

/// What a run came to that ended with this status.
fn ended(alloc: Global, status: u32, sink: &MemorySink) -> Result<Outcome> {
    Ok(Outcome {
        status,
        report: Vec::from_slice(alloc, sink.holds())?,
    })
}

/// Runs a row, and answers where what comes of it first differs, if it does.
pub(crate) fn first_difference<R: Threads + Wait + Sync>(
    rt: &R,
    alloc: Global,
    row: &Row,
) -> Result<Option<Difference>> {
    let given = outcome_of(rt, alloc, &row.words, &row.recording, &row.limits)?;
    let apart = line_apart(alloc, "the report", &row.report, &given.report)?;
    Ok(apart.or(status_apart(row.status, given.status)))
}

/// Whether another status was given.
pub(crate) fn status_apart(wanted: u32, given: u32) -> Option<Difference> {
    if given == wanted {
        return None;
    }
    Some(Difference::Status { wanted, given })
}

/// The first line in which two texts differ.
pub(crate) fn line_apart(
    alloc: Global,
    of: &'static str,
    wanted: &[u8],
    given: &[u8],
) -> Result<Option<Difference>> {
    if wanted == given {
        return Ok(None);
    }
    let wanted = String::from_utf8_lossy(alloc, wanted)?;
    let given = String::from_utf8_lossy(alloc, given)?;
    let mut wanted_lines = wanted.split('\n');
    let mut line = 0usize;
    for given_line in given.split('\n') {
        line = line.saturating_add(1);
        match wanted_lines.next() {
            Some(wanted_line) if wanted_line == given_line => {}
            wanted_line => return apart(alloc, of, line, wanted_line.unwrap_or(""), given_line),
        }
    }
    line = line.saturating_add(1);
    apart(alloc, of, line, wanted_lines.next().unwrap_or(""), "")
}

fn apart(
    alloc: Global,
    of: &'static str,
    line: usize,
    wanted: &str,
    given: &str,
) -> Result<Option<Difference>> {
    Ok(Some(Difference::Line {
        of,
        line,
        wanted: String::from_str(alloc, wanted)?,
        given: String::from_str(alloc, given)?,
    }))
}
