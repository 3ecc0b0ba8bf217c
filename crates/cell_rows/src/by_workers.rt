//! The recordings that `replay` serves are served by workers too. What they write is another history of the same
//! phases, and as a recording it is replayed with the same report.

use crate::running::{Difference, Outcome, line_apart, outcome_of, status_apart};
use anyhow::Result;
use row_files::{Limits, Row, by_actors, recorded, refusal};
use std::alloc::Global;
use std::sync::Wait;
use std::thread::Threads;

/// How many workers serve a recording, one after the other.
pub(crate) const WORKERS: [&str; 3] = ["1", "2", "4"];

/// The status of a sink that failed: where it failed is then another place of another report.
const WRITE_FAULT: u32 = 5;

/// Whether a row replays its recording.
pub(crate) fn is_replayed(row: &Row) -> bool {
    row.words.len() == 1 && row.words.iter().all(|word| word.as_str() == "replay")
}

/// The words, each as a text of its own.
fn words_of(alloc: Global, words: &[&str]) -> Result<Vec<String>> {
    let mut texts = Vec::new(alloc);
    for word in words {
        texts.push(String::from_str(alloc, word)?)?;
    }
    Ok(texts)
}

/// The lines of a recording before the one that ends its configuration.
fn head_of(recording: &str) -> &str {
    recording.split_once("\nend").unwrap_or((recording, "")).0
}

/// Has the recording of a row served by workers, and answers where what they write differs from what it may be.
pub(crate) fn run_apart<R: Threads + Wait + Sync>(
    rt: &R,
    alloc: Global,
    row: &Row,
    workers: &str,
) -> Result<Option<Difference>> {
    let words = words_of(alloc, &["run", "--workers", workers])?;
    let run = outcome_of(rt, alloc, &words, &row.recording, &row.limits)?;
    if run.status != row.status || row.status == WRITE_FAULT {
        return Ok(status_apart(row.status, run.status));
    }
    if !row.report.starts_with(b"phase ") {
        return line_apart(alloc, "the report", &row.report, &run.report);
    }
    history_apart(rt, alloc, row, &run)
}

/// Replays the history that a run of a row tells, and answers where it differs: in its events, where those of an actor
/// aren't the row's, or in the report that is written of it.
fn history_apart<R: Threads + Wait + Sync>(
    rt: &R,
    alloc: Global,
    row: &Row,
    run: &Outcome,
) -> Result<Option<Difference>> {
    let report = String::from_utf8_lossy(alloc, &run.report)?;
    let wanted = String::from_utf8_lossy(alloc, &row.report)?;
    match events_apart(alloc, &wanted, &report)? {
        Some(apart) => Ok(Some(apart)),
        None => report_apart(rt, alloc, row, &wanted, run),
    }
}

/// Where the events of an actor in a report aren't those of the one that is wanted.
fn events_apart(alloc: Global, wanted: &str, report: &str) -> Result<Option<Difference>> {
    let wanted = by_actors(alloc, wanted)?;
    let events = by_actors(alloc, report)?;
    let of = "the actors' events";
    line_apart(alloc, of, wanted.as_bytes(), events.as_bytes())
}

/// The events of a run of a row, as a recording that begins as that of the row.
fn history_of(alloc: Global, row: &Row, run: &Outcome) -> Result<String> {
    let recording = String::from_utf8_lossy(alloc, &row.recording)?;
    let report = String::from_utf8_lossy(alloc, &run.report)?;
    Ok(recorded(alloc, head_of(&recording), &report)?)
}

/// Where the report of a run differs from the one that is written of its history, with why no more of the row was served.
fn report_apart<R: Threads + Wait + Sync>(
    rt: &R,
    alloc: Global,
    row: &Row,
    wanted: &str,
    run: &Outcome,
) -> Result<Option<Difference>> {
    let history = history_of(alloc, row, run)?;
    let replay = words_of(alloc, &["replay"])?;
    let limits = Limits::room(alloc, row.limits.room);
    let mut again = outcome_of(rt, alloc, &replay, history.as_bytes(), &limits)?;
    again.report.extend_from_slice(refusal(wanted).as_bytes())?;
    line_apart(alloc, "the report", &again.report, &run.report)
}
