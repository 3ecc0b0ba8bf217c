//! The history that a report tells.

use crate::number::{number, put_line};
use anyhow::Result;
use std::alloc::{AllocError, Global};

/// What a line of a report tells.
#[derive(Clone, Copy)]
enum Line<'a> {
    /// A phase begins.
    Phase,
    /// An event was served.
    Event(&'a str),
    /// What was sent, or why no more was served.
    Other,
}

impl<'a> Line<'a> {
    fn of(line: &'a str) -> Line<'a> {
        if line.starts_with("phase ") {
            return Line::Phase;
        }
        if !begins_with_digit(line) {
            return Line::Other;
        }
        match line.split_once(' ') {
            Some((_place, event)) => Line::Event(event),
            None => Line::Other,
        }
    }
}

/// Whether a line begins with a number.
fn begins_with_digit(line: &str) -> bool {
    matches!(line.as_bytes().first(), Some(b'0'..=b'9'))
}

/// An event of a phase.
#[derive(Clone, Copy)]
struct Served<'a> {
    phase: u32,
    /// Whose it is: a client's, or the cell's, which has the number 0.
    actor: u32,
    event: &'a str,
}

/// Whose event a line tells.
fn actor_of(event: &str) -> Result<u32> {
    let (first, rest) = event.split_once(' ').unwrap_or((event, ""));
    match first {
        "lost" => number(rest),
        "tick" | "ends" => Ok(0),
        client => number(client),
    }
}

/// A recording of the events in the order in which a report tells that they were served, phase by phase. Its
/// configuration ends behind the head.
pub fn recorded(alloc: Global, head: &str, report: &str) -> Result<String, AllocError> {
    let mut text = String::from_str(alloc, head)?;
    text.push_str("\nend\n")?;
    let mut is_begun = false;
    for line in report.lines() {
        match Line::of(line) {
            Line::Phase => {
                if is_begun {
                    text.push_str("phase\n")?;
                }
                is_begun = true;
            }
            Line::Event(event) => {
                text.push_str(event)?;
                text.push('\n')?;
            }
            Line::Other => {}
        }
    }
    Ok(text)
}

/// The events of a report, those of each actor in the order in which they were served, behind the number of their
/// phase.
pub fn by_actors(alloc: Global, report: &str) -> Result<String> {
    let mut events = Vec::new(alloc);
    let mut phase = 0u32;
    for line in report.lines() {
        match Line::of(line) {
            Line::Phase => phase = phase.saturating_add(1),
            Line::Event(event) => events.push(Served {
                phase,
                actor: actor_of(event)?,
                event,
            })?,
            Line::Other => {}
        }
    }
    events.sort_by_key(|served: &Served<'_>| {
        u64::from(served.phase) << 32 | u64::from(served.actor)
    })?;
    let mut text = String::new(alloc);
    for served in &events {
        put_line(alloc, &mut text, "phase ", u64::from(served.phase))?;
        text.push_str(served.event)?;
        text.push('\n')?;
    }
    Ok(text)
}

/// The line of a report that tells why no more was served; empty where there is none.
pub fn refusal(report: &str) -> &str {
    for line in report.split_inclusive('\n') {
        if line.starts_with("bad ") || line.starts_with("too much ") {
            return line;
        }
    }
    ""
}
