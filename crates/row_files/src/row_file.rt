//! A file of rows.

use crate::number::number;
use crate::row::Row;
use crate::shorthand::Shorthands;
use crate::steps::{Phases, Steps};
use anyhow::{Context, Result, bail};
use std::alloc::{AllocError, Global};

/// The part of a file that its lines are of.
#[derive(Clone, Copy)]
enum Place {
    /// Before a row: what it shows, in plain words.
    Title,
    Recording,
    Report,
    /// The configuration and the steps of a row by steps.
    Steps,
}

/// The file that is read, and the part that the next line is of.
#[derive(Clone, Copy)]
struct Reading<'a> {
    file: &'a str,
    texts: Shorthands<'a>,
    place: Place,
}

/// Puts the rows of a file's text behind `rows`.
pub fn rows_of(
    alloc: Global,
    file: &str,
    content: &str,
    texts: Shorthands<'_>,
    rows: &mut Vec<Row>,
) -> Result<()> {
    let mut reading = Reading {
        file,
        texts,
        place: Place::Title,
    };
    for (index, line) in content.lines().enumerate() {
        let number = index.saturating_add(1);
        reading.place = reading
            .take_line(alloc, rows, number, line)
            .context(format_args!("line {number}"))?;
    }
    end_row(alloc, rows, reading.place)
}

/// Ends the last row: one by steps becomes two recordings with their reports.
fn end_row(alloc: Global, rows: &mut Vec<Row>, place: Place) -> Result<()> {
    match place {
        Place::Title | Place::Report => Ok(()),
        Place::Recording => bail!("the row before has no status"),
        Place::Steps => match rows.pop() {
            None => Ok(()),
            Some(row) => put_both(alloc, rows, &row),
        },
    }
}

/// Puts a row on a line of a file behind `rows`, without words.
fn put_row(alloc: Global, rows: &mut Vec<Row>, file: &str, line: usize) -> Result<(), AllocError> {
    let file = String::from_str(alloc, file)?;
    rows.push(Row::new(alloc, file, line))?;
    Ok(())
}

/// The edition of a row by steps: the word behind `steps`, and 1 where there is none.
fn edition_of(row: &Row) -> &str {
    match row.words.get(1) {
        Some(word) => word.as_str(),
        None => "1",
    }
}

/// Puts the two recordings of a row by steps behind `rows`.
fn put_both(alloc: Global, rows: &mut Vec<Row>, row: &Row) -> Result<()> {
    let text = String::from_utf8_lossy(alloc, &row.recording)?;
    let steps = Steps::of(edition_of(row), &text)?;
    for phases in [Phases::One, Phases::OneAStep] {
        put_row(alloc, rows, &row.file, row.line)?;
        if let Some(both) = rows.last_mut() {
            take_steps(alloc, both, steps, phases)?;
        }
    }
    Ok(())
}

/// Takes the recording of steps into a row, and its report.
fn take_steps(alloc: Global, row: &mut Row, steps: Steps<'_>, phases: Phases) -> Result<()> {
    row.put_word(alloc, "replay")?;
    row.recording = steps.recording(alloc, phases)?;
    row.report = steps.report(alloc, phases)?;
    Ok(())
}

impl Reading<'_> {
    /// Takes a line into the rows, and answers the part that the next one is of.
    fn take_line(
        &self,
        alloc: Global,
        rows: &mut Vec<Row>,
        at: usize,
        line: &str,
    ) -> Result<Place> {
        if let Some(status) = line.strip_prefix("= status ") {
            self.take_status(rows, status)?;
            return Ok(Place::Report);
        }
        if line.starts_with("=#") || (matches!(self.place, Place::Steps) && line.is_empty()) {
            end_row(alloc, rows, self.place)?;
            return Ok(Place::Title);
        }
        if let Some(head) = line.strip_prefix("=") {
            end_row(alloc, rows, self.place)?;
            return self.begin_row(alloc, rows, at, head);
        }
        self.put_line(alloc, rows, line)?;
        Ok(self.place)
    }

    /// Takes the status of the last row.
    fn take_status(&self, rows: &mut [Row], status: &str) -> Result<()> {
        let status = number(status)?;
        match (self.place, rows.last_mut()) {
            (Place::Recording, Some(row)) => {
                row.status = status;
                Ok(())
            }
            _ => bail!("a status stands behind no recording"),
        }
    }

    /// Begins a row on this line, and answers the part that the next one is of.
    fn begin_row(
        &self,
        alloc: Global,
        rows: &mut Vec<Row>,
        at: usize,
        head: &str,
    ) -> Result<Place> {
        put_row(alloc, rows, self.file, at)?;
        if let Some(row) = rows.last_mut() {
            row.take_head(alloc, head)?;
        }
        Ok(if head == " steps" || head == " steps 2" {
            Place::Steps
        } else {
            Place::Recording
        })
    }

    /// Puts a line behind the recording or the report of the last row.
    fn put_line(&self, alloc: Global, rows: &mut [Row], line: &str) -> Result<()> {
        match (self.place, rows.last_mut()) {
            (Place::Recording | Place::Steps, Some(row)) => {
                self.texts.put_line(alloc, line, &mut row.recording)
            }
            (Place::Report, Some(row)) => self.texts.put_line(alloc, line, &mut row.report),
            _ => Ok(()),
        }
    }
}
