//! Runs the rows of `data/`: recordings with the reports and statuses that they must have. What a row replays is served
//! by workers too. A row is a few lines of a file and takes no proof; docs/ROWS.md says how they are written.
#![tactic(auto)]

mod by_workers;
mod running;

use anyhow::{Context, Result};
use by_workers::{WORKERS, is_replayed, run_apart};
use row_files::{Row, Shorthands, rows_of};
use running::{Difference, first_difference};
use std::alloc::{AllocError, Global};
use std::fmt::Write;
use std::process::ExitCode;
use std::sync::Wait;
use std::thread::Threads;
use std::{fmt, fs};

/// The names of the files of a folder that end so, in order.
fn files_of(rt: &HostRuntime, folder: &str, ending: &str) -> Result<Vec<String>> {
    let mut names = Vec::new(rt.alloc());
    for entry in fs::read_dir(rt, folder)? {
        let entry = entry?;
        if entry.file_name().ends_with(ending) {
            names.push(String::from_str(rt.alloc(), entry.file_name())?)?;
        }
    }
    names.sort_unstable();
    Ok(names)
}

/// Puts the rows of a file behind `rows`.
fn put_rows(
    rt: &HostRuntime,
    file: &str,
    texts: Shorthands<'_>,
    rows: &mut Vec<Row>,
) -> Result<()> {
    let content = fs::read_to_string(rt, file).context(format_args!("reading {file}"))?;
    rows_of(rt.alloc(), file, &content, texts, rows).context(format_args!("in {file}"))
}

/// What is in a file.
fn content_of(rt: &HostRuntime, file: &str) -> Result<Vec<u8>> {
    Ok(fs::read(rt, file).context(format_args!("reading {file}"))?)
}

/// Takes a recording that stands in a file of its own, to be replayed to its end, with its report in the file beside it.
fn take_example(rt: &HostRuntime, row: &mut Row) -> Result<()> {
    row.put_word(rt.alloc(), "replay")?;
    row.recording = content_of(rt, &row.file)?;
    let name = row.file.strip_suffix(".mms").unwrap_or(&row.file);
    let beside = format!(in rt.alloc(); "{name}.report")?;
    row.report = content_of(rt, &beside)?;
    Ok(())
}

/// Puts an example behind `rows`.
fn put_example(rt: &HostRuntime, name: &str, rows: &mut Vec<Row>) -> Result<()> {
    let file = format!(in rt.alloc(); "examples/{name}")?;
    rows.push(Row::new(rt.alloc(), file, 1))?;
    match rows.last_mut() {
        Some(row) => take_example(rt, row),
        None => Ok(()),
    }
}

/// Puts the rows of the files `*.rows` behind `rows`.
fn put_files(rt: &HostRuntime, rows: &mut Vec<Row>) -> Result<()> {
    let content = fs::read_to_string(rt, "shorthands").context("reading shorthands")?;
    for file in &files_of(rt, ".", ".rows")? {
        put_rows(rt, file, Shorthands::of(&content), rows)?;
    }
    Ok(())
}

/// Puts the examples behind `rows`.
fn put_examples(rt: &HostRuntime, rows: &mut Vec<Row>) -> Result<()> {
    for name in &files_of(rt, "examples", ".mms")? {
        put_example(rt, name, rows)?;
    }
    Ok(())
}

/// Whether nothing differs. Else puts a line behind `differences`, with the number of workers, where there are some.
fn agrees(
    differences: &mut String,
    row: &Row,
    by: &str,
    apart: Option<Difference>,
) -> Result<bool, AllocError> {
    let Some(apart) = apart else {
        return Ok(true);
    };
    put_apart(differences, row, by, &apart)?;
    Ok(false)
}

/// Puts a line behind `differences`.
fn put_apart(
    differences: &mut String,
    row: &Row,
    by: &str,
    apart: &Difference,
) -> Result<(), AllocError> {
    let behind = if by.is_empty() { "" } else { ", by " };
    writeln!(
        differences,
        "{}, line {}{behind}{by}: {apart}",
        row.file, row.line
    )
}

/// How many rows agree. Puts a line for each that differs behind `differences`.
fn agreeing_rows<R: Threads + Wait + Sync>(
    rt: &R,
    alloc: Global,
    rows: &[Row],
    differences: &mut String,
) -> Result<u64> {
    let mut agree = 0u64;
    for row in rows {
        let apart = first_difference(rt, alloc, row)?;
        if agrees(differences, row, "", apart)? {
            agree = agree.saturating_add(1);
        }
    }
    Ok(agree)
}

/// How many runs by workers agree, of the recordings that the rows replay. Puts a line for each that differs behind
/// `differences`.
fn agreeing_runs<R: Threads + Wait + Sync>(
    rt: &R,
    alloc: Global,
    rows: &[Row],
    differences: &mut String,
) -> Result<u64> {
    let mut agree = 0u64;
    for row in rows {
        if !is_replayed(row) {
            continue;
        }
        for by in WORKERS {
            let apart = run_apart(rt, alloc, row, by)?;
            if agrees(differences, row, by, apart)? {
                agree = agree.saturating_add(1);
            }
        }
    }
    Ok(agree)
}

/// How many rows agree, and how many runs by workers of the recordings that they replay. Puts a line for each that
/// differs behind `differences`.
fn agreeing<R: Threads + Wait + Sync>(
    rt: &R,
    alloc: Global,
    rows: &[Row],
    differences: &mut String,
) -> Result<(u64, u64)> {
    let agree = agreeing_rows(rt, alloc, rows, differences)?;
    let runs = agreeing_runs(rt, alloc, rows, differences)?;
    Ok((agree, runs))
}

/// Runs all rows, those of the files `*.rows` and the examples, and the recordings that they replay by workers too. Prints
/// a line for each that differs, and how many agree.
fn main(rt: HostRuntime) -> Result<ExitCode> {
    let mut rows = Vec::new(rt.alloc());
    put_files(&rt, &mut rows)?;
    put_examples(&rt, &mut rows)?;
    let mut differences = String::new(rt.alloc());
    let (agree, runs) = agreeing(&rt, rt.alloc(), &rows, &mut differences)?;
    print!(rt; "{differences}{agree} rows agree\n{runs} runs by workers agree\n")?;
    Ok(ExitCode::from(u8::from(!differences.is_empty())))
}
