//! Marks in the lines of rows: texts under names, octets, and repetitions.

use crate::number::{number, octet};
use anyhow::{Context, Result, bail};
use std::alloc::{AllocError, Global};

/// Texts under names, which rows cite as `<NAME>`: each is what stands between its line `= NAME` and the next such
/// line.
#[derive(Clone, Copy)]
pub struct Shorthands<'a> {
    content: &'a str,
}

/// How a line begins and ends.
#[derive(Clone, Copy)]
struct Frame<'a> {
    /// How often the line stands.
    times: u32,
    /// What stands in it.
    text: &'a str,
    /// Whether it ends with a line feed.
    is_ended: bool,
}

impl<'a> Frame<'a> {
    /// A line behind `<*n>` stands n times, and one before `<+>` has no line feed.
    fn of(line: &'a str) -> Result<Frame<'a>> {
        let (text, is_ended) = match line.strip_suffix("<+>") {
            Some(text) => (text, false),
            None => (line, true),
        };
        let (times, text) = times_of(text)?;
        Ok(Frame {
            times,
            text,
            is_ended,
        })
    }
}

/// How often a line stands, and what stands in it.
fn times_of(line: &str) -> Result<(u32, &str)> {
    let Some(rest) = line.strip_prefix("<*") else {
        return Ok((1, line));
    };
    match rest.split_once('>') {
        Some((times, text)) => Ok((number(times)?, text)),
        None => Ok((1, line)),
    }
}

/// The name that stands before a text, and the text.
fn parts_of(piece: &str) -> (&str, &str) {
    let (name, text) = piece.split_once('\n').unwrap_or((piece, ""));
    (name, text.strip_suffix('\n').unwrap_or(text))
}

impl<'a> Shorthands<'a> {
    /// The texts of a file.
    pub fn of(content: &'a str) -> Shorthands<'a> {
        Shorthands { content }
    }

    /// The text under a name.
    fn get(&self, name: &str) -> Option<&'a str> {
        for piece in self.content.split("\n= ") {
            let (head, text) = parts_of(piece);
            if head == name {
                return Some(text);
            }
        }
        None
    }

    /// Puts a line behind `out`, as often as it stands, with what its marks stand for.
    pub(crate) fn put_line(&self, alloc: Global, line: &str, out: &mut Vec<u8>) -> Result<()> {
        let frame = Frame::of(line)?;
        for turn in 0..frame.times {
            self.put_text(alloc, frame.text, turn.saturating_add(1), out)?;
            if frame.is_ended {
                out.push(b'\n')?;
            }
        }
        Ok(())
    }

    /// Puts a text behind `out`, with what its marks stand for, where the line stands for that time.
    fn put_text(&self, alloc: Global, text: &str, turn: u32, out: &mut Vec<u8>) -> Result<()> {
        let mut pieces = text.split('<');
        out.extend_from_slice(pieces.next().unwrap_or("").as_bytes())?;
        for piece in pieces {
            let Some((mark, rest)) = piece.split_once('>') else {
                bail!("a mark has no end in {text:?}");
            };
            match (mark, self.get(mark)) {
                ("#", _) => out.extend_from_slice(turn.to_string(alloc)?.as_bytes())?,
                (_, Some(found)) => out.extend_from_slice(found.as_bytes())?,
                (_, None) => put_octets(mark, out).context(format_args!("no mark is <{mark}>"))?,
            }
            out.extend_from_slice(rest.as_bytes())?;
        }
        Ok(())
    }
}

/// Puts the octet that two digits, or two digits, `*` and a number of times, stand for.
fn put_octets(mark: &str, out: &mut Vec<u8>) -> Result<()> {
    let (digits, times) = match mark.split_once('*') {
        Some((digits, times)) => (digits, number(times)?),
        None => (mark, 1),
    };
    let Some(octet) = octet(digits) else {
        bail!("no octet is {digits:?}");
    };
    put_many(octet, times as usize, out)?;
    Ok(())
}

/// Puts an octet so many times.
fn put_many(octet: u8, times: usize, out: &mut Vec<u8>) -> Result<(), AllocError> {
    let end = out.len().saturating_add(times);
    out.resize(end, octet)
}
