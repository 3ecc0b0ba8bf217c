//! The lines of a source with their numbers.

ghost use Rattle.std.specs.Prelude.{◌≡◌, ◌+◌, ◌<◌, ◌≤◌, ℕ, List, [], true, false};
ghost use Rattle.std.specs.Prelude.{IfOk, IfErr, IfSome};
ghost use Rattle.std.specs.declared.option.Option.{Option};
ghost use Rattle.cell_io.specs.Lines.{first_line, has_feed};
ghost use Rattle.cell_io.specs.Held.{ahead};
ghost use Rattle.cell_record.specs.Words.{content as content_of};
ghost use Rattle.cell_record.specs.EventLine.{same};
ghost use Rattle.cell_record.specs.Numbered.{Gives, GoesOn, NextLine, NoLine, FailsAtLine};
ghost use Rattle.cell_record.specs.PhaseLines.{HoldsLine};
ghost use Rattle.cell_record.specs.ToRead.{CountsFaults};
ghost use Rattle.cell_record.specs.Turned.{stop_told};

use crate::RecordError;
use crate::words::content;
use cell_io::{Lines, Source, Stop};
use std::alloc::Global;
use std::marker::Model;

/// What is told where the line of this number isn't given.
fn stopped(stop: Stop, number: u64) -> RecordError
    ensures { result ≡ stop_told number stop }
{
    match stop {
        Stop::Fault => RecordError::ReadFault,
        Stop::TooMuch => RecordError::TooMuch { line: number },
        Stop::Memory => RecordError::Memory,
    }
}

/// A reader of lines that counts them and keeps the last one.
#[derive(Drop)]
pub struct NumberedLines {
    lines: Lines,
    count: u64,
    line: Vec<u8>,
}

impl Model for NumberedLines {
    ghost use Rattle.std.specs.Prelude.{◌≤◌};
    ghost use Rattle.cell_record.specs.Numbered.{Numbered};

    ghost Value = { Numbered };

    ghost view = { λ s. record { held = s.lines; lines = s.count; line = s.line.items } };

    ghost invariant = { λ s. s.count ≤ s.lines.given };
}

impl NumberedLines {
    /// Nothing was read.
    pub fn new(alloc: Global) -> Result<NumberedLines, RecordError>
        ensures octets { IfOk result (λ s. s.held.octets ≡ []) }
        ensures given { IfOk result (λ s. s.held.given ≡ 0) }
        ensures unended { IfOk result (λ s. s.held.ended ≡ false) }
        ensures lines { IfOk result (λ s. s.lines ≡ 0) }
        ensures memory { IfErr result (λ e. e ≡ RecordError.Memory) }
    {
        Ok(NumberedLines {
            lines: Lines::new(alloc)?,
            count: 0,
            line: Vec::new(alloc),
        })
    }

    /// How many lines were given.
    pub fn count(&self) -> u64
        ensures count { result ≡ self.now.lines }
        ensures order { result ≤ self.now.held.given }
        ensures fewer { result ≤ 4294967296 }
    {
        let _given = self.lines.given();
        self.count
    }

    /// How many octets were given.
    pub fn given(&self) -> u64
        ensures given { result ≡ self.now.held.given }
        ensures most { result ≤ 4294967296 }
    {
        self.lines.given()
    }

    /// The content of the line that was given last, or as much as is kept of it.
    pub fn content(&self) -> &[u8]
        ensures { result.now ≡ content_of self.now.line }
    {
        content(&self.line)
    }

    /// Whether the content of the line that was given last, or as much as is kept of it, is this.
    pub fn is(&self, want: &[u8]) -> bool
        ensures { result ≡ same (content_of self.now.line) want.now }
    {
        self.content() == want
    }

    /// What is kept of the line that was given last, with its end.
    pub fn line(&self) -> &[u8]
        ensures { result.now ≡ self.now.line }
    {
        &self.line
    }

    /// What is held of the lines to come, as `Lines::held` tells it.
    pub fn held(&self) -> &[u8]
        ensures octets { self.now.held.ended ≡ false → result.now ≡ self.now.held.octets }
        ensures none { self.now.held.ended ≡ true → result.now ≡ [] }
    {
        self.lines.held()
    }

    /// Goes on behind the next line, which is held whole and has so many octets: the caller read it
    /// in its place, and nothing is kept of it.
    pub fn pass(&mut self, size: usize)
        requires { HoldsLine self.old.held size }
        ensures gives { (left : Option (List ℕ))
            → Gives (ahead self.old.held left) (ahead self.new.held left)
            (first_line self.old.held.octets) self.old.held.given self.new.held.given }
        ensures feed { (left : Option (List ℕ))
            → IfSome (ahead self.old.held left) (λ text. has_feed text ≡ true) }
        ensures unended { self.new.held.ended ≡ false }
        ensures count { self.new.lines ≡ self.old.lines + 1 }
        ensures grows { self.old.held.given < self.new.held.given }
        ensures most { self.new.held.given ≤ 4294967296 }
    {
        let _given = self.lines.given();
        self.lines.pass(size);
        self.count += 1;
    }

    /// Goes to the next line: false at the end of the input.
    pub fn next<S: Source>(&mut self, input: &mut S) -> Result<bool, RecordError>
        ensures line { IfOk result (λ more. more ≡ true
            → NextLine self.old (S.left input.old) self.new (S.left input.new)) }
        ensures none { IfOk result (λ more. more ≡ false
            → NoLine self.old (S.left input.old) self.new (S.left input.new)) }
        ensures fails { IfErr result (λ e.
            FailsAtLine self.old (S.left input.old) e self.new (S.left input.new)) }
        ensures goes { GoesOn self.old.held (S.left input.old) self.new.held (S.left input.new) }
        ensures faults { CountsFaults (S.faults input.old) (S.faults input.new) result }
    {
        let _given = self.lines.given();
        match self.lines.next(input, &mut self.line) {
            Ok(true) => {
                self.count += 1;
                Ok(true)
            }
            Ok(false) => Ok(false),
            Err(stop) => Err(stopped(stop, self.count + 1)),
        }
    }
}
