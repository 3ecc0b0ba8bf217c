//! The lines of one phase.

ghost use Rattle.std.specs.Prelude.{◌≡◌, ◌+◌, ◌<◌, ◌≤◌, ℕ, List, true, false};
ghost use Rattle.std.specs.Prelude.{IfOk, IfErr, IfSome, IfNone, OnOk};
ghost use Rattle.std.specs.declared.option.Option.{Option};
ghost use Rattle.cell_record.specs.Numbered.{phases, after_phase, IsWithin, GoesOn};
ghost use Rattle.cell_record.specs.PhaseLines.{HoldsLine, SaysSent, SaysLine, RefusesLine};
ghost use Rattle.cell_record.specs.PhaseLines.{EndsPhases};
ghost use Rattle.cell_record.specs.ToRead.{to_read, FailsInPhase, CountsFaults};
ghost use Rattle.cell_record.specs.ToRead.{IsNextPhase};
ghost use Rattle.cell_record.specs.Turned.{line_told};

use crate::RecordError;
use crate::counts::Counts;
use crate::cut::{Sent, first_sent};
use crate::event_line::{heard, said};
use crate::numbered::NumberedLines;
use crate::said::{LineError, LineMeaning};
use cell_config::Config;
use cell_io::{MOST, Source};
use mms_types::Events;
use std::alloc::Global;

/// A phase's events, and whether the input ends with it.
#[derive(Drop)]
pub struct Piece {
    pub events: Events,
    pub last: bool,
}

/// What is told where the line of this number says nothing.
fn at_line(error: LineError, number: u64) -> RecordError
    ensures { result ≡ line_told number error }
{
    match error {
        LineError::Bad(word) => RecordError::Bad { line: number, word },
        LineError::Memory => RecordError::Memory,
    }
}

/// Goes on behind the line that `sent` was read from where it is held, and tells what it says.
#[inline(always)]
fn held_said(
    lines: &mut NumberedLines,
    config: &Config,
    counts: &mut Counts,
    sent: Sent,
) -> Result<LineMeaning, RecordError>
    requires counts { IsWithin counts.old }
    requires line { HoldsLine lines.old.held sent.size }
    requires says { SaysSent lines.old.held.octets sent.client sent.octets }
    ensures says { IfOk result (λ said. (left : Option (List ℕ)) → SaysLine config.now said
        lines.old counts.old left lines.new counts.new left) }
    ensures refused { IfErr result (λ e. RefusesLine config.now e lines.old counts.old) }
    ensures unended { lines.new.held.ended ≡ false }
    ensures grows { lines.old.held.given < lines.new.held.given }
    ensures most { lines.new.held.given ≤ 4294967296 }
{
    let number = lines.count() + 1;
    lines.pass(sent.size);
    match heard(config, Some(sent.client), Some(sent.octets)) {
        Ok(said) => match counts.count(number, &said) {
            None => Ok(said),
            Some(refusal) => Err(refusal),
        },
        Err(word) => Err(RecordError::Bad { line: number, word }),
    }
}

/// Reads the next line into a buffer of its own, and tells what it says: None at the end of the
/// input. The buffer is for `said`.
fn copied_said<S: Source>(
    alloc: Global,
    lines: &mut NumberedLines,
    config: &Config,
    counts: &mut Counts,
    buffer: &mut Vec<u8>,
    input: &mut S,
) -> Result<Option<LineMeaning>, RecordError>
    requires { IsWithin counts.old }
    ensures says { IfOk result (λ o. IfSome o (λ said. SaysLine config.now said
        lines.old counts.old (S.left input.old) lines.new counts.new (S.left input.new))) }
    ensures none { IfOk result (λ o. IfNone o (EndsPhases config.now
        lines.old counts.old (S.left input.old) lines.new counts.new (S.left input.new))) }
    ensures fails { IfErr result (λ e. FailsInPhase
        (to_read (phases config.now counts.old) lines.old (S.left input.old))
        e (S.left input.new)) }
    ensures goes { GoesOn lines.old.held (S.left input.old) lines.new.held (S.left input.new) }
    ensures faults { CountsFaults (S.faults input.old) (S.faults input.new) result }
{
    let number = lines.count() + 1;
    let _given = lines.given();
    if !lines.next(input)? {
        return Ok(None);
    }
    match said(alloc, config, lines.content(), buffer) {
        Ok(said) => match counts.count(number, &said) {
            None => Ok(Some(said)),
            Some(refusal) => Err(refusal),
        },
        Err(error) => Err(at_line(error, number)),
    }
}

/// Reads the next line, and tells what it says: None at the end of the input. Most lines are cut
/// and decoded where they are held, and aren't copied. The buffer is for the octets of a line; what
/// it holds is of no account.
#[inline(always)]
fn next_said<S: Source>(
    alloc: Global,
    lines: &mut NumberedLines,
    config: &Config,
    counts: &mut Counts,
    buffer: &mut Vec<u8>,
    input: &mut S,
) -> Result<Option<LineMeaning>, RecordError>
    requires { IsWithin counts.old }
    ensures says { IfOk result (λ o. IfSome o (λ said. SaysLine config.now said
        lines.old counts.old (S.left input.old) lines.new counts.new (S.left input.new))) }
    ensures none { IfOk result (λ o. IfNone o (EndsPhases config.now
        lines.old counts.old (S.left input.old) lines.new counts.new (S.left input.new))) }
    ensures fails { IfErr result (λ e. FailsInPhase
        (to_read (phases config.now counts.old) lines.old (S.left input.old))
        e (S.left input.new)) }
    ensures goes { GoesOn lines.old.held (S.left input.old) lines.new.held (S.left input.new) }
    ensures faults { CountsFaults (S.faults input.old) (S.faults input.new) result }
{
    let given = lines.given();
    match first_sent(alloc, lines.held(), buffer)? {
        Some(sent) if sent.size as u64 <= MOST - given => {
            match held_said(lines, config, counts, sent) {
                Ok(said) => Ok(Some(said)),
                Err(refusal) => Err(refusal),
            }
        }
        _ => copied_said(alloc, lines, config, counts, buffer, input),
    }
}

/// Reads the lines up to the phase's end. The buffer is for `said`. It is a function of its own in
/// the program too, so that its loop has the registers for itself.
#[inline(never)]
pub fn read_phase<S: Source>(
    alloc: Global,
    lines: &mut NumberedLines,
    config: &Config,
    counts: &mut Counts,
    buffer: &mut Vec<u8>,
    input: &mut S,
) -> Result<Piece, RecordError>
    requires within { IsWithin counts.old }
    requires begins { counts.old.events ≡ 0 }
    ensures phase { IfOk result (λ p. IsNextPhase config.now p.events
        (to_read (phases config.now counts.old) lines.old (S.left input.old)) counts.old.moment
        (to_read (after_phase config.now p.last counts.new.moment) lines.new (S.left input.new))
        counts.new.moment) }
    ensures within { OnOk result (IsWithin counts.new) }
    ensures over { IfOk result (λ p. p.last ≡ true → lines.new.held.ended ≡ true) }
    ensures grows { IfOk result (λ p. p.last ≡ false
        → lines.old.held.given < lines.new.held.given) }
    ensures fails { IfErr result (λ e. FailsInPhase
        (to_read (phases config.now counts.old) lines.old (S.left input.old))
        e (S.left input.new)) }
    ensures goes { GoesOn lines.old.held (S.left input.old) lines.new.held (S.left input.new) }
    ensures faults { CountsFaults (S.faults input.old) (S.faults input.new) result }
{
    let mut events = Events::new(alloc);
    let _given = lines.given();
    for _turn in 0..MOST + 1 {
        match next_said(alloc, lines, config, counts, buffer, input)? {
            Some(LineMeaning::Nothing) => continue,
            Some(LineMeaning::Phase) => {
                return Ok(Piece {
                    events,
                    last: false,
                });
            }
            Some(LineMeaning::Happens(event)) => events.push(event)?,
            None => return Ok(Piece { events, last: true }),
        }
    }
    unreachable!()
}
