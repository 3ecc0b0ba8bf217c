//! The lines of a recording up to `end`, and the configuration in them.

ghost use Rattle.std.specs.Prelude.{◌≡◌, ◌+◌, ◌<◌, ◌≤◌, ◌++◌, [], true, false, ℕ, List, length};
ghost use Rattle.std.specs.Prelude.{IfOk, IfErr, OnOk, Some, None, Err};
ghost use Rattle.cell_config.specs.Said.{IsConfig};
ghost use Rattle.mms_types.specs.declared.identifier.Edition.{Edition};
ghost use Rattle.cell_record.specs.Recording.{Place, Opening, header_of, headed, expected, in_text};
ghost use Rattle.cell_record.specs.Recording.{size_by, setup_word, opened, configured, opening_of};
ghost use Rattle.cell_record.specs.Numbered.{GoesOn, setup};
ghost use Rattle.cell_record.specs.Progress.{IsStated};
ghost use Rattle.cell_record.specs.ToRead.{to_read, Follows, FailsInOpening, CountsFaults};
ghost use Rattle.cell_record.specs.Turned.{config_told};

use crate::numbered::NumberedLines;
use crate::words::content;
use crate::{BadWord, RecordError};
use cell_config::{BadConfig, Config, read_config};
use cell_io::{MOST, Source};
use mms_types::Edition;
use std::alloc::Global;

const MOST_IN_LINE: usize = 196_608;

const MOST_IN_TEXT: u64 = 1_048_576;

/// The edition of which the recording is that begins with this line.
fn edition_of(line: &[u8]) -> Option<Edition>
    ensures { result ≡ header_of line.now }
{
    if line == b"mms-recording 1".as_slice() {
        Some(Edition::One)
    } else if line == b"mms-recording 2".as_slice() {
        Some(Edition::Two)
    } else {
        None
    }
}

/// The edition of the recording whose line of this number is its header, or the refusal of that
/// line.
fn header(line: &[u8], number: u64) -> Result<Edition, RecordError>
    ensures named { IfOk result (λ edition. header_of line.now ≡ Some edition) }
    ensures unnamed { IfErr result (λ e. (header_of line.now ≡ None)
        × (e ≡ RecordError.Bad number BadWord.Header)) }
{
    match edition_of(line) {
        Some(edition) => Ok(edition),
        None => Err(RecordError::Bad {
            line: number,
            word: BadWord::Header,
        }),
    }
}

/// Reads the header, and gives the edition of the recording.
fn read_header<S: Source>(lines: &mut NumberedLines, input: &mut S) -> Result<Edition, RecordError>
    ensures there { IfOk result (λ edition. (next : Edition → List (List ℕ) → Place → Opening)
        → Follows (to_read (headed next) lines.old (S.left input.old)) (λ r. r)
        (to_read (next edition) lines.new (S.left input.new))) }
    ensures fails { IfErr result (λ e. (next : Edition → List (List ℕ) → Place → Opening)
        → FailsInOpening (to_read (headed next) lines.old (S.left input.old))
        e (S.left input.new)) }
    ensures memory { IfErr result (λ e. e ≡ RecordError.Memory
        → (lines.new.lines ≡ lines.old.lines) × (lines.new.held.ended ≡ false)) }
    ensures grows { OnOk result (lines.old.held.given < lines.new.held.given) }
    ensures goes { GoesOn lines.old.held (S.left input.old) lines.new.held (S.left input.new) }
    ensures faults { CountsFaults (S.faults input.old) (S.faults input.new) result }
{
    let line = lines.count() + 1;
    let word = BadWord::Header;
    let _given = lines.given();
    if !lines.next(input)? {
        return Err(RecordError::Bad { line, word });
    }
    header(lines.content(), line)
}

/// Reads the next line, which is to be this one, or else is refused by the word.
fn expect<S: Source>(
    lines: &mut NumberedLines,
    input: &mut S,
    want: &[u8],
    word: BadWord,
) -> Result<(), RecordError>
    requires short { length want.now < 196608 }
    ensures there { OnOk result ((next : List (List ℕ) → Place → Opening)
        → Follows (to_read (expected want.now word next) lines.old (S.left input.old)) (λ r. r)
        (to_read next lines.new (S.left input.new))) }
    ensures fails { IfErr result (λ e. (next : List (List ℕ) → Place → Opening)
        → FailsInOpening (to_read (expected want.now word next) lines.old (S.left input.old))
        e (S.left input.new)) }
    ensures memory { IfErr result (λ e. e ≡ RecordError.Memory
        → (lines.new.lines ≡ lines.old.lines) × (lines.new.held.ended ≡ false)) }
    ensures grows { OnOk result (lines.old.held.given < lines.new.held.given) }
    ensures goes { GoesOn lines.old.held (S.left input.old) lines.new.held (S.left input.new) }
    ensures faults { CountsFaults (S.faults input.old) (S.faults input.new) result }
{
    let number = lines.count() + 1;
    let _given = lines.given();
    if !lines.next(input)? {
        return Err(RecordError::Bad { line: number, word });
    }
    if lines.is(want) {
        Ok(())
    } else {
        Err(RecordError::Bad { line: number, word })
    }
}

/// How much a line adds to the configuration's text, of which so much is kept and which has so many
/// octets as it stands.
fn size_in_text(line: &[u8], whole: u64) -> u64
    requires { whole ≤ 4294967296 }
    ensures size { result ≡ size_by whole line.now }
    ensures small { result ≤ 4294967296 }
{
    let content = content(line);
    if content.len() > MOST_IN_LINE {
        whole
    } else {
        content.len() as u64 + 1
    }
}

/// Which rule a line of the configuration breaks, with which the text has so many octets.
fn broken(total: u64, line: &[u8]) -> Option<BadWord>
    ensures { result ≡ setup_word total line.now }
{
    if total > MOST_IN_TEXT {
        Some(BadWord::Config)
    } else if content(line).len() > MOST_IN_LINE {
        Some(BadWord::Long)
    } else {
        None
    }
}

/// Puts a line behind the configuration's text: its content and one line feed.
fn add_line(text: &mut Vec<u8>, line: &[u8]) -> Result<(), RecordError>
    ensures text { OnOk result (text.new.items ≡ text.old.items ++ in_text line.now) }
    ensures memory { IfErr result (λ e. e ≡ RecordError.Memory) }
{
    text.extend_from_slice(content(line))?;
    text.push(b'\n')?;
    Ok(())
}

/// Reads the next line of the configuration, behind those that have this text: true where it is
/// `end`.
fn read_setup_line<S: Source>(
    lines: &mut NumberedLines,
    input: &mut S,
    text: &mut Vec<u8>,
) -> Result<bool, RecordError>
    requires { length text.old.items ≤ 1048576 }
    ensures more { IfOk result (λ end. end ≡ false → (edition : Edition)
        → Follows (to_read (setup edition text.old.items) lines.old (S.left input.old)) (λ r. r)
        (to_read (setup edition text.new.items) lines.new (S.left input.new))) }
    ensures end { IfOk result (λ end. end ≡ true → (edition : Edition)
        → Follows (to_read (setup edition text.old.items) lines.old (S.left input.old)) (λ r. r)
        (to_read (configured edition text.new.items) lines.new (S.left input.new))) }
    ensures size { OnOk result (length text.new.items ≤ 1048576) }
    ensures fails { IfErr result (λ e. (edition : Edition)
        → FailsInOpening (to_read (setup edition text.old.items) lines.old (S.left input.old))
        e (S.left input.new)) }
    ensures grows { OnOk result (lines.old.held.given < lines.new.held.given) }
    ensures goes { GoesOn lines.old.held (S.left input.old) lines.new.held (S.left input.new) }
    ensures faults { CountsFaults (S.faults input.old) (S.faults input.new) result }
{
    let number = lines.count() + 1;
    let before = lines.given();
    if !lines.next(input)? {
        return Err(RecordError::Bad {
            line: number,
            word: BadWord::Config,
        });
    }
    if lines.is(b"end") {
        return Ok(true);
    }
    let whole = lines.given() - before;
    let total = text.len() as u64 + size_in_text(lines.line(), whole);
    match broken(total, lines.line()) {
        None => {}
        Some(word) => return Err(RecordError::Bad { line: number, word }),
    }
    add_line(text, lines.line())?;
    Ok(false)
}

/// Reads the configuration's lines and the line `end`, and gives the configuration's text.
fn read_setup<S: Source>(
    alloc: Global,
    lines: &mut NumberedLines,
    input: &mut S,
) -> Result<Vec<u8>, RecordError>
    ensures text { IfOk result (λ text. (edition : Edition)
        → Follows (to_read (setup edition []) lines.old (S.left input.old)) (λ r. r)
        (to_read (configured edition text.items) lines.new (S.left input.new))) }
    ensures fails { IfErr result (λ e. (edition : Edition)
        → FailsInOpening (to_read (setup edition []) lines.old (S.left input.old))
        e (S.left input.new)) }
    ensures grows { OnOk result (lines.old.held.given < lines.new.held.given) }
    ensures goes { GoesOn lines.old.held (S.left input.old) lines.new.held (S.left input.new) }
    ensures faults { CountsFaults (S.faults input.old) (S.faults input.new) result }
{
    let mut text = Vec::new(alloc);
    let _given = lines.given();
    for _turn in 0..MOST + 1 {
        if read_setup_line(lines, input, &mut text)? {
            return Ok(text);
        }
    }
    unreachable!()
}

/// What is told where the configuration's text is none.
fn unconfigured(bad: BadConfig) -> RecordError
    ensures { result ≡ config_told bad }
{
    match bad {
        BadConfig::Rule(rule) => RecordError::BadConfig { rule },
        BadConfig::Memory => RecordError::Memory,
    }
}

/// The configuration that the text of its lines tells in an edition.
fn read_text(alloc: Global, text: &[u8], edition: Edition) -> Result<Config, RecordError>
    ensures config { IfOk result (λ config. (lines : List (List ℕ)) (p : Place)
        → configured edition text.now lines p ≡ opened config lines p) }
    ensures valid { IfOk result IsConfig }
    ensures rule { IfErr result (λ e. IsStated e → (lines : List (List ℕ)) (p : Place)
        → configured edition text.now lines p ≡ Err e) }
    ensures known { IfErr result (λ e. e ≡ RecordError.ReadFault → ⊥) }
{
    match read_config(alloc, text, edition) {
        Ok(config) => Ok(config),
        Err(bad) => Err(unconfigured(bad)),
    }
}

/// Reads the lines of a recording up to `end`, and gives the configuration.
pub fn read_opening<S: Source>(
    alloc: Global,
    lines: &mut NumberedLines,
    input: &mut S,
) -> Result<Config, RecordError>
    ensures opens { IfOk result (λ config.
        Follows (to_read opening_of lines.old (S.left input.old)) (λ r. r)
        (to_read (opened config) lines.new (S.left input.new))) }
    ensures valid { IfOk result IsConfig }
    ensures fails { IfErr result (λ e.
        FailsInOpening (to_read opening_of lines.old (S.left input.old)) e (S.left input.new)) }
    ensures grows { OnOk result (lines.old.held.given + 3 ≤ lines.new.held.given) }
    ensures goes { GoesOn lines.old.held (S.left input.old) lines.new.held (S.left input.new) }
    ensures faults { CountsFaults (S.faults input.old) (S.faults input.new) result }
{
    let edition = read_header(lines, input)?;
    expect(lines, input, b"config", BadWord::Config)?;
    let text = read_setup(alloc, lines, input)?;
    read_text(alloc, &text, edition)
}
