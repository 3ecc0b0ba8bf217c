//! What an event line says.

ghost use Rattle.std.specs.Prelude.{◌≡◌, IfOk, IfErr, Ok, Err, nat_eq, codes};
ghost use Rattle.cell_record.specs.Words.{number_of, pairs_of, word_of, argument_of};
ghost use Rattle.cell_record.specs.Words.{trim as trimmed};
ghost use Rattle.cell_record.specs.Turned.{name_told};
ghost use Rattle.cell_record.specs.EventLine.{said_of, trimmed_says, worded, heard_of, lost_of};
ghost use Rattle.cell_record.specs.EventLine.{tick_of, ends_of, IsCause, MayHappen};

use crate::BadWord;
use crate::digits::{number, pairs};
use crate::said::{LineError, LineMeaning};
use crate::words::{begins_with_digit, first_word, is_remark, trim};
use cell_config::Config;
use mms_types::{CellEvent, Identifier, Octets, Unnamed};
use std::alloc::Global;

const MOST_IN_LINE: usize = 196_608;

const MOST_IN_PDU: usize = 65_000;

const MOST_IN_TICK: u32 = 3_600_000;

/// What is told where a rule decides, which takes no memory.
fn told(said: Result<LineMeaning, BadWord>) -> Result<LineMeaning, LineError>
    ensures says { IfOk said (λ s. result ≡ Ok s) }
    ensures bad { IfErr said (λ word. result ≡ Err (LineError.Bad word)) }
{
    match said {
        Ok(said) => Ok(said),
        Err(word) => Err(LineError::Bad(word)),
    }
}

/// What is told where no name was made.
fn unnamed(error: Unnamed) -> LineError
    ensures { result ≡ name_told error }
{
    match error {
        Unnamed::Bad(_) => LineError::Bad(BadWord::Event),
        Unnamed::Memory => LineError::Memory,
    }
}

/// That a client sent octets.
pub fn heard(
    config: &Config,
    client: Option<u32>,
    octets: Option<Octets>,
) -> Result<LineMeaning, BadWord>
    ensures says { result ≡ heard_of config.now client octets }
    ensures may { IfOk result (MayHappen config.now) }
{
    let (Some(client), Some(octets)) = (client, octets) else {
        return Err(BadWord::Hex);
    };
    if octets.is_empty() || octets.len() > MOST_IN_PDU {
        return Err(BadWord::Hex);
    }
    if client < 1 || client > config.clients {
        return Err(BadWord::Client);
    }
    Ok(LineMeaning::Happens(CellEvent::Heard { client, octets }))
}

/// That a client's association was lost.
fn lost(config: &Config, client: Option<u32>) -> Result<LineMeaning, BadWord>
    ensures says { result ≡ lost_of config.now client }
    ensures may { IfOk result (MayHappen config.now) }
{
    let Some(client) = client else {
        return Err(BadWord::Event);
    };
    if client < 1 || client > config.clients {
        return Err(BadWord::Client);
    }
    Ok(LineMeaning::Happens(CellEvent::Lost { client }))
}

/// That time went by.
fn tick(config: &Config, ms: Option<u32>) -> Result<LineMeaning, BadWord>
    ensures says { result ≡ tick_of ms }
    ensures may { IfOk result (MayHappen config.now) }
{
    let Some(ms) = ms else {
        return Err(BadWord::Event);
    };
    if ms < 1 || ms > MOST_IN_TICK {
        return Err(BadWord::Event);
    }
    Ok(LineMeaning::Happens(CellEvent::Tick { ms }))
}

/// That a program invocation came to its end.
fn ends(alloc: Global, config: &Config, name: &[u8]) -> Result<LineMeaning, LineError>
    ensures says { IfOk result (λ s. ends_of config.now name.now ≡ Ok s) }
    ensures bad { IfErr result (λ e. IsCause (ends_of config.now name.now) e) }
    ensures may { IfOk result (MayHappen config.now) }
{
    match Identifier::read(alloc, name, config.edition) {
        Ok(name) => Ok(LineMeaning::Happens(CellEvent::Ends { name })),
        Err(error) => Err(unnamed(error)),
    }
}

/// What a line says by its first word.
fn by_word(alloc: Global, config: &Config, line: &[u8]) -> Result<LineMeaning, LineError>
    ensures says { IfOk result (λ s.
        worded config.now line.now (word_of line.now) (argument_of line.now) ≡ Ok s) }
    ensures bad { IfErr result (λ e. IsCause
        (worded config.now line.now (word_of line.now) (argument_of line.now)) e) }
    ensures may { IfOk result (MayHappen config.now) }
{
    if line == b"phase".as_slice() {
        return Ok(LineMeaning::Phase);
    }
    let parted = first_word(line);
    if parted.word == b"lost".as_slice() {
        return told(lost(config, number(parted.argument)));
    }
    if parted.word == b"tick".as_slice() {
        return told(tick(config, number(parted.argument)));
    }
    if parted.word == b"ends".as_slice() {
        return ends(alloc, config, parted.argument);
    }
    told(Err(BadWord::Event))
}

/// What a line says that begins with a digit.
fn by_client(
    alloc: Global,
    config: &Config,
    line: &[u8],
    buffer: &mut Vec<u8>,
) -> Result<LineMeaning, LineError>
    ensures says { IfOk result (λ s. heard_of config.now
        (number_of (word_of line.now)) (pairs_of (argument_of line.now)) ≡ Ok s) }
    ensures bad { IfErr result (λ e. IsCause (heard_of config.now
        (number_of (word_of line.now)) (pairs_of (argument_of line.now))) e) }
    ensures may { IfOk result (MayHappen config.now) }
{
    let parted = first_word(line);
    let octets = pairs(alloc, parted.argument, buffer)?;
    told(heard(config, number(parted.word), octets))
}

/// What a line says that has no blanks at its ends.
fn trimmed(
    alloc: Global,
    config: &Config,
    line: &[u8],
    buffer: &mut Vec<u8>,
) -> Result<LineMeaning, LineError>
    ensures says { IfOk result (λ s. trimmed_says config.now line.now ≡ Ok s) }
    ensures bad { IfErr result (λ e. IsCause (trimmed_says config.now line.now) e) }
    ensures may { IfOk result (MayHappen config.now) }
{
    if begins_with_digit(line) {
        return by_client(alloc, config, line, buffer);
    }
    if is_remark(line) {
        return Ok(LineMeaning::Nothing);
    }
    by_word(alloc, config, line)
}

/// What the content of an event line says, under a configuration. The buffer is kept from
/// line to line; what it holds is of no account.
pub fn said(
    alloc: Global,
    config: &Config,
    line: &[u8],
    buffer: &mut Vec<u8>,
) -> Result<LineMeaning, LineError>
    ensures says { IfOk result (λ s. said_of config.now line.now ≡ Ok s) }
    ensures bad { IfErr result (λ e. IsCause (said_of config.now line.now) e) }
    ensures may { IfOk result (MayHappen config.now) }
{
    if line.len() > MOST_IN_LINE {
        return told(Err(BadWord::Long));
    }
    trimmed(alloc, config, trim(line), buffer)
}
