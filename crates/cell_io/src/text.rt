ghost use Rattle.std.specs.Prelude.{◌≡◌, ◌+◌, [], ◌∷◌, ◌++◌, ◌≤◌, ◌<◌, length, decimal, take, vec_len, IfOk, OnOk, OnErr};
ghost use Rattle.std.specs.Io.KnownBytes.{Appends};
ghost use Rattle.cell_io.specs.Faults.{CountsFault};
ghost use Rattle.cell_io.specs.Hex.{upper};
ghost use Rattle.cell_io.specs.Prefix.{AppendsPrefix, AppendsBefore};

use crate::hex::encode;
use crate::spelled::{Spelled, WIDTH};
use crate::{Failed, Memory, Sink, write_all};
use itoa::Buffer;
use std::alloc::Global;
use std::marker::Model;

/// How many octets wait before they are written.
const PIECE: usize = 1 << 14;

/// How much room is asked for at once: more than waits of a report. What isn't written of it takes no
/// memory, but once a block of this size was released, the C library keeps as much for the blocks to come and
/// doesn't give back to the system, phase by phase, what a phase took.
const ROOM: usize = 1 << 22;

/// Text on its way to a sink, to which it goes in pieces of 16 KiB and more. Contracts see the octets that still wait.
#[derive(Drop)]
pub struct Text {
    buffer: Vec<u8>,
    end: usize,
    /// The digits of the number of tens that was spelled last. Ten numbers in a row have the same.
    tens: Spelled,
}

impl Model for Text {
    ghost use Rattle.std.specs.Prelude.{ℕ, List, ◌≤◌, take, length};

    ghost Value = { List ℕ };

    ghost view = { λ text. take text.end text.buffer.items };

    ghost invariant = { λ text. text.end ≤ length text.buffer.items };
}

/// Makes a buffer longer, for so many octets more behind `end`. Tells where these end.
#[cold]
#[inline(never)]
fn lengthen(buffer: &mut Vec<u8>, end: usize, more: usize) -> Result<usize, Memory>
    requires { end ≤ vec_len buffer.old }
    ensures end { IfOk result (λ new. new ≡ end + more) }
    ensures room { IfOk result (λ new. new ≤ vec_len buffer.new) }
    ensures longer { vec_len buffer.old ≤ vec_len buffer.new }
    ensures kept { take end buffer.new.items ≡ take end buffer.old.items }
{
    let Some(new) = end.checked_add(more) else {
        return Err(Memory::wanting());
    };
    if buffer.len() < new {
        buffer.resize(new, 0)?;
    }
    Ok(new)
}

/// Makes room in a buffer for so many octets more behind `end`. Tells where these end.
#[inline(always)]
fn room(buffer: &mut Vec<u8>, end: usize, more: usize) -> Result<usize, Memory>
    requires { end ≤ vec_len buffer.old }
    ensures end { IfOk result (λ new. new ≡ end + more) }
    ensures room { IfOk result (λ new. new ≤ vec_len buffer.new) }
    ensures longer { vec_len buffer.old ≤ vec_len buffer.new }
    ensures kept { take end buffer.new.items ≡ take end buffer.old.items }
{
    if buffer.len() - end < more {
        return lengthen(buffer, end, more);
    }
    Ok(end + more)
}

/// Puts the digits of a number behind `end`. Tells where they end.
#[inline(always)]
fn put_spelled(buffer: &mut Vec<u8>, end: usize, number: &Spelled) -> Result<usize, Memory>
    requires { end ≤ vec_len buffer.old }
    ensures within { IfOk result (λ new. new ≤ vec_len buffer.new) }
    ensures text { IfOk result
        (λ new. take new buffer.new.items ≡ take end buffer.old.items ++ decimal number.now) }
    ensures order { IfOk result (λ new. end ≤ new) }
    ensures longer { vec_len buffer.old ≤ vec_len buffer.new }
    ensures kept { OnErr result (take end buffer.new.items ≡ take end buffer.old.items) }
{
    let most = room(buffer, end, WIDTH)?;
    let size = number.put(&mut buffer.as_mut_slice()[end..most]);
    Ok(end + size)
}

/// Puts octets behind `end`. Tells where they end.
#[inline(always)]
fn put_octets(buffer: &mut Vec<u8>, end: usize, octets: &[u8]) -> Result<usize, Memory>
    requires { end ≤ vec_len buffer.old }
    ensures within { IfOk result (λ new. new ≤ vec_len buffer.new) }
    ensures text { IfOk result
        (λ new. take new buffer.new.items ≡ take end buffer.old.items ++ octets.now) }
    ensures longer { vec_len buffer.old ≤ vec_len buffer.new }
    ensures kept { OnErr result (take end buffer.new.items ≡ take end buffer.old.items) }
{
    let most = room(buffer, end, octets.len())?;
    buffer.as_mut_slice()[end..most].copy_from_slice(octets);
    Ok(most)
}

impl Text {
    /// Nothing waits, and there is room for many pieces.
    pub fn new(alloc: Global) -> Result<Text, Memory>
        ensures { IfOk result (λ text. text ≡ []) }
    {
        let mut buffer = Vec::with_capacity(alloc, ROOM)?;
        buffer.resize(2 * PIECE, 0)?;
        Ok(Text {
            buffer,
            end: 0,
            tens: Spelled::new(),
        })
    }

    /// Puts octets to the end.
    #[inline(always)]
    pub fn put(&mut self, octets: &[u8]) -> Result<(), Memory>
        ensures ok { OnOk result (self.new ≡ self.old ++ octets.now) }
        ensures err { OnErr result (self.new ≡ self.old) }
    {
        self.end = put_octets(&mut self.buffer, self.end, octets)?;
        Ok(())
    }

    /// Puts a number's decimal digits to the end.
    #[tactic(auto, using(crate::proofs::Digits::one_digit))]
    pub fn put_number(&mut self, n: u64) -> Result<(), Memory>
        ensures ok { OnOk result (self.new ≡ self.old ++ decimal n) }
        ensures err { OnErr result (self.new ≡ self.old) }
    {
        if n < 10 {
            return self.put(&[b'0' + n as u8]);
        }
        self.put(Buffer::new().format(n).as_bytes())
    }

    /// Puts a number's decimal digits and a blank to the end.
    #[inline(always)]
    pub fn put_number_before_blank(&mut self, n: u64) -> Result<(), Memory>
        ensures ok { OnOk result (self.new ≡ self.old ++ decimal n ++ 32 ∷ []) }
        ensures err { OnErr result (self.new ≡ self.old) }
    {
        let last = b'0' + (n % 10) as u8;
        if n < 10 {
            return self.put(&[last, b' ']);
        }
        if n < 100 {
            return self.put(&[b'0' + (n / 10) as u8, last, b' ']);
        }
        self.tens.spell(n / 10);
        let end = put_spelled(&mut self.buffer, self.end, &self.tens)?;
        self.end = put_octets(&mut self.buffer, end, &[last, b' '])?;
        Ok(())
    }

    /// Puts octets as pairs of hexadecimal digits in upper case, and a line feed, to the end.
    #[inline(always)]
    pub fn put_hex_line(&mut self, octets: &[u8]) -> Result<(), Memory>
        ensures ok { OnOk result (self.new ≡ self.old ++ upper octets.now ++ 10 ∷ []) }
        ensures err { OnErr result (self.new ≡ self.old) }
    {
        let end = room(&mut self.buffer, self.end, 2 * octets.len() + 1)?;
        let feed = end - 1;
        encode(octets, &mut self.buffer.as_mut_slice()[self.end..feed]);
        self.buffer.as_mut_slice()[feed] = b'\n';
        self.end = end;
        Ok(())
    }

    /// Writes what waits, where it is a piece or more, so that less than a piece waits afterwards. After `Failed` a prefix
    /// of it may have been written, and nothing waits.
    #[inline(always)]
    pub fn pass<K: Sink>(&mut self, out: &mut K) -> Result<(), Failed>
        ensures whole { OnOk result
            (AppendsBefore (K.held out.old) (K.held out.new) self.new self.old) }
        ensures few { OnOk result (length self.new < 16384) }
        ensures emptied { OnErr result (self.new ≡ []) }
        ensures part { OnErr result (AppendsPrefix (K.held out.old) (K.held out.new) self.old) }
        ensures cause { CountsFault (K.faults out.old) (K.faults out.new) result }
    {
        if self.end < PIECE {
            return Ok(());
        }
        self.flush(out)
    }

    /// Writes what waits. After `Failed` a prefix of it may have been written. Nothing waits afterwards.
    pub fn flush<K: Sink>(&mut self, out: &mut K) -> Result<(), Failed>
        ensures whole { OnOk result (Appends (K.held out.old) (K.held out.new) self.old) }
        ensures part { OnErr result (AppendsPrefix (K.held out.old) (K.held out.new) self.old) }
        ensures emptied { self.new ≡ [] }
        ensures cause { CountsFault (K.faults out.old) (K.faults out.new) result }
    {
        let written = write_all(out, &self.buffer[..self.end]);
        self.end = 0;
        written
    }
}
