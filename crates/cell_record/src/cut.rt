//! A line that is cut and decoded where it is held, in one pass.

ghost use Rattle.std.specs.Prelude.{◌≡◌, ◌+◌, ◌*◌, ◌≤◌, length, take, true, IfOk, IfSome, Some};
ghost use Rattle.std.specs.List.{list_all};
ghost use Rattle.cell_record.specs.Words.{is_digit, is_hex, value_of, pairs_of};
ghost use Rattle.cell_record.specs.PhaseLines.{BeginsWithLine, SaysSent};

use crate::digits::{is_broken, nibble};
use crate::words::is_digit;
use mms_types::{Memory, Octets};
use std::alloc::Global;

/// The most octets that such a line has here.
const MOST: usize = 196_608;

/// That a client sent octets, as the first line of a text says it.
#[derive(Drop)]
pub struct Sent {
    /// The client.
    pub client: u32,
    /// The octets.
    pub octets: Octets,
    /// How many octets the line has, with its line feed.
    pub size: usize,
}

/// The front of a text that is a line `<client> <hex>`.
#[derive(Clone, Copy)]
struct Cut {
    /// The client.
    client: u32,
    /// How many octets were decoded.
    count: usize,
    /// How many octets the line has, with its line feed.
    size: usize,
}

/// The number that a text begins with.
#[derive(Clone, Copy)]
struct Front {
    value: u32,
    count: usize,
}

/// The number that the first digits of a text say, at most nine of them.
fn front_number(text: &[u8]) -> Front
    ensures within { result.count ≤ length text.now }
    ensures few { result.count ≤ 9 }
    ensures digits { list_all is_digit (take result.count text.now) ≡ true }
    ensures value { result.value ≡ value_of (take result.count text.now) }
{
    let mut value: u32 = 0;
    let mut count = 0;
    while count < 9 && count < text.len() && is_digit(text[count]) {
        value = value * 10 + u32::from(text[count] - b'0');
        count += 1;
    }
    Front { value, count }
}

/// Decodes the pairs of digits that a text begins with, as many as there is room for: how many
/// there are.
fn front_pairs(text: &[u8], to: &mut [u8]) -> usize
    ensures within { 2 * result ≤ length text.now }
    ensures room { result ≤ length to.new }
    ensures size { length to.new ≡ length to.old }
    ensures hex { list_all is_hex (take (2 * result) text.now) ≡ true }
    ensures octets { pairs_of (take (2 * result) text.now) ≡ Some (take result to.new) }
{
    let most = (text.len() / 2).min(to.len());
    let mut count = 0;
    while count < most {
        let high = nibble(text[2 * count]);
        let low = nibble(text[2 * count + 1]);
        if is_broken(high, low) {
            return count;
        }
        to[count] = high * 16 + low;
        count += 1;
    }
    count
}

/// Cuts the first line off a text, where it is a client's number, one blank and pairs of digits for
/// which there is room. None tells nothing of the line. It is a function of its own in the program
/// too, so that its loops have the registers for themselves.
#[inline(never)]
fn cut_line(text: &[u8], to: &mut [u8]) -> Option<Cut>
    ensures line { IfSome result (λ cut. BeginsWithLine text.now cut.size) }
    ensures says { IfSome result (λ cut.
        SaysSent text.now cut.client (take cut.count to.new)) }
    ensures room { IfSome result (λ cut. cut.count ≤ length to.new) }
    ensures size { length to.new ≡ length to.old }
{
    let front = front_number(text);
    if front.count == 0 || front.count >= text.len() || text[front.count] != b' ' {
        return None;
    }
    let count = front_pairs(&text[front.count + 1..], to);
    let size = front.count + 2 * count + 2;
    if count == 0 || size > text.len() || text[size - 1] != b'\n' || size > MOST {
        return None;
    }
    Some(Cut {
        client: front.value,
        count,
        size,
    })
}

/// That a client sent octets, where the first line of a text says it in the form that `cut_line`
/// cuts: None tells nothing of the line. The buffer is kept from line to line; what it holds is of
/// no account.
#[inline(always)]
pub fn first_sent(alloc: Global, text: &[u8], buffer: &mut Vec<u8>) -> Result<Option<Sent>, Memory>
    ensures line { IfOk result (λ o. IfSome o (λ sent. BeginsWithLine text.now sent.size)) }
    ensures says { IfOk result (λ o. IfSome o (λ sent.
        SaysSent text.now sent.client sent.octets)) }
{
    let Some(cut) = cut_line(text, buffer.as_mut_slice()) else {
        return Ok(None);
    };
    let octets = Octets::from_slice(alloc, &buffer[..cut.count])?;
    Ok(Some(Sent {
        client: cut.client,
        octets,
        size: cut.size,
    }))
}
