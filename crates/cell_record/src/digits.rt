//! Numbers and octets in digits.

ghost use Rattle.std.specs.Prelude.{◌≡◌, ◌*◌, ◌≤◌, ◌||◌, true, false, length, take, nat_lt};
ghost use Rattle.std.specs.Prelude.{IfOk, OnOk, Some, None, vec_len};
ghost use Rattle.cell_record.specs.Words.{number_of, nibble_of, pairs_of};

use crate::words::is_digit;
use mms_types::{Memory, Octets};
use std::alloc::{AllocError, Global};

/// The number that 1 to 9 decimal digits say: None for other texts.
pub fn number(digits: &[u8]) -> Option<u32>
    ensures { result ≡ number_of digits.now }
{
    if digits.is_empty() || digits.len() > 9 {
        return None;
    }
    let mut value: u32 = 0;
    let mut count = 0;
    while count < digits.len() {
        if !is_digit(digits[count]) {
            return None;
        }
        value = value * 10 + u32::from(digits[count] - b'0');
        count += 1;
    }
    Some(value)
}

/// The value of each octet as a hexadecimal digit, as `nibble` tells it.
static VALUES: [u8; 256] = [
    255, 255, 255, 255, 255, 255, 255, 255, 255, 255, 255, 255, 255, 255, 255, 255, 255, 255, 255,
    255, 255, 255, 255, 255, 255, 255, 255, 255, 255, 255, 255, 255, 255, 255, 255, 255, 255, 255,
    255, 255, 255, 255, 255, 255, 255, 255, 255, 255, 0, 1, 2, 3, 4, 5, 6, 7, 8, 9, 255, 255, 255,
    255, 255, 255, 255, 10, 11, 12, 13, 14, 15, 255, 255, 255, 255, 255, 255, 255, 255, 255, 255,
    255, 255, 255, 255, 255, 255, 255, 255, 255, 255, 255, 255, 255, 255, 255, 255, 10, 11, 12, 13,
    14, 15, 255, 255, 255, 255, 255, 255, 255, 255, 255, 255, 255, 255, 255, 255, 255, 255, 255,
    255, 255, 255, 255, 255, 255, 255, 255, 255, 255, 255, 255, 255, 255, 255, 255, 255, 255, 255,
    255, 255, 255, 255, 255, 255, 255, 255, 255, 255, 255, 255, 255, 255, 255, 255, 255, 255, 255,
    255, 255, 255, 255, 255, 255, 255, 255, 255, 255, 255, 255, 255, 255, 255, 255, 255, 255, 255,
    255, 255, 255, 255, 255, 255, 255, 255, 255, 255, 255, 255, 255, 255, 255, 255, 255, 255, 255,
    255, 255, 255, 255, 255, 255, 255, 255, 255, 255, 255, 255, 255, 255, 255, 255, 255, 255, 255,
    255, 255, 255, 255, 255, 255, 255, 255, 255, 255, 255, 255, 255, 255, 255, 255, 255, 255, 255,
    255, 255, 255, 255, 255, 255, 255, 255, 255, 255, 255, 255, 255, 255, 255, 255, 255, 255, 255,
    255, 255, 255,
];

/// The value of a hexadecimal digit of either case, and 255 for other octets.
#[tactic(auto, using(crate::proofs::Table::value_is))]
pub fn nibble(octet: u8) -> u8
    ensures value { result ≡ nibble_of octet }
    ensures small { result ≤ 255 }
{
    VALUES[octet as usize]
}

/// Decodes so many pairs of digits without spaces: false where an octet is no digit, and then what
/// `to` has is of no account. It is a function of its own in the program too, so that its loop has
/// the registers for itself.
#[inline(never)]
fn decode(text: &[u8], count: usize, to: &mut [u8]) -> bool
    requires pairs { length text.now ≡ 2 * count }
    requires room { count ≤ length to.old }
    ensures octets { result ≡ true → pairs_of text.now ≡ Some (take count to.new) }
    ensures size { length to.new ≡ length to.old }
{
    let mut seen = 0u8;
    for i in 0..count {
        let high = nibble(text[2 * i]);
        let low = nibble(text[2 * i + 1]);
        seen |= high | low;
        to[i] = high << 4 | low;
    }
    seen < 16
}

/// Whether one of the two is no value of a digit.
pub fn is_broken(high: u8, low: u8) -> bool
    ensures broken { result ≡ (nat_lt 15 high || nat_lt 15 low) }
    ensures whole { result ≡ false → (high ≤ 15) × (low ≤ 15) }
{
    high > 15 || low > 15
}

/// Decodes pairs of digits with spaces between them in place of what `octets` has: false for other
/// texts.
#[cold]
#[inline(never)]
fn decode_spaced(text: &[u8], octets: &mut Vec<u8>) -> Result<bool, AllocError>
    ensures there { IfOk result (λ there. there ≡ true
        → pairs_of text.now ≡ Some octets.new.items) }
    ensures none { IfOk result (λ there. there ≡ false → pairs_of text.now ≡ None) }
{
    octets.clear();
    let mut at = 0;
    while at < text.len() {
        if text[at] == b' ' {
            at += 1;
        } else {
            if text.len() - at < 2 {
                return Ok(false);
            }
            let high = nibble(text[at]);
            let low = nibble(text[at + 1]);
            if is_broken(high, low) {
                return Ok(false);
            }
            octets.push(high * 16 + low)?;
            at += 2;
        }
    }
    Ok(true)
}

/// Makes the buffer at least that long. What it holds is of no account.
fn widen(buffer: &mut Vec<u8>, count: usize) -> Result<(), AllocError>
    ensures { OnOk result (count ≤ vec_len buffer.new) }
{
    if buffer.len() < count {
        buffer.resize(count, 0)?;
    }
    Ok(())
}

/// The octets of pairs of hexadecimal digits, with or without spaces between pairs: None for other
/// texts. The buffer is kept from text to text; what it holds is of no account.
pub fn pairs(alloc: Global, text: &[u8], buffer: &mut Vec<u8>) -> Result<Option<Octets>, Memory>
    ensures { IfOk result (λ octets. octets ≡ pairs_of text.now) }
{
    let count = text.len() / 2;
    widen(buffer, count)?;
    if 2 * count == text.len() && decode(text, count, buffer.as_mut_slice()) {
        return Ok(Some(Octets::from_slice(alloc, &buffer[..count])?));
    }
    if decode_spaced(text, buffer)? {
        return Ok(Some(Octets::from_slice(alloc, buffer)?));
    }
    Ok(None)
}
