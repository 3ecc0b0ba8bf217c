//! Numbers in digits.

use anyhow::{Result, bail};
use std::alloc::{AllocError, Global};

/// The number that digits in that base say, which is 10 or 16; None for other texts. One beyond the last u32 is that
/// one.
fn value(text: &str, base: u32) -> Option<u32> {
    if text.is_empty() {
        return None;
    }
    let mut value = 0u32;
    for octet in text.as_bytes() {
        let digit = match *octet {
            b'0'..=b'9' => *octet - b'0',
            b'A'..=b'F' if base == 16 => *octet - b'A' + 10,
            _ => return None,
        };
        value = value.saturating_mul(base).saturating_add(u32::from(digit));
    }
    Some(value)
}

/// The number that decimal digits say.
pub(crate) fn number(text: &str) -> Result<u32> {
    match value(text, 10) {
        Some(number) => Ok(number),
        None => bail!("no number is {text:?}"),
    }
}

/// The octet that two hexadecimal digits say.
pub(crate) fn octet(text: &str) -> Option<u8> {
    if text.len() != 2 {
        return None;
    }
    match value(text, 16) {
        Some(octet) => u8::try_from(octet).ok(),
        None => None,
    }
}

/// Puts a number's decimal digits behind a text.
pub(crate) fn put_number(alloc: Global, text: &mut String, number: u64) -> Result<(), AllocError> {
    let digits = number.to_string(alloc)?;
    text.push_str(digits.as_str())
}

/// Puts a line of a word and a number behind a text.
pub(crate) fn put_line(
    alloc: Global,
    text: &mut String,
    word: &str,
    number: u64,
) -> Result<(), AllocError> {
    text.push_str(word)?;
    put_number(alloc, text, number)?;
    text.push('\n')
}
