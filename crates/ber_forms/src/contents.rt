//! Contents that are no elements: numbers, truth values, bit strings.

ghost use Rattle.std.specs.Prelude.{◌≡◌, ◌≤◌, ℕ, Ok, Err, IfOk, ◌≤ℤ◌, pos, negsuc};
ghost use Rattle.ber_forms.specs.Bits.{cleared};
ghost use Rattle.ber_forms.specs.Reading.{Gives, integer_in, null_value, truth_value, number_value, bits_value, text_value};
ghost use Rattle.ber_forms.specs.Reads.{NeedsNoMemory};
ghost use Rattle.ber_forms.specs.Form.{is_visible, are_visible};
ghost use Rattle.ber_forms.specs.Value as value;

use crate::unread::Unread;
use ber_core::Bits;

/// The number that the contents of an INTEGER say, from `low` to `high` (ITU-T X.690, 8.3). Malformed for no
/// octet, for more than eight, and for another number.
#[tactic(auto, unfolding(crate::specs::Reading::integer_in))]
pub fn integer(contents: &[u8], low: i64, high: i64) -> Result<i64, Unread>
    ensures exact { Gives (λ n. n) result (integer_in low high contents.now) }
    ensures no_memory { NeedsNoMemory result }
    ensures low { IfOk result (λ n. low ≤ℤ n) }
    ensures high { IfOk result (λ n. n ≤ℤ high) }
{
    let Ok(n) = ber_core::integer(contents) else {
        return Err(Unread::Malformed);
    };
    if low <= n && n <= high {
        Ok(n)
    } else {
        Err(Unread::Malformed)
    }
}

/// A number of 8 bits with a sign.
pub fn signed8(contents: &[u8]) -> Result<i8, Unread>
    ensures exact { Gives (λ n. value.number n) result
        (number_value (negsuc 127) (pos 127) contents.now) }
    ensures no_memory { NeedsNoMemory result }
{
    Ok(integer(contents, -128, 127)? as i8)
}

/// A number of 16 bits with a sign.
pub fn signed16(contents: &[u8]) -> Result<i16, Unread>
    ensures exact { Gives (λ n. value.number n) result
        (number_value (negsuc 32767) (pos 32767) contents.now) }
    ensures no_memory { NeedsNoMemory result }
{
    Ok(integer(contents, -32768, 32767)? as i16)
}

/// A number of 32 bits with a sign.
pub fn signed32(contents: &[u8]) -> Result<i32, Unread>
    ensures exact { Gives (λ n. value.number n) result
        (number_value (negsuc 2147483647) (pos 2147483647) contents.now) }
    ensures no_memory { NeedsNoMemory result }
{
    Ok(integer(contents, -2147483648, 2147483647)? as i32)
}

/// A number of 8 bits without a sign.
pub fn unsigned8(contents: &[u8]) -> Result<u8, Unread>
    ensures exact { Gives (λ n. value.number (pos n)) result
        (number_value (pos 0) (pos 255) contents.now) }
    ensures no_memory { NeedsNoMemory result }
{
    Ok(integer(contents, 0, 255)? as u8)
}

/// A number of 8 bits without a sign, from `low` to `high`.
pub fn unsigned8_in(contents: &[u8], low: u8, high: u8) -> Result<u8, Unread>
    ensures exact { Gives (λ n. value.number (pos n)) result
        (number_value (pos low) (pos high) contents.now) }
    ensures low { IfOk result (λ n. low ≤ n) }
    ensures high { IfOk result (λ n. n ≤ high) }
    ensures no_memory { NeedsNoMemory result }
{
    Ok(integer(contents, i64::from(low), i64::from(high))? as u8)
}

/// A number of 16 bits without a sign, from `low` to `high`.
pub fn unsigned16_in(contents: &[u8], low: u16, high: u16) -> Result<u16, Unread>
    ensures exact { Gives (λ n. value.number (pos n)) result
        (number_value (pos low) (pos high) contents.now) }
    ensures low { IfOk result (λ n. low ≤ n) }
    ensures high { IfOk result (λ n. n ≤ high) }
    ensures no_memory { NeedsNoMemory result }
{
    Ok(integer(contents, i64::from(low), i64::from(high))? as u16)
}

/// A number of 16 bits without a sign.
pub fn unsigned16(contents: &[u8]) -> Result<u16, Unread>
    ensures exact { Gives (λ n. value.number (pos n)) result
        (number_value (pos 0) (pos 65535) contents.now) }
    ensures no_memory { NeedsNoMemory result }
{
    Ok(integer(contents, 0, 65535)? as u16)
}

/// A number of 32 bits without a sign.
pub fn unsigned32(contents: &[u8]) -> Result<u32, Unread>
    ensures exact { Gives (λ n. value.number (pos n)) result
        (number_value (pos 0) (pos 4294967295) contents.now) }
    ensures no_memory { NeedsNoMemory result }
{
    Ok(integer(contents, 0, 4294967295)? as u32)
}

/// The truth value that the contents of a BOOLEAN say: TRUE where the one octet isn't 0 (ITU-T X.690, 8.2).
/// Malformed for no octet and for more than one.
pub fn boolean(contents: &[u8]) -> Result<bool, Unread>
    ensures exact { Gives (λ b. value.truth b) result (truth_value contents.now) }
    ensures no_memory { NeedsNoMemory result }
{
    let Ok(b) = ber_core::boolean(contents) else {
        return Err(Unread::Malformed);
    };
    Ok(b)
}

/// The contents of a NULL: none (ITU-T X.690, 8.8). Malformed for any octet.
#[tactic(auto, unfolding(crate::specs::Reading::at_end))]
pub fn null(contents: &[u8]) -> Result<(), Unread>
    ensures exact { Gives (λ _. value.nothing) result (null_value contents.now) }
    ensures no_memory { NeedsNoMemory result }
{
    if contents.is_empty() {
        Ok(())
    } else {
        Err(Unread::Malformed)
    }
}

/// The bit string that the contents say, as it was sent: its value has the unused bits 0 (ITU-T X.690, 8.6).
/// Malformed for no octet, for more than seven unused bits, and for unused bits of no octet.
#[tactic(auto, using(crate::proofs::NamedBits::few_unused), unfolding(crate::specs::Reading::bits_in))]
pub fn bit_string(contents: &[u8]) -> Result<Bits<'_>, Unread>
    ensures few { IfOk result (λ b. b.unused ≤ 7) }
    ensures exact { Gives (λ b. value.bits b.unused (cleared b.unused b.octets.now)) result
        (bits_value contents.now) }
    ensures no_memory { NeedsNoMemory result }
{
    let Ok(found) = ber_core::bits(contents) else {
        return Err(Unread::Malformed);
    };
    Ok(found)
}

fn is_visible(octet: u8) -> bool
    ensures { result ≡ is_visible octet }
{
    32 <= octet && octet <= 126
}

fn are_visible(octets: &[u8]) -> bool
    ensures { result ≡ are_visible octets.now }
{
    octets.iter().all(|octet| is_visible(*octet))
}

/// The octets of a VisibleString, as they stand in the contents (ITU-T X.690, 8.23). Malformed for an octet
/// below 20 or above 7E.
pub fn visible(contents: &[u8]) -> Result<&[u8], Unread>
    ensures exact { Gives (λ s. value.text s.now) result (text_value are_visible contents.now) }
    ensures no_memory { NeedsNoMemory result }
{
    if are_visible(contents) {
        Ok(contents)
    } else {
        Err(Unread::Malformed)
    }
}
