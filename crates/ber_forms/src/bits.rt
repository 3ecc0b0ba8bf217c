//! Bit strings whose unused bits are 0, and those of named bits.

ghost use Rattle.std.specs.Prelude.{◌≡◌, ◌≤◌, ◌+◌, ◌++◌, ◌-◌, ◌*◌, ◌/◌, ◌^◌, ℕ, length, take, replicate, Ok, Err, IfOk};
ghost use Rattle.ber_forms.specs.Bits.{cleared, octets_for, unused_for, first_bits};
ghost use Rattle.ber_forms.specs.Reading.{Gives, bits_in, named_bits_value};
ghost use Rattle.ber_forms.specs.Reads.{NeedsNoMemory};
ghost use Rattle.ber_forms.specs.Value as value;

use crate::unread::Unread;
use ber_core::Bits;
use std::alloc::{AllocError, Global};

/// An octet with its so many low bits 0.
fn cleared_octet(octet: u8, unused: u8) -> u8
    requires { unused ≤ 7 }
    ensures { result ≡ octet / 2 ^ unused * 2 ^ unused }
{
    let unit = match unused {
        0 => 1,
        1 => 2,
        2 => 4,
        3 => 8,
        4 => 16,
        5 => 32,
        6 => 64,
        _ => 128,
    };
    octet / unit * unit
}

/// Makes the so many low bits of the last octet 0.
fn clear(octets: &mut [u8], unused: u8)
    requires { unused ≤ 7 }
    ensures { octets.new ≡ cleared unused octets.old }
{
    if let [.., last] = octets {
        *last = cleared_octet(*last, unused);
    }
}

/// The bit string that the contents say, as it was sent.
#[tactic(auto, using(crate::proofs::NamedBits::few_unused), unfolding(crate::specs::Reading::bits_in))]
fn sent(contents: &[u8]) -> Result<Bits<'_>, Unread>
    ensures exact { Gives (λ b. (b.unused, b.octets.now)) result (bits_in contents.now) }
    ensures few { IfOk result (λ b. b.unused ≤ 7) }
    ensures no_memory { NeedsNoMemory result }
{
    let Ok(found) = ber_core::bits(contents) else {
        return Err(Unread::Malformed);
    };
    Ok(found)
}

/// The octets of a bit string with the unused bits of the last one 0.
pub fn bit_octets(alloc: Global, bits: Bits<'_>) -> Result<Vec<u8>, AllocError>
    requires { bits.unused ≤ 7 }
    ensures { IfOk result (λ v. v.items ≡ cleared bits.entry.unused bits.entry.octets.now) }
{
    let mut octets = Vec::from_slice(alloc, bits.octets)?;
    clear(octets.as_mut_slice(), bits.unused);
    Ok(octets)
}

/// The first so many octets, and 0 after the last that was sent.
fn first_octets<const N: usize>(bits: Bits<'_>) -> [u8; N]
    requires { bits.unused ≤ 7 }
    ensures { result ≡ take N (cleared bits.entry.unused bits.entry.octets.now ++ replicate N 0) }
{
    let mut found = [0u8; N];
    let count = bits.octets.len();
    if count <= N {
        found[..count].copy_from_slice(bits.octets);
        clear(&mut found[..count], bits.unused);
    } else {
        found.copy_from_slice(&bits.octets[..N]);
    }
    found
}

/// The `n` named bits that the contents of a bit string say, the first of them in the high bit of the first octet: one
/// that isn't sent is 0, further ones are disregarded, and the unused bits of the last octet are 0 (ITU-T X.680,
/// 22.7, and X.690, 8.6). Malformed as a bit string is. N is the number of octets that so many bits take.
#[tactic(auto, unfolding(crate::specs::Bits::first_bits))]
pub fn named_bits<const N: usize>(contents: &[u8], n: u32) -> Result<[u8; N], Unread>
    requires { N ≡ octets_for n }
    ensures exact { Gives (λ octets. value.bits (unused_for n) octets) result
        (named_bits_value n contents.now) }
    ensures no_memory { NeedsNoMemory result }
{
    let mut found = first_octets::<N>(sent(contents)?);
    clear(&mut found, (8 * N - n as usize) as u8);
    Ok(found)
}
