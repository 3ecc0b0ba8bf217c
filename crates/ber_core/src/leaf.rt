//! Numbers, truth values and bit strings.

ghost use Rattle.std.specs.Prelude.{◌≡◌, ◌≢◌, ◌<◌, ◌⊎◌, ◌↔◌, ℕ, ℤ, Bool, List, [], length, Ok, Err, MatchResult, IfOk, IfErr, IsOkAnd, IsErrOf};
ghost use Rattle.ber_core.specs.Leaf.{integer_at, boolean_at, bits_at, IsInteger, IsBoolean, IsBits, IsNoBits};

use crate::element::Bits;
use crate::fault::BerError;
use crate::reader::{complement, number};

/// The truth value that contents spell (ITU-T X.690, 8.2): one octet, which is 0 for FALSE.
/// BadContents where there is not one octet.
pub fn boolean(contents: &[u8]) -> Result<bool, BerError>
    ensures found { IfOk result (IsBoolean contents.now) }
    ensures only { (b : Bool) → IsBoolean contents.now b → result ≡ Ok b }
    ensures bad { IsErrOf result BerError.BadContents ↔ (length contents.now ≢ 1) }
    ensures no_other { IfErr result (λ e. e ≡ BerError.BadContents) }
    ensures exact { result ≡ boolean_at contents.now }
{
    truth(contents)
}

fn truth(contents: &[u8]) -> Result<bool, BerError>
    ensures { result ≡ boolean_at contents.now }
{
    match contents {
        [a] => Ok(*a != 0),
        _ => Err(BerError::BadContents),
    }
}

/// The bit string that contents spell (ITU-T X.690, 8.6): how many bits of the last octet are unused,
/// and the octets. BadContents where there is no first octet, it is above 7, or it is not 0 and
/// nothing follows.
pub fn bits<'a>(contents: &'a [u8]) -> Result<Bits<'a>, BerError>
    ensures found { IfOk result (λ b. IsBits contents.now b.unused b.octets.now) }
    ensures only { (unused : ℕ) (octets : List ℕ) → IsBits contents.now unused octets
        → IsOkAnd result (λ b. (b.unused ≡ unused) × (b.octets.now ≡ octets)) }
    ensures bad { IsErrOf result BerError.BadContents ↔ IsNoBits contents.now }
    ensures no_other { IfErr result (λ e. e ≡ BerError.BadContents) }
    ensures exact { MatchResult result (λ b. bits_at contents.now ≡ Ok (b.unused, b.octets.now))
        (λ e. bits_at contents.now ≡ Err e) }
{
    cut_bits(contents)
}

fn cut_bits<'a>(contents: &'a [u8]) -> Result<Bits<'a>, BerError>
    ensures { MatchResult result (λ b. bits_at contents.now ≡ Ok (b.unused, b.octets.now))
        (λ e. bits_at contents.now ≡ Err e) }
{
    match contents {
        [] => Err(BerError::BadContents),
        [unused] => {
            if *unused == 0 {
                Ok(Bits {
                    unused: 0,
                    octets: &contents[1..],
                })
            } else {
                Err(BerError::BadContents)
            }
        }
        [unused, octets @ ..] => {
            if *unused > 7 {
                Err(BerError::BadContents)
            } else {
                Ok(Bits {
                    unused: *unused,
                    octets,
                })
            }
        }
    }
}

/// The number that contents spell in two's complement (ITU-T X.690, 8.3): one to eight octets, also
/// more than are needed. BadContents where there are none or more than eight.
pub fn integer(contents: &[u8]) -> Result<i64, BerError>
    ensures found { IfOk result (IsInteger contents.now) }
    ensures only { (n : ℤ) → IsInteger contents.now n → result ≡ Ok n }
    ensures bad { IsErrOf result BerError.BadContents
        ↔ ((contents.now ≡ []) ⊎ (8 < length contents.now)) }
    ensures no_other { IfErr result (λ e. e ≡ BerError.BadContents) }
    ensures exact { result ≡ integer_at contents.now }
{
    signed(contents)
}

#[tactic(auto, unfolding(crate::specs::Leaf::integer_at), using(crate::proofs::Leaves::complement_number))]
fn signed(contents: &[u8]) -> Result<i64, BerError>
    ensures { result ≡ integer_at contents.now }
{
    match contents {
        [] => Err(BerError::BadContents),
        [first, ..] => {
            if contents.len() > 8 {
                Err(BerError::BadContents)
            } else if *first < 128 {
                Ok(number(contents) as i64)
            } else {
                Ok(-1 - complement(contents) as i64)
            }
        }
    }
}
