//! What an edition reads.

ghost use Rattle.std.specs.Prelude.{◌≡◌};
ghost use Rattle.ber_forms.specs.Ahead.{ahead};
ghost use Rattle.pdu_names.specs.Editions.{lengths_of};

use ber_core::Lengths;
use ber_forms::Cursor;
use mms_types::Edition;

/// The forms of lengths that an edition reads (ITU-T X.690, 8.1.3).
pub fn lengths(edition: Edition) -> Lengths
    ensures { result ≡ lengths_of edition }
{
    match edition {
        Edition::One => Lengths::Definite,
        Edition::Two => Lengths::Either,
    }
}

/// Before all of the contents, with the lengths that the edition reads.
pub fn cursor(edition: Edition, contents: &[u8]) -> Cursor<'_>
    ensures { result ≡ ahead (lengths_of edition) contents.entry.now }
{
    Cursor::new(lengths(edition), contents)
}
