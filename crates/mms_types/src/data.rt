//! Values of variables.

ghost use Rattle.std.specs.Prelude.{◌≡◌, ◌≤◌};
ghost use Rattle.mms_types.specs.Datum.{depth};
ghost use Rattle.mms_types.specs.SeenData.{seen};

use crate::Octets;
use std::marker::Model;

/// A value of a variable (ISO 9506-2, Data). Contracts see it as a `Datum`. It nests no deeper than 10: a simple value
/// has depth 0, and an array or a structure one more than its deepest part.
#[cycle(data)]
#[derive(Drop)]
pub struct Data {
    /// What it is.
    pub kind: DataKind,
}

/// What a value is, one level of it.
#[cycle(data)]
#[derive(Drop)]
pub enum DataKind {
    /// Elements, in their order.
    Array(Vec<Data>),
    /// Components, in their order.
    Structure(Vec<Data>),
    /// A truth value.
    Boolean(bool),
    /// A bit string.
    Bits(BitString),
    /// A number with a sign.
    Integer(i64),
    /// A number without one.
    Unsigned(u32),
    /// A floating-point number: an octet for the width of its exponent, and then the number as IEEE 754 has it.
    Floating(Octets),
    /// Octets.
    Octets(Octets),
    /// The octets of a VisibleString, 20 to 7E each.
    Visible(Octets),
    /// A time of day in milliseconds in four octets, and in six with the days since 1 January 1984.
    Time(Octets),
}

/// A bit string.
#[derive(PartialEq, Eq)]
pub struct BitString {
    /// How many bits of the last octet are unused.
    pub unused: u8,
    /// The bits, the first one in the highest bit of the first octet.
    pub octets: Octets,
}

impl Model for Data {
    ghost use Rattle.std.specs.Prelude.{◌≤◌};
    ghost use Rattle.mms_types.specs.Datum.{Datum, depth};

    ghost Value = { Datum };

    ghost use Rattle.mms_types.specs.DatumCode.{datum_code};

    ghost coded = { datum_code };

    ghost use Rattle.mms_types.specs.SeenData.{seen};

    ghost view = { λ x. seen x.kind };

    ghost invariant = { λ x. depth (seen x.kind) ≤ 10 };

    ghost size = { depth };

    ghost use Rattle.mms_types.specs.DataFallsLaws.{deep_le-depth};

    ghost size_decreases = { λ x h. deep_le-depth x.kind };
}

impl Drop for BitString {
    fn drop(self) {
        let BitString {
            unused: _,
            octets: _octets,
        } = self;
    }
}
