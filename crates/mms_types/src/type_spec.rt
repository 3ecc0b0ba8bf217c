//! Types of variables.

use crate::Identifier;
use std::marker::Model;

/// A type of variables (ISO 9506-2, TypeSpecification). Contracts see it as a `Shape`. It nests no deeper than 10: a simple type
/// has depth 0, and an array or a structure one more than its deepest part.
#[cycle(types)]
#[derive(Drop)]
pub struct TypeSpec {
    /// What it is.
    pub kind: TypeKind,
}

/// What a type is, one level of it.
#[cycle(types)]
#[derive(Drop)]
pub enum TypeKind {
    /// So many elements of one type.
    Array {
        packed: bool,
        /// How many elements, at most 4,096 in what is read.
        count: u32,
        element: Box<TypeSpec>,
    },
    /// Components, in their order.
    Structure {
        packed: bool,
        components: Vec<Component>,
    },
    /// A truth value.
    Boolean,
    /// Bits, exactly so many, or where the number is below 0 at most as many as its opposite.
    Bits(i32),
    /// A number with a sign, of a width in bits: 8, 16, 32 or 64.
    Integer(u8),
    /// A number without one, of a width in bits: 8, 16 or 32.
    Unsigned(u8),
    /// A floating-point number, by the widths of the format and of the exponent: 32 and 8, or 64 and 11.
    Floating {
        width: u8,
        exponent: u8,
    },
    /// Octets, as many as `Bits` says.
    Octets(i32),
    /// A VisibleString of as many octets as `Bits` says.
    Visible(i32),
    /// A time of day, with the day or without it.
    Time(bool),
}

/// A component of a structure.
#[cycle(types)]
#[derive(Drop)]
pub struct Component {
    /// Its name, where it has one.
    pub name: Option<Identifier>,
    /// Its type.
    pub spec: TypeSpec,
}

impl Model for TypeSpec {
    ghost use Rattle.std.specs.Prelude.{◌≤◌};
    ghost use Rattle.mms_types.specs.Shape.{Shape, shape_depth};
    ghost use Rattle.mms_types.specs.ShapeCode.{shape_code};

    ghost Value = { Shape };

    ghost coded = { shape_code };

    ghost use Rattle.mms_types.specs.SeenType.{seen_type};

    ghost view = { λ t. seen_type t.kind };

    ghost invariant = { λ t. shape_depth (seen_type t.kind) ≤ 10 };

    ghost size = { shape_depth };

    ghost use Rattle.mms_types.specs.TypeFallsLaws.{deep_le-shape_depth};

    ghost size_decreases = { λ t h. deep_le-shape_depth t.kind };
}
