//! What holds of data and of types that are read.

ghost use Rattle.std.specs.Prelude.{ℕ};
ghost use Rattle.ber_core.specs.declared.element.Lengths.{Lengths};
ghost use Rattle.ber_core.specs.Part.{Part};
ghost use Rattle.mms_types.specs.declared.identifier.Edition.{Edition};
ghost use Rattle.pdu_data.specs.Deep.{IsDeepData, IsDeepType, IsTooDeepData, IsTooDeepType};

/// An element is too deep for data that nests no deeper than `d` exactly where it is an array or a structure and `d`
/// is 0, or some of its first parts are data that nests one level less deep and the next part is too deep by one level
/// less.
pub fn tells_deep_data()
    ensures said { (l : Lengths) (d : ℕ) (p : Part) → IsTooDeepData l d p → IsDeepData l d p }
    ensures meant { (l : Lengths) (d : ℕ) (p : Part) → IsDeepData l d p → IsTooDeepData l d p }
{}

/// An element is too deep for a type that nests no deeper than `d` exactly where it is an array or a structure and `d`
/// is 0, or all before its type of elements, or before the type of some component, is of its form, types one level less
/// deep included, and that type is too deep by one level less.
pub fn tells_deep_types()
    ensures said { (l : Lengths) (e : Edition) (d : ℕ) (p : Part) → IsTooDeepType l e d p
        → IsDeepType l e d p }
    ensures meant { (l : Lengths) (e : Edition) (d : ℕ) (p : Part) → IsDeepType l e d p
        → IsTooDeepType l e d p }
{}
