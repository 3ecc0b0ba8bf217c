//! What holds of all elements and of all numbers.

ghost use Rattle.std.specs.Prelude.{◌≡◌, ◌<◌, ◌≤◌, ◌^◌, ◌++◌, ℕ, ℤ, suc, List, length, map, slice_index, FitsSigned, Ok};
ghost use Rattle.std.specs.Int.{w64};
ghost use Rattle.ber_core.specs.declared.element.Lengths.{Lengths};
ghost use Rattle.ber_core.specs.declared.element.Lengths.TheVariants.{Definite, Either};
ghost use Rattle.ber_core.specs.declared.element.Tag.{Tag};
ghost use Rattle.ber_core.specs.Part.{Part};
ghost use Rattle.ber_core.specs.Element.{IsElement, IsCut};
ghost use Rattle.ber_core.specs.Leaf.{IsInteger, integer_at};
ghost use Rattle.ber_core.specs.Reading.{element_at};
ghost use Rattle.ber_core.specs.Respelling.{respelled, anew};
ghost use Rattle.ber_core.specs.Spelling.{element_octets, integer_octets};

/// What is spelled is one element, of that tag and with those contents.
pub fn spells_an_element()
    ensures { (lengths : Lengths) (t : Tag) (c : List ℕ) → t.class < 4 → t.number < 16384
        → length c < 2 ^ 64
        → IsElement lengths (element_octets t c) (record { tag = t; contents = c }) }
{}

/// No element with a definite length is spelled shorter.
pub fn spells_the_shortest()
    ensures element { (octets : List ℕ) (p : Part)
        → ((i : ℕ) → slice_index octets i < 256) → IsElement Definite octets p
        → length (element_octets p.tag p.contents) ≤ length octets }
    ensures integer { (octets : List ℕ) (n : ℤ) → ((i : ℕ) → slice_index octets i < 256)
        → IsInteger octets n → length (integer_octets n) ≤ length octets }
{}

/// No element begins another.
pub fn begins_no_other()
    ensures { (lengths : Lengths) (a b x y : List ℕ) (p q : Part) → IsElement lengths a p
        → IsElement lengths b q → a ++ x ≡ b ++ y → a ≡ b }
{}

/// The octets of an element say one tag and one contents, and octets are cut into elements in one way.
pub fn says_one_part()
    ensures element { (lengths : Lengths) (octets : List ℕ) (p q : Part)
        → IsElement lengths octets p → IsElement lengths octets q → p ≡ q }
    ensures cut { (lengths : Lengths) (octets : List ℕ) (ps qs : List Part)
        → IsCut lengths octets ps → IsCut lengths octets qs → ps ≡ qs }
{}

/// What is read as an element is one, and an element is read, whatever follows it.
pub fn reads_the_element()
    ensures read { (lengths : Lengths) (octets rest : List ℕ) (p : Part)
        → ((i : ℕ) → slice_index octets i < 256) → element_at lengths octets ≡ Ok (p, rest)
        → (taken : List ℕ) × IsElement lengths taken p × (octets ≡ taken ++ rest) }
    ensures only { (lengths : Lengths) (octets rest : List ℕ) (p : Part)
        → IsElement lengths octets p → element_at lengths (octets ++ rest) ≡ Ok (p, rest) }
{}

/// The spelling of a number of 64 bits is read as that number.
pub fn spells_the_number()
    ensures { (n : ℤ) → FitsSigned w64 n → IsInteger (integer_octets n) n }
{}

/// Two numbers of one spelling are equal.
pub fn says_one_number()
    ensures contents { (octets : List ℕ) (m n : ℤ) → IsInteger octets m → IsInteger octets n
        → m ≡ n }
    ensures spelling { (m n : ℤ) → FitsSigned w64 m → FitsSigned w64 n
        → integer_octets m ≡ integer_octets n → m ≡ n }
{}

/// What has definite lengths alone is read with either as the same.
pub fn reads_definite_lengths()
    ensures element { (octets : List ℕ) (p : Part) → IsElement Definite octets p
        → IsElement Either octets p }
    ensures cut { (octets : List ℕ) (ps : List Part) → IsCut Definite octets ps
        → IsCut Either octets ps }
{}

/// Elements that are spelled anew have definite lengths, the same tags, and contents that are the same or, where
/// they may be elements, spelled anew.
pub fn spells_anew()
    ensures { (lengths : Lengths) (depth : ℕ) (octets : List ℕ) (ps : List Part)
        → IsCut Either octets ps → length (respelled (suc depth) octets) < 2 ^ 64
        → IsCut lengths (respelled (suc depth) octets) (map (anew depth) ps) }
{}
