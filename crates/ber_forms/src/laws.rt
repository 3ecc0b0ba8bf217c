//! What holds of every form.

ghost use Rattle.std.specs.Prelude.{◌≡◌, ◌↔◌, ◌<◌, ◌^◌, ◌++◌, true, ℕ, List, length, slice_index, IsTrue, Ok, Err};
ghost use Rattle.ber_core.specs.declared.element.Lengths.{Lengths};
ghost use Rattle.ber_core.specs.declared.element.Lengths.TheVariants.{Definite, Either};
ghost use Rattle.ber_core.specs.Part.{Part};
ghost use Rattle.ber_core.specs.Element.{IsElement};
ghost use Rattle.ber_core.specs.Respelling.{respelled};
ghost use Rattle.ber_forms.specs.Value.{Value};
ghost use Rattle.ber_forms.specs.Form.{Form, Member};
ghost use Rattle.ber_forms.specs.Fault as fault;
ghost use Rattle.ber_forms.specs.Reading.{reading, is_constructed};
ghost use Rattle.ber_forms.specs.Kept.{is_looked_into};
ghost use Rattle.ber_forms.specs.Reads.{IsMalformed};
ghost use Rattle.ber_forms.specs.Spelling.{spelling, member_octets};
ghost use Rattle.ber_forms.specs.InForm.{InForm};
ghost use Rattle.ber_forms.specs.Fits.{is_sound, sound_member, Fits, FitsMember};
ghost use Rattle.ber_forms.specs.TooDeep.{IsTooDeep};

/// What is read of octets is of the form, and what is of the form is read.
pub fn reads_the_form()
    ensures read { (lengths : Lengths) (f : Form) (c : List ℕ) (v : Value)
        → ((i : ℕ) → slice_index c i < 256) → reading lengths f c ≡ Ok v → InForm lengths f c v }
    ensures only { (lengths : Lengths) (f : Form) (c : List ℕ) (v : Value) → InForm lengths f c v
        → reading lengths f c ≡ Ok v }
{}

/// What is read as too deep nests too deep, and what nests too deep is read so.
pub fn tells_too_deep()
    ensures read { (lengths : Lengths) (f : Form) (c : List ℕ) → ((i : ℕ) → slice_index c i < 256)
        → reading lengths f c ≡ Err fault.too_deep → IsTooDeep lengths f c }
    ensures only { (lengths : Lengths) (f : Form) (c : List ℕ) → IsTooDeep lengths f c
        → reading lengths f c ≡ Err fault.too_deep }
{}

/// What is read as malformed is of the form in no way and not too deep, and what is neither is read as malformed.
pub fn tells_malformed()
    ensures read { (lengths : Lengths) (f : Form) (c : List ℕ)
        → reading lengths f c ≡ Err fault.malformed → IsMalformed lengths f c }
    ensures only { (lengths : Lengths) (f : Form) (c : List ℕ) → ((i : ℕ) → slice_index c i < 256)
        → IsMalformed lengths f c → reading lengths f c ≡ Err fault.malformed }
{}

/// Contents of a form say one value.
pub fn says_one_value()
    ensures { (lengths : Lengths) (f : Form) (c : List ℕ) (v w : Value) → InForm lengths f c v
        → InForm lengths f c w → v ≡ w }
{}

/// What is spelled is of the form, and says the value.
pub fn spells_the_value()
    ensures { (lengths : Lengths) (f : Form) (v : Value) → IsTrue (is_sound f) → Fits f v
        → length (spelling f v) < 2 ^ 64 → InForm lengths f (spelling f v) v }
{}

/// Values with one spelling are one value.
pub fn spells_one_value()
    ensures { (f : Form) (v w : Value) → IsTrue (is_sound f) → Fits f v → Fits f w
        → length (spelling f v) < 2 ^ 64 → spelling f v ≡ spelling f w → v ≡ w }
{}

/// No element begins another, and so no member that is spelled begins another.
pub fn begins_no_other()
    ensures elements { (lengths : Lengths) (a b x y : List ℕ) (p q : Part) → IsElement lengths a p
        → IsElement lengths b q → a ++ x ≡ b ++ y → a ≡ b }
    ensures members { (m n : Member) (v w : Value) (x y : List ℕ) → IsTrue (sound_member m)
        → IsTrue (sound_member n) → FitsMember m v → FitsMember n w
        → length (member_octets m v) < 2 ^ 64 → length (member_octets n w) < 2 ^ 64
        → member_octets m v ++ x ≡ member_octets n w ++ y → member_octets m v ≡ member_octets n w }
{}

/// What is of a form with definite lengths alone is so with either, and says the same value.
pub fn reads_definite_lengths()
    ensures { (f : Form) (c : List ℕ) (v : Value) → InForm Definite f c v → InForm Either f c v }
{}

/// Contents that may be elements say the same when they are spelled anew, with definite lengths.
pub fn says_the_same_anew()
    ensures { (depth : ℕ) (f : Form) (c : List ℕ) (v : Value) → IsTrue (is_looked_into f)
        → is_constructed f ≡ true → ((i : ℕ) → slice_index c i < 256)
        → length (respelled depth c) < 2 ^ 64
        → InForm Either f c v ↔ InForm Either f (respelled depth c) v }
{}
