//! Laws of the definitions, each the contract of a function that does nothing.

ghost use Rattle.std.specs.Prelude.{◌≡◌, ℕ, List, [], ◌∷◌, ◌++◌};
ghost use Rattle.std.specs.List.{concat};
ghost use Rattle.cell_io.specs.Lines.{lines_of, first_line, after_line};

/// The lines of a text, joined, are the text, and they are its first line and then the lines of
/// what stands after it.
pub fn lines_are_the_text()
    ensures joined { (text : List ℕ) → concat (lines_of text) ≡ text }
    ensures first { (text : List ℕ) → ¬ (text ≡ [])
        → lines_of text ≡ first_line text ∷ lines_of (after_line text) }
    ensures parted { (text : List ℕ) → first_line text ++ after_line text ≡ text }
{}
