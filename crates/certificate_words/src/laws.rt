//! The laws of texts of words. They speak of definitions alone: no call is made.
ghost use Rattle.std.specs.Prelude.{◌≡◌, ℕ, List};
ghost use Rattle.strided_dom.specs.Progression.{Progression, empty};
ghost use Rattle.certificate_words.specs.Words.{Line, AreLines, lines_text, line_onto, IsLine};
ghost use Rattle.certificate_words.specs.Numbers.{progression_words};

/// A text is that of one list of lines; and of a front of it that is a line, and what stands behind it, there is one.
/// Sets of numbers that are not empty and have the same words are the same.
pub fn words_have_one_text()
    ensures lines { (one other : List Line) → AreLines one → AreLines other → lines_text one ≡ lines_text other
        → one ≡ other }
    ensures line { (one other : Line) (rest more : List ℕ) → IsLine one → IsLine other
        → line_onto one rest ≡ line_onto other more → (one ≡ other) × (rest ≡ more) }
    ensures numbers { (s t : Progression) → (s ≡ empty → ⊥) → (t ≡ empty → ⊥)
        → progression_words s ≡ progression_words t → s ≡ t }
{}
