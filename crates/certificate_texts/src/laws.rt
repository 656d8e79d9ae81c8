//! The laws of texts of certificates. They speak of definitions alone: no call is made.
ghost use Rattle.std.specs.Prelude.{◌≡◌, ◌<◌, ◌+◌, ◌-◌, ◌^◌, ◌++◌, ◌∷◌, ℕ, List, length, drop, slice_range};
ghost use Rattle.post_recheck.specs.program_equations.Programs.{ProgramBodies, IsProgram};
ghost use Rattle.post_recheck.specs.Pairs.{Pair, FitsPair};
ghost use Rattle.certificate_words.specs.Words.{AreLines, lines_text};
ghost use Rattle.certificate_texts.specs.Sizes.{HasSmallNumbers};
ghost use Rattle.certificate_texts.specs.Certificates.{certificate_text, head_text, pair_lines, IsSplit};

/// For one program, pairs that fit and have the same lines are the same: trailing nodes without a state, which have no
/// line, are as many as the program has, and sizes of objects, which have no word, are those of its layout. Where its
/// numbers are small, the lines of such a pair are lawful, and pairs with the same text are the same.
pub fn pairs_have_one_text()
    ensures lines { (p : ProgramBodies) → IsProgram p → (one other : Pair) → FitsPair p one → FitsPair p other
        → pair_lines one ≡ pair_lines other → one ≡ other }
    ensures lawful { (p : ProgramBodies) → IsProgram p → HasSmallNumbers p → (pair : Pair) → FitsPair p pair
        → AreLines (pair_lines pair) }
    ensures text { (p : ProgramBodies) → IsProgram p → HasSmallNumbers p → (one other : Pair) → FitsPair p one
        → FitsPair p other → lines_text (pair_lines one) ≡ lines_text (pair_lines other) → one ≡ other }
{}

/// Where a source stands in bytes there is one place, behind it the text goes on as the bytes do, and in the text of
/// its certificate it stands behind the first two lines.
pub fn texts_are_split()
    ensures one { (bytes : List ℕ) (start end from to : ℕ) → length bytes < 2 ^ 64 → IsSplit bytes start end
        → IsSplit bytes from to → (start ≡ from) × (end ≡ to) }
    ensures text { (bytes : List ℕ) (start end : ℕ) → IsSplit bytes start end
        → bytes ≡ head_text (end - start) ++ (slice_range bytes start end ++ (10 ∷ drop (end + 1) bytes)) }
    ensures certificate { (source : List ℕ) (pair : Pair) → (let start = length (head_text (length source)) in
        IsSplit (certificate_text source pair) start (start + length source)) }
{}
