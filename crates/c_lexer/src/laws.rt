//! What the definitions of the lexis say by themselves: nothing here runs.

ghost use Rattle.std.specs.Prelude.{◌≡◌, ◌≤◌, ◌↔◌, ℕ, List, Result, Ok, length};
ghost use Rattle.tm_terms.specs.Spelling.{IsNameAmong, Lexes, Spells, StopsAt, text_of};
ghost use Rattle.tm_terms.specs.declared.places.Place.{Place as PlaceOf};
ghost use Rattle.tm_terms.specs.declared.refusals.Refusal.{Refusal as RefusalOf};
ghost use Rattle.tm_terms.specs.declared.tokens.Name.{Name as NameOf};
ghost use Rattle.tm_terms.specs.declared.tokens.Token.{Token as TokenOf};

/// At most one list of tokens is spelled by a source, at most one place is the first where nothing
/// begins, and no source has both.
pub fn one_reading()
    ensures list { (source : List ℕ) (tokens others : List TokenOf) → Spells source tokens → Spells source others
        → tokens ≡ others }
    ensures place { (source : List ℕ) (place other : PlaceOf) → StopsAt source place → StopsAt source other
        → place ≡ other }
    ensures apart { (source : List ℕ) (place : PlaceOf) (tokens : List TokenOf) → StopsAt source place
        → Spells source tokens → ⊥ }
{}

/// A source that may have so many tokens has exactly one answer; where that is its tokens, they are
/// its answer too where it may have more, and no other tokens are its answer for any number.
pub fn one_answer()
    ensures one { (most : ℕ) (source : List ℕ) (answer other : Result (List TokenOf) RefusalOf)
        → Lexes most source answer → Lexes most source other → answer ≡ other }
    ensures some { (most : ℕ) (source : List ℕ) → (answer : Result (List TokenOf) RefusalOf) × Lexes most source answer }
    ensures more { (source : List ℕ) (most more : ℕ) (tokens : List TokenOf) → most ≤ more
        → Lexes most source (Ok tokens) → Lexes more source (Ok tokens) }
    ensures alike { (source : List ℕ) (most more : ℕ) (tokens others : List TokenOf) → Lexes most source (Ok tokens)
        → Lexes more source (Ok others) → tokens ≡ others }
{}

/// Two names among the tokens of a source are equal exactly where their texts are, and a text is as long as its name
/// says.
pub fn names_by_text()
    ensures equal { (source : List ℕ) (tokens : List TokenOf) → Spells source tokens → (m n : NameOf)
        → IsNameAmong tokens m → IsNameAmong tokens n → (m ≡ n) ↔ (text_of source m ≡ text_of source n) }
    ensures whole { (source : List ℕ) (tokens : List TokenOf) → Spells source tokens → (name : NameOf)
        → IsNameAmong tokens name → length (text_of source name) ≡ name.length }
{}
