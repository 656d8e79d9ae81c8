//! Laws of the grammar, each the contract of a function with nothing to do.

ghost use Rattle.std.specs.Prelude.{◌≡◌, ℕ, List, []};
ghost use Rattle.tm_terms.specs.declared.tokens.Name.{Name};
ghost use Rattle.tm_terms.specs.declared.tokens.Token.{Token};
ghost use Rattle.tm_terms.specs.ExprTrees.{Tree};
ghost use Rattle.tm_terms.specs.ExprSpelling.{Spells, GoesOn, IsFront, IsLongest};

/// No text has two trees.
pub fn one_tree()
    ensures { (types : List Name) (t u : Tree) (ts : List Token) → Spells types t ts [] → Spells types u ts [] → t ≡ u }
{}

/// The longest expression is one.
pub fn one_longest()
    ensures { (types : List Name) (at limit : ℕ) (ts : List Token) (t u : Tree) (rest after : List Token) →
        IsLongest types at limit ts t rest → IsLongest types at limit ts u after → (t ≡ u) × (rest ≡ after) }
{}

/// An expression is the longest where the token after it continues no expression of its level.
pub fn followed_by_no_operator()
    ensures { (types : List Name) (at limit : ℕ) (ts : List Token) (t : Tree) (rest : List Token) →
        IsFront types at limit ts t rest → (GoesOn at rest → ⊥) → IsLongest types at limit ts t rest }
{}
