//! What the definitions say by themselves: nothing here runs.

ghost use Rattle.std.specs.Prelude.{◌≡◌, ◌++◌, List, ℕ};
ghost use Rattle.tm_terms.specs.Spelling.{text_of};
ghost use Rattle.tm_terms.specs.declared.tokens.Name.{Name as NameOf};
ghost use Rattle.unit_tokens.specs.Sayings.{Says, with_behind};
ghost use Rattle.unit_tokens.specs.Units.{IsNowhere};

/// No name of the units has a mark that stands nowhere in them, as each new name has; and two names with the same
/// behind them are two.
pub fn new_names()
    ensures fresh { (units mark before after : List ℕ) (name : NameOf) → IsNowhere mark units
        → text_of units name ≡ before ++ (mark ++ after) → ⊥ }
    ensures one { (more text other : List ℕ) → with_behind more (Says.Named text) ≡ with_behind more (Says.Named other)
        → text ≡ other }
{}
