//! Laws of typing: each is the contract of a function that does nothing.
ghost use Rattle.std.specs.Prelude.{ℕ};
ghost use Rattle.tm_terms.specs.ExprTrees.{Tree};
ghost use Rattle.tm_typed.specs.Typing.{CastTypes, typing};
ghost use Rattle.tm_typed.specs.WellTyped.{Context, IsLawful, IsOperand, OnAnswer, Extends};
ghost use Rattle.tm_typed.specs.TypedTrees.{OperandTree};

/// What typing gives is well formed, whatever type names name: each operator has operands of the type in which it
/// works, each load and store is of a scalar, and all that is named exists.
pub fn typed_expressions_are_well_formed()
    ensures { (types : CastTypes) (w : Context) → IsLawful w → (site : ℕ) (t : Tree)
        → OnAnswer (IsOperand w) (typing types w.scope site t) }
{}

/// What is well formed stays so when more is declared: types are added, structures completed, names go out of scope.
pub fn typed_expressions_stay_well_formed()
    ensures { (v w : Context) → Extends v w → (o : OperandTree) → IsOperand v o → IsOperand w o }
{}
