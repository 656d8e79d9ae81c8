//! The operators on strided sets. Each law speaks of definitions alone, so its function does nothing.
ghost use Rattle.std.specs.Prelude.{◌≡◌, ℤ, pos};
ghost use Rattle.filters.specs.strided_dom.Progression.{Progression, single, IsExactly};
ghost use Rattle.filters.specs.strided_dom.Combinations.{IsInBoth};
ghost use Rattle.tm_cint.specs.declared.int_types.IntType.{IntType};
ghost use Rattle.tm_cint.specs.declared.operators.BinOp.{BinOp};
ghost use Rattle.transfer_int.specs.Values.{IsValue, IsConverted, ones_of};
ghost use Rattle.filters.specs.Partners.{IsAssumed};
ghost use Rattle.operator_values.specs.Integers.{operated, negated, complemented, converted, left_assumed};
ghost use Rattle.operator_values.specs.Integers.{right_assumed, met_numbers};

use tm_cint::{BinOp, IntType};

/// `a op b`, `-a` and `~a`: whatever the operands are, the function gives exactly the values that the relation has.
pub fn integer_operators()
    ensures is { (op : BinOp) (t : IntType) (a b : Progression) → IsExactly (IsValue op t a b) (operated op t a b) }
    ensures one { (op : BinOp) (t : IntType) (a b s : Progression) → IsExactly (IsValue op t a b) s
        → s ≡ operated op t a b }
    ensures negations { (t : IntType) (a s : Progression) → IsExactly (IsValue BinOp.Sub t (single (pos 0)) a) s
        → s ≡ negated t a }
    ensures complements { (t : IntType) (a s : Progression) → IsExactly (IsValue BinOp.Sub t (single (ones_of t)) a) s
        → s ≡ complemented t a }
{}

/// Conversions.
pub fn integer_conversions()
    ensures is { (t : IntType) (a : Progression) → IsExactly (IsConverted t a) (converted t a) }
    ensures one { (t : IntType) (a s : Progression) → IsExactly (IsConverted t a) s → s ≡ converted t a }
{}

/// What is left of two sets where a comparison is known to hold, and what two sets have in common.
pub fn integer_comparisons()
    ensures is { (op : BinOp) (a b : Progression) → IsAssumed op a b (left_assumed op a b) (right_assumed op a b) }
    ensures one { (op : BinOp) (a b left right : Progression) → IsAssumed op a b left right
        → (left ≡ left_assumed op a b) × (right ≡ right_assumed op a b) }
    ensures common { (a b : Progression) → IsExactly (IsInBoth a b) (met_numbers a b) }
    ensures one_common { (a b s : Progression) → IsExactly (IsInBoth a b) s → s ≡ met_numbers a b }
{}
