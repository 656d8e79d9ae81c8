//! Laws of the definitions: each is the contract of a function that does nothing.
ghost use Rattle.std.specs.Prelude.{◌≡◌, ◌≢◌, ◌⊎◌, ◌^◌, ℤ, pos, ◌+ℤ◌, ◌*ℤ◌, Result, Ok, Err, false};
ghost use Rattle.tm_cint.specs.IntTypes.{IsIn, is_signed, width_of};
ghost use Rattle.tm_cint.specs.Conversions.{converted_value, promoted_type, usual_type, unsigned_of, greater_of};
ghost use Rattle.tm_numbers.specs.Congruence.{IsCongruent};
ghost use Rattle.tm_cint.specs.Operators.{outcome, IsRightOperand, result_type};
ghost use Rattle.tm_cint.specs.declared.int_types.IntType.{IntType};
ghost use Rattle.tm_cint.specs.declared.operators.BinOp.{BinOp};

use crate::Class;
use crate::int_types::IntType;
use crate::operators::BinOp;

/// A converted value is a value of its type.
pub fn converted_value_is_in_its_type()
    ensures { (v : ℤ) (t : IntType) → IsIn t (converted_value v t) }
{}

/// Converting a value of the type changes nothing (C99 6.3.1.3).
pub fn conversion_keeps_values()
    ensures { (v : ℤ) (t : IntType) → IsIn t v → converted_value v t ≡ v }
{}

/// A conversion to another type than `_Bool` adds a multiple of 2 to the power of the width.
pub fn conversion_is_congruent()
    ensures { (v : ℤ) (t : IntType) → t ≢ IntType.Bool → IsCongruent (2 ^ width_of t) v (converted_value v t) }
{}

/// The integer promotions preserve value (C99 6.3.1.1).
pub fn promotion_keeps_values()
    ensures { (v : ℤ) (t : IntType) → IsIn t v → IsIn (promoted_type t) v }
{}

/// The common type is one of the two promoted types, or the unsigned one of that of the greater
/// rank (C99 6.3.1.8).
pub fn usual_type_is_one_of_three()
    ensures { (a b : IntType) →
        (usual_type a b ≡ promoted_type a)
        ⊎ ((usual_type a b ≡ promoted_type b)
        ⊎ (usual_type a b ≡ unsigned_of (greater_of (promoted_type a) (promoted_type b)))) }
{}

/// The common type does not depend on the order of the operands.
pub fn usual_type_is_symmetric()
    ensures { (a b : IntType) → usual_type a b ≡ usual_type b a }
{}

/// What an operator gives is a value of its type.
pub fn outcome_is_in_its_type()
    ensures { (op : BinOp) (t : IntType) (a b r : ℤ) →
        IsIn t a → IsRightOperand op t b → outcome op t a b ≡ Ok r → IsIn (result_type op t) r }
{}

/// Where `/` and `%` have values, `(a / b) * b + a % b` is a (C99 6.5.5).
pub fn quotient_and_remainder_give_the_dividend()
    ensures { (t : IntType) (a b q r : ℤ) →
        IsIn t a → IsIn t b → outcome BinOp.Div t a b ≡ Ok q → outcome BinOp.Rem t a b ≡ Ok r → q *ℤ b +ℤ r ≡ a }
{}

/// Unsigned operands never overflow (C99 6.2.5).
pub fn unsigned_never_overflows()
    ensures { (op : BinOp) (t : IntType) (a b : ℤ) →
        is_signed t ≡ false → IsIn t a → IsRightOperand op t b → outcome op t a b ≢ Err Class.Overflow }
{}
