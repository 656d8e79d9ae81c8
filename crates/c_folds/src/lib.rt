//! Folded values of integer expressions (C99 6.6): what an operator gives where its operands are folded, not built of
//! what may be, or faulty. Which operators an expression has, and in which types they work, this crate does not know.
//!
//! `0 && 1/0` is folded to 0, since its right operand is not evaluated; `1/0 ? 2 : 3` is not folded.
#![tactic(auto)]

ghost use Rattle.std.specs.Prelude.{◌≡◌, Result, negsuc, ◌-ℤ◌};
ghost use Rattle.tm_cint.specs.IntTypes.{IsIn};
ghost use Rattle.tm_cint.specs.Conversions.{converted_value};
ghost use Rattle.tm_cint.specs.Operators.{IsRightOperand};
ghost use Rattle.tm_typed.specs.Operands.{fold_converted};
ghost use Rattle.tm_typed.specs.Rules.{fold_outcome, not_fold, minus_fold, complement_fold, FitsRight, values_fold};
ghost use Rattle.tm_typed.specs.Rules.{binary_fold, logical_fold, chosen_fold};

use tm_cint::{BinOp, Class, IntType, arith, convert};
use tm_typed::Fold;

fn outcome(outcome: Result<i128, Class>) -> Fold
    ensures { result ≡ fold_outcome outcome }
{
    match outcome {
        Ok(value) => Fold::Value(value),
        Err(_) => Fold::Faulty,
    }
}

/// `!`
pub fn not(fold: Fold) -> Fold
    ensures { result ≡ not_fold fold }
{
    match fold {
        Fold::Value(value) => Fold::Value(i128::from(value == 0)),
        Fold::Unbuilt => Fold::Unbuilt,
        Fold::Faulty => Fold::Faulty,
    }
}

/// Unary `-` in the type `of`.
pub fn minus(of: IntType, fold: Fold) -> Fold
    ensures { result ≡ minus_fold of fold }
{
    match fold {
        Fold::Value(value) => outcome(arith(BinOp::Sub, of, 0, convert(value, of))),
        Fold::Unbuilt => Fold::Unbuilt,
        Fold::Faulty => Fold::Faulty,
    }
}

// `-1 - value` as a value of the type, which is `~value` in it.
fn complement_of(value: i128, of: IntType) -> i128
    ensures { result ≡ converted_value (negsuc 0 -ℤ value) of }
{
    convert(-1 - value, of)
}

/// `~` in the type `of`.
pub fn complement(of: IntType, fold: Fold) -> Fold
    ensures { result ≡ complement_fold of fold }
{
    match fold {
        Fold::Value(value) => Fold::Value(complement_of(value, of)),
        Fold::Unbuilt => Fold::Unbuilt,
        Fold::Faulty => Fold::Faulty,
    }
}

/// Converted to the type `of`.
pub fn converted(of: IntType, fold: Fold) -> Fold
    ensures { result ≡ fold_converted of fold }
{
    match fold {
        Fold::Value(value) => Fold::Value(convert(value, of)),
        Fold::Unbuilt => Fold::Unbuilt,
        Fold::Faulty => Fold::Faulty,
    }
}

// A value of the type.
#[tactic(auto, using(crate::proofs::ConvertedValues::converted_is_in))]
fn value_in(value: i128, of: IntType) -> i128
    ensures value { result ≡ converted_value value of }
    ensures inside { IsIn of result }
{
    convert(value, of)
}

// A value that may stand at the right of the operator.
fn right_value(operator: BinOp, of: IntType, value: i128, to: IntType) -> i128
    requires { FitsRight operator of to }
    ensures value { result ≡ converted_value value to }
    ensures fits { IsRightOperand operator of result }
{
    convert(value, to)
}

#[tactic(auto, unfolding(tm_typed::specs::Rules::values_fold))]
fn values(operator: BinOp, of: IntType, to: IntType, left: i128, right: i128) -> Fold
    requires { FitsRight operator of to }
    ensures { result ≡ values_fold operator of to left right }
{
    let left = value_in(left, of);
    let right = right_value(operator, of, right, to);
    outcome(arith(operator, of, left, right))
}

/// A binary operator in the type `of`, the right operand being converted to `to`.
pub fn binary(operator: BinOp, of: IntType, to: IntType, left: Fold, right: Fold) -> Fold
    requires { FitsRight operator of to }
    ensures { result ≡ binary_fold operator of to left right }
{
    match left {
        Fold::Unbuilt => Fold::Unbuilt,
        Fold::Faulty => match right {
            Fold::Unbuilt => Fold::Unbuilt,
            Fold::Faulty | Fold::Value(_) => Fold::Faulty,
        },
        Fold::Value(left) => match right {
            Fold::Unbuilt => Fold::Unbuilt,
            Fold::Faulty => Fold::Faulty,
            Fold::Value(right) => values(operator, of, to, left, right),
        },
    }
}

/// `&&` or `||`: a faulty right operand does not matter where it is not evaluated.
pub fn logical(and: bool, left: Fold, right: Fold) -> Fold
    ensures { result ≡ logical_fold and left right }
{
    match (left, right) {
        (Fold::Unbuilt, _) => Fold::Unbuilt,
        (Fold::Faulty, Fold::Unbuilt) => Fold::Unbuilt,
        (Fold::Faulty, Fold::Faulty | Fold::Value(_)) => Fold::Faulty,
        (Fold::Value(_), Fold::Unbuilt) => Fold::Unbuilt,
        (Fold::Value(left), Fold::Faulty) => {
            if and {
                if left == 0 {
                    Fold::Value(0)
                } else {
                    Fold::Faulty
                }
            } else if left == 0 {
                Fold::Faulty
            } else {
                Fold::Value(1)
            }
        }
        (Fold::Value(left), Fold::Value(right)) => {
            if and {
                Fold::Value(i128::from(left != 0 && right != 0))
            } else {
                Fold::Value(i128::from(left != 0 || right != 0))
            }
        }
    }
}

/// `?:` in the type `of`: the arm that is not evaluated may be faulty.
pub fn chosen(of: IntType, condition: Fold, first: Fold, second: Fold) -> Fold
    ensures { result ≡ chosen_fold of condition first second }
{
    match (condition, first, second) {
        (Fold::Unbuilt, _, _) => Fold::Unbuilt,
        (_, Fold::Unbuilt, _) => Fold::Unbuilt,
        (_, _, Fold::Unbuilt) => Fold::Unbuilt,
        (Fold::Faulty, _, _) => Fold::Faulty,
        (Fold::Value(condition), first, second) => {
            converted(of, if condition == 0 { second } else { first })
        }
    }
}
