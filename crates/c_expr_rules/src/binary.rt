//! Binary operators (C99 6.5.5 to 6.5.12) but `&&` and `||`.
ghost use Rattle.std.specs.Prelude.{◌≡◌};
ghost use Rattle.tm_typed.specs.TypedTrees.{rvalue_tree, rated, operand_tree};
ghost use Rattle.tm_typed.specs.Refusals.{Gives};
ghost use Rattle.tm_typed.specs.Rules.{is_shift, is_comparison, working_type, right_type, FitsRight, binary_made};
ghost use Rattle.tm_typed.specs.Rules.{integers_rules, order_rules, others_rules, binary_rules};

use crate::conversions::converted;
use crate::forms::{integer_made, refused, truth_made};
use crate::pointers::{difference, equality, sum};
use c_folds as folds;
use c_scope::Scope;
use std::alloc::Global;
use tm_cint::{BinOp, IntType, promote, usual};
use tm_terms::{Fail, Kind, Place};
use tm_typed::{Fold, Operand, Rvalue, Sort, Valued};

fn is_shift(operator: BinOp) -> bool
    ensures { result ≡ is_shift operator }
{
    match operator {
        BinOp::Shl | BinOp::Shr => true,
        BinOp::Add
        | BinOp::Sub
        | BinOp::Mul
        | BinOp::Div
        | BinOp::Rem
        | BinOp::And
        | BinOp::Or
        | BinOp::Xor
        | BinOp::Lt
        | BinOp::Le
        | BinOp::Gt
        | BinOp::Ge
        | BinOp::Eq
        | BinOp::Ne => false,
    }
}

fn is_comparison(operator: BinOp) -> bool
    ensures { result ≡ is_comparison operator }
{
    match operator {
        BinOp::Lt | BinOp::Le | BinOp::Gt | BinOp::Ge | BinOp::Eq | BinOp::Ne => true,
        BinOp::Add
        | BinOp::Sub
        | BinOp::Mul
        | BinOp::Div
        | BinOp::Rem
        | BinOp::Shl
        | BinOp::Shr
        | BinOp::And
        | BinOp::Or
        | BinOp::Xor => false,
    }
}

/// The type in which an operator works.
#[tactic(auto, unfolding(tm_typed::specs::Rules::working_type))]
pub(crate) fn working_type(operator: BinOp, left: IntType, right: IntType) -> IntType
    ensures { result ≡ working_type operator left right }
{
    if is_shift(operator) {
        promote(left)
    } else {
        usual(left, right)
    }
}

/// The type to which its right operand is converted, where it works in the type `of`.
#[tactic(auto, unfolding(tm_typed::specs::Rules::right_type))]
pub(crate) fn right_type(operator: BinOp, of: IntType, right: IntType) -> IntType
    ensures value { result ≡ right_type operator of right }
    ensures fits { FitsRight operator of result }
{
    if is_shift(operator) {
        promote(right)
    } else {
        of
    }
}

fn binary_made(
    alloc: Global,
    operator: BinOp,
    of: IntType,
    fold: Fold,
    value: Rvalue,
    place: Place,
) -> Result<Operand, Fail>
    ensures { Gives operand_tree result (binary_made operator of fold (rvalue_tree value) place) }
{
    if is_comparison(operator) {
        truth_made(alloc, fold, value, place)
    } else {
        integer_made(alloc, of, fold, value, place)
    }
}

// The type of an integer operand, and whether it is folded.
#[derive(Clone, Copy)]
struct Integer {
    of: IntType,
    fold: Fold,
}

// The operator between integers.
fn integers(
    alloc: Global,
    operator: BinOp,
    place: Place,
    left: Valued,
    first: Integer,
    right: Valued,
    second: Integer,
) -> Result<Operand, Fail>
    ensures { Gives operand_tree result
        (integers_rules operator place (rated left) first.of first.fold (rated right) second.of second.fold) }
{
    let of = working_type(operator, first.of, second.of);
    let to = right_type(operator, of, second.of);
    let fold = folds::binary(operator, of, to, first.fold, second.fold);
    let left = converted(alloc, first.of, of, left)?;
    let right = converted(alloc, second.of, to, right)?;
    binary_made(
        alloc,
        operator,
        of,
        fold,
        Rvalue::Binary {
            operator,
            of,
            left,
            right,
            place,
        },
        place,
    )
}

// `<`, `<=`, `>`, `>=` of other operands than integers.
fn order(place: Place, left: Sort, right: Sort) -> Result<Operand, Fail>
    ensures { Gives operand_tree result (order_rules place left right) }
{
    if left.is_pointer() && right.is_pointer() {
        refused(Kind::Unsupported, place)
    } else {
        refused(Kind::Mismatch, place)
    }
}

// The operator between operands that are not both integers.
fn others(
    alloc: Global,
    scope: &Scope,
    operator: BinOp,
    place: Place,
    left: Valued,
    right: Valued,
) -> Result<Operand, Fail>
    ensures { Gives operand_tree result (others_rules scope.now operator place (rated left) (rated right)) }
{
    match operator {
        BinOp::Eq => equality(alloc, scope, true, place, left, right),
        BinOp::Ne => equality(alloc, scope, false, place, left, right),
        BinOp::Add => sum(alloc, scope, place, left, right),
        BinOp::Sub => difference(alloc, scope, place, left, right),
        BinOp::Lt | BinOp::Le | BinOp::Gt | BinOp::Ge => order(place, left.sort, right.sort),
        BinOp::Mul
        | BinOp::Div
        | BinOp::Rem
        | BinOp::Shl
        | BinOp::Shr
        | BinOp::And
        | BinOp::Or
        | BinOp::Xor => refused(Kind::Mismatch, place),
    }
}

/// A binary operator.
pub(crate) fn binary(
    alloc: Global,
    scope: &Scope,
    operator: BinOp,
    place: Place,
    left: Valued,
    right: Valued,
) -> Result<Operand, Fail>
    ensures { Gives operand_tree result (binary_rules scope.now operator place (rated left) (rated right)) }
{
    match (left.sort, right.sort) {
        (Sort::Integer(a, f), Sort::Integer(b, g)) => {
            let first = Integer { of: a, fold: f };
            let second = Integer { of: b, fold: g };
            integers(alloc, operator, place, left, first, right, second)
        }
        _ => others(alloc, scope, operator, place, left, right),
    }
}
