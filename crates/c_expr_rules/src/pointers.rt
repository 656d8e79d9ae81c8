//! Operators on pointers (C99 6.5.6, 6.5.9), and pairs of pointers of one type.
ghost use Rattle.std.specs.Prelude.{◌≡◌, cond};
ghost use Rattle.tm_typed.specs.TypedTrees.{rated, operand_tree, a_null};
ghost use Rattle.tm_typed.specs.Refusals.{Gives, GivesOption};
ghost use Rattle.tm_typed.specs.Operands.{is_null};
ghost use Rattle.tm_typed.specs.Rules.{pair, paired, equality_rules, move_rules, sum_rules, difference_rules};
ghost use Rattle.c_expr_rules.specs.Pairs.{pair_of};

use crate::forms::{boxed, made, refused};
use c_scope::Scope;
use std::alloc::Global;
use tm_cint::IntType;
use tm_lattice::NoMemory;
use tm_terms::{Fail, Kind, Place};
use tm_typed::{Fold, Operand, Qualified, Rvalue, Sort, Valued};

/// Two pointers of one type, or a pointer and a null constant as one: both, and their common type.
#[derive(Drop)]
pub(crate) struct Pair {
    pub(crate) left: Box<Rvalue>,
    pub(crate) right: Box<Rvalue>,
    pub(crate) common: Sort,
}

// The left operand with the null constant that the right one is.
fn with_null_right(
    alloc: Global,
    left: Valued,
    right: Valued,
    common: Sort,
) -> Result<Option<Pair>, NoMemory>
    ensures { GivesOption pair_of result
        (cond (is_null right.sort) (pair (rated left).value (a_null right.place) common) None) }
{
    if !right.sort.is_null() {
        return Ok(None);
    }
    let place = right.place;
    let null = boxed(alloc, Rvalue::Null { place })?;
    Ok(Some(Pair {
        left: left.value,
        right: null,
        common,
    }))
}

// The null constant that the left operand is, with the right one.
fn with_null_left(
    alloc: Global,
    left: Valued,
    right: Valued,
    common: Sort,
) -> Result<Option<Pair>, NoMemory>
    ensures { GivesOption pair_of result
        (cond (is_null left.sort) (pair (a_null left.place) (rated right).value common) None) }
{
    if !left.sort.is_null() {
        return Ok(None);
    }
    let place = left.place;
    let null = boxed(alloc, Rvalue::Null { place })?;
    Ok(Some(Pair {
        left: null,
        right: right.value,
        common,
    }))
}

/// Two pointers of one type, or one and a null constant.
pub(crate) fn paired(
    alloc: Global,
    scope: &Scope,
    left: Valued,
    right: Valued,
) -> Result<Option<Pair>, NoMemory>
    ensures { GivesOption pair_of result (paired scope.now (rated left) left.sort (rated right) right.sort) }
{
    match (left.sort, right.sort) {
        (Sort::Pointer(a), Sort::Pointer(b)) => {
            if scope.is_same_type(a.number, b.number) {
                Ok(Some(Pair {
                    left: left.value,
                    right: right.value,
                    common: Sort::Pointer(a.qualified_as(b)),
                }))
            } else {
                Ok(None)
            }
        }
        (
            Sort::Pointer(_) | Sort::Null,
            Sort::Integer(..) | Sort::Null | Sort::Structure(_) | Sort::Nothing,
        ) => {
            let common = left.sort;
            with_null_right(alloc, left, right, common)
        }
        (Sort::Null | Sort::Integer(..) | Sort::Structure(_) | Sort::Nothing, Sort::Pointer(_)) => {
            let common = right.sort;
            with_null_left(alloc, left, right, common)
        }
        (Sort::Integer(..) | Sort::Structure(_) | Sort::Nothing, Sort::Null) => {
            with_null_left(alloc, left, right, Sort::Null)
        }
        (
            Sort::Integer(..) | Sort::Structure(_) | Sort::Nothing,
            Sort::Integer(..) | Sort::Structure(_) | Sort::Nothing,
        ) => Ok(None),
    }
}

/// `==` or `!=` of pointers.
pub(crate) fn equality(
    alloc: Global,
    scope: &Scope,
    equal: bool,
    place: Place,
    left: Valued,
    right: Valued,
) -> Result<Operand, Fail>
    ensures { Gives operand_tree result (equality_rules scope.now equal place (rated left) (rated right)) }
{
    match paired(alloc, scope, left, right)? {
        Some(pair) => made(
            alloc,
            Rvalue::Pointers {
                equal,
                left: pair.left,
                right: pair.right,
                place,
            },
            Sort::Integer(IntType::Int, Fold::Unbuilt),
            place,
        ),
        None => refused(Kind::Mismatch, place),
    }
}

// A pointer plus or minus an integer.
fn moved(
    alloc: Global,
    scope: &Scope,
    minus: bool,
    index_first: bool,
    place: Place,
    pointer: Valued,
    of: Qualified,
    index: Valued,
) -> Result<Operand, Fail>
    ensures { Gives operand_tree result (move_rules scope.now minus index_first place (rated pointer) of
        (rated index)) }
{
    if !scope.is_complete(of.number) {
        return refused(Kind::Mismatch, place);
    }
    made(
        alloc,
        Rvalue::Move {
            minus,
            cells: scope.cells(of.number),
            index_first,
            pointer: pointer.value,
            index: index.value,
            place,
        },
        Sort::Pointer(of),
        place,
    )
}

/// `+` of operands that are not both integers.
pub(crate) fn sum(
    alloc: Global,
    scope: &Scope,
    place: Place,
    left: Valued,
    right: Valued,
) -> Result<Operand, Fail>
    ensures { Gives operand_tree result (sum_rules scope.now place (rated left) left.sort (rated right) right.sort) }
{
    match (left.sort, right.sort) {
        (Sort::Pointer(of), Sort::Integer(..)) => {
            moved(alloc, scope, false, false, place, left, of, right)
        }
        (Sort::Integer(..), Sort::Pointer(of)) => {
            moved(alloc, scope, false, true, place, right, of, left)
        }
        _ => refused(Kind::Mismatch, place),
    }
}

/// `-` of operands that are not both integers.
pub(crate) fn difference(
    alloc: Global,
    scope: &Scope,
    place: Place,
    left: Valued,
    right: Valued,
) -> Result<Operand, Fail>
    ensures { Gives operand_tree result
        (difference_rules scope.now place (rated left) left.sort (rated right) right.sort) }
{
    match (left.sort, right.sort) {
        (Sort::Pointer(of), Sort::Integer(..)) => {
            moved(alloc, scope, true, false, place, left, of, right)
        }
        (a, b) => {
            if a.is_pointer() && b.is_pointer() {
                refused(Kind::Unsupported, place)
            } else {
                refused(Kind::Mismatch, place)
            }
        }
    }
}
