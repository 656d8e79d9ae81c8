//! `&&`, `||`, `?:` and the comma (C99 6.5.13 to 6.5.17).
ghost use Rattle.std.specs.Prelude.{◌≡◌};
ghost use Rattle.tm_typed.specs.TypedTrees.{rated, operand_tree};
ghost use Rattle.tm_typed.specs.Refusals.{Gives};
ghost use Rattle.tm_typed.specs.Rules.{logical_rules, conditional_pair, conditional_sorts, conditional_rules};
ghost use Rattle.tm_typed.specs.Rules.{comma_rules};
ghost use Rattle.c_expr_rules.specs.Pairs.{pair_of};

use crate::conversions::converted;
use crate::forms::{integer_made, made, refused, truth_made};
use crate::pointers::{Pair, paired};
use c_folds as folds;
use c_scope::Scope;
use std::alloc::Global;
use tm_cint::usual;
use tm_terms::{Fail, Kind, Place};
use tm_typed::{Operand, Rvalue, Sort, Valued};

/// `&&`, `||`
pub(crate) fn logical(
    alloc: Global,
    and: bool,
    place: Place,
    left: Valued,
    right: Valued,
) -> Result<Operand, Fail>
    ensures { Gives operand_tree result (logical_rules and place (rated left) (rated right)) }
{
    if !(left.sort.is_condition() && right.sort.is_condition()) {
        return refused(Kind::Mismatch, place);
    }
    let fold = folds::logical(and, left.sort.fold(), right.sort.fold());
    let left = left.value;
    let right = right.value;
    if and {
        truth_made(alloc, fold, Rvalue::And { left, right, place }, place)
    } else {
        truth_made(alloc, fold, Rvalue::Or { left, right, place }, place)
    }
}

// `?:` of two pointers.
fn chosen_pointer(
    alloc: Global,
    place: Place,
    condition: Valued,
    pair: Pair,
) -> Result<Operand, Fail>
    ensures { Gives operand_tree result (conditional_pair place (rated condition) (pair_of pair) pair.common) }
{
    match pair.common {
        Sort::Pointer(of) => made(
            alloc,
            Rvalue::Conditional {
                condition: condition.value,
                first: pair.left,
                second: pair.right,
                place,
            },
            Sort::Pointer(of),
            place,
        ),
        Sort::Integer(..) | Sort::Null | Sort::Structure(_) | Sort::Nothing => {
            refused(Kind::Unsupported, place)
        }
    }
}

// `?:` by the sorts of its arms.
fn chosen(
    alloc: Global,
    scope: &Scope,
    place: Place,
    condition: Valued,
    first: Valued,
    second: Valued,
) -> Result<Operand, Fail>
    ensures { Gives operand_tree result
        (conditional_sorts scope.now place (rated condition) (rated first) first.sort (rated second) second.sort) }
{
    match (first.sort, second.sort) {
        (Sort::Integer(a, f), Sort::Integer(b, g)) => {
            let of = usual(a, b);
            let fold = folds::chosen(of, condition.sort.fold(), f, g);
            let condition = condition.value;
            let first = converted(alloc, a, of, first)?;
            let second = converted(alloc, b, of, second)?;
            integer_made(
                alloc,
                of,
                fold,
                Rvalue::Conditional {
                    condition,
                    first,
                    second,
                    place,
                },
                place,
            )
        }
        (Sort::Nothing, Sort::Nothing) => made(
            alloc,
            Rvalue::Conditional {
                condition: condition.value,
                first: first.value,
                second: second.value,
                place,
            },
            Sort::Nothing,
            place,
        ),
        _ => match paired(alloc, scope, first, second)? {
            Some(pair) => chosen_pointer(alloc, place, condition, pair),
            None => refused(Kind::Mismatch, place),
        },
    }
}

/// `?:`
pub fn conditional(
    alloc: Global,
    scope: &Scope,
    place: Place,
    condition: Valued,
    first: Valued,
    second: Valued,
) -> Result<Operand, Fail>
    ensures { Gives operand_tree result
        (conditional_rules scope.now place (rated condition) (rated first) (rated second)) }
{
    if !condition.sort.is_condition() {
        return refused(Kind::Mismatch, place);
    }
    chosen(alloc, scope, place, condition, first, second)
}

/// `,`
pub(crate) fn comma(
    alloc: Global,
    place: Place,
    left: Valued,
    right: Valued,
) -> Result<Operand, Fail>
    ensures { Gives operand_tree result (comma_rules place (rated left) (rated right)) }
{
    if right.sort.is_void_pointer() {
        return refused(Kind::Unsupported, place);
    }
    let sort = right.sort.unbuilt();
    let left = left.value;
    let right = right.value;
    made(alloc, Rvalue::Comma { left, right, place }, sort, place)
}
