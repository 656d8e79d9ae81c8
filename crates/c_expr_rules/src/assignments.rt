//! `=` (C99 6.5.16.1).
ghost use Rattle.std.specs.Prelude.{◌≡◌};
ghost use Rattle.tm_typed.specs.TypedTrees.{lvalue_tree, rated, operand_tree};
ghost use Rattle.tm_typed.specs.Refusals.{Gives};
ghost use Rattle.tm_typed.specs.Rules.{lvalue_assigned, value_takes, assignment_target, assignment_rules};

use crate::conversions::{given, is_taken};
use crate::forms::{made, refused};
use c_scope::Scope;
use std::alloc::Global;
use tm_terms::{Fail, Kind, Place};
use tm_typed::{Lvalue, Operand, Qualified, Rvalue, Sort, Valued};

// To an lvalue of this type.
fn assigned(
    alloc: Global,
    scope: &Scope,
    place: Place,
    target: Box<Lvalue>,
    of: Qualified,
    valued: Valued,
) -> Result<Operand, Fail>
    ensures { Gives operand_tree result (lvalue_assigned scope.now place (lvalue_tree target.value) of (rated valued)) }
{
    match scope.scalar(of.number) {
        None => refused(Kind::NotLvalue, place),
        Some(scalar) => match given(alloc, scope, valued, of.number)? {
            None => refused(Kind::Mismatch, place),
            Some(value) => {
                if of.constant {
                    return refused(Kind::NotLvalue, place);
                }
                made(
                    alloc,
                    Rvalue::Assign {
                        scalar,
                        target,
                        value,
                        place,
                    },
                    Sort::kept(scope.ctype(of.number)),
                    place,
                )
            }
        },
    }
}

// Whether an object with the sort of this value would take a value of the sort.
fn value_takes(scope: &Scope, to: Sort, sort: Sort) -> bool
    ensures { result ≡ value_takes scope.now to sort }
{
    match to {
        Sort::Integer(..) => sort.is_integer(),
        Sort::Pointer(of) => is_taken(scope, of, sort),
        Sort::Null => sort.is_null(),
        Sort::Structure(_) | Sort::Nothing => true,
    }
}

// By what stands at the left.
fn to_target(
    alloc: Global,
    scope: &Scope,
    place: Place,
    target: Operand,
    valued: Valued,
) -> Result<Operand, Fail>
    ensures { Gives operand_tree result (assignment_target scope.now place (operand_tree target) (rated valued)) }
{
    match target {
        Operand::Lvalue { lvalue, of } => assigned(alloc, scope, place, lvalue, of, valued),
        Operand::Value(target) => {
            if value_takes(scope, target.sort, valued.sort) {
                refused(Kind::NotLvalue, place)
            } else {
                refused(Kind::Mismatch, place)
            }
        }
    }
}

/// `=`
pub(crate) fn assignment(
    alloc: Global,
    scope: &Scope,
    place: Place,
    target: Operand,
    valued: Valued,
) -> Result<Operand, Fail>
    ensures { Gives operand_tree result (assignment_rules scope.now place (operand_tree target) (rated valued)) }
{
    if valued.sort.is_structure() {
        return refused(Kind::Unsupported, place);
    }
    to_target(alloc, scope, place, target, valued)
}
