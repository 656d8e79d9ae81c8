//! `++` and `--` (C99 6.5.2.4, 6.5.3.1).
ghost use Rattle.std.specs.Prelude.{◌≡◌};
ghost use Rattle.tm_typed.specs.TypedTrees.{lvalue_tree, operand_tree};
ghost use Rattle.tm_typed.specs.Refusals.{Gives};
ghost use Rattle.tm_typed.specs.Scopes.{entry, ctype_of};
ghost use Rattle.tm_typed.specs.Rules.{step_by, step_value, step_rules};

use crate::forms::{made, refused};
use c_scope::Scope;
use std::alloc::Global;
use tm_cint::{IntType, usual};
use tm_terms::{Fail, Kind, Place};
use tm_typed::{CType, Fold, Lvalue, Operand, Qualified, Rvalue, Sort, Step};

fn step_lvalue(
    alloc: Global,
    scope: &Scope,
    step: Step,
    place: Place,
    target: Box<Lvalue>,
    of: Qualified,
) -> Result<Operand, Fail>
    ensures { Gives operand_tree result (step_by scope.now step place (lvalue_tree target.value) of
        (entry scope.now of.number) (ctype_of scope.now of.number)) }
{
    match scope.ctype(of.number) {
        CType::Int(cell) => {
            if of.constant {
                return refused(Kind::NotLvalue, place);
            }
            made(
                alloc,
                Rvalue::Step {
                    step,
                    cell,
                    of: usual(cell, IntType::Int),
                    volatile: of.volatile,
                    target,
                    place,
                },
                Sort::Integer(cell, Fold::Unbuilt),
                place,
            )
        }
        CType::Pointer(to) => {
            if !scope.is_complete(to.number) {
                return refused(Kind::Mismatch, place);
            }
            if of.constant {
                return refused(Kind::NotLvalue, place);
            }
            made(
                alloc,
                Rvalue::StepMove {
                    step,
                    cells: scope.cells(to.number),
                    class: scope.entry(of.number).class,
                    target,
                    place,
                },
                Sort::Pointer(to),
                place,
            )
        }
        CType::Void | CType::Array { .. } | CType::Struct(_) => refused(Kind::NotLvalue, place),
    }
}

fn step_value(scope: &Scope, place: Place, sort: Sort) -> Result<Operand, Fail>
    ensures { Gives operand_tree result (step_value scope.now place sort) }
{
    match sort {
        Sort::Pointer(of) => {
            if scope.is_complete(of.number) {
                refused(Kind::NotLvalue, place)
            } else {
                refused(Kind::Mismatch, place)
            }
        }
        Sort::Null => refused(Kind::Mismatch, place),
        Sort::Integer(..) | Sort::Structure(_) | Sort::Nothing => refused(Kind::NotLvalue, place),
    }
}

/// `++`, `--`
pub(crate) fn step(
    alloc: Global,
    scope: &Scope,
    step: Step,
    place: Place,
    operand: Operand,
) -> Result<Operand, Fail>
    ensures { Gives operand_tree result (step_rules scope.now step place (operand_tree operand)) }
{
    match operand {
        Operand::Lvalue { lvalue, of } => step_lvalue(alloc, scope, step, place, lvalue, of),
        Operand::Value(valued) => step_value(scope, place, valued.sort),
    }
}
