//! Compound assignment (C99 6.5.16.2).
ghost use Rattle.std.specs.Prelude.{◌≡◌};
ghost use Rattle.tm_typed.specs.TypedTrees.{lvalue_tree, rated, operand_tree};
ghost use Rattle.tm_typed.specs.Refusals.{Gives};
ghost use Rattle.tm_typed.specs.Rules.{is_additive, is_difference, compound_integer, compound_pointer, compound_value};
ghost use Rattle.tm_typed.specs.Rules.{compound_rules};
ghost use Rattle.tm_typed.specs.Typing.{compound_sign};

use crate::binary::{right_type, working_type};
use crate::conversions::converted;
use crate::forms::{made, refused};
use c_scope::Scope;
use std::alloc::Global;
use tm_cint::{BinOp, IntType};
use tm_terms::{Binary, Fail, Kind, Place};
use tm_typed::{CType, Fold, Lvalue, Operand, Qualified, Rvalue, Sort, Valued};

fn is_additive(operator: BinOp) -> bool
    ensures { result ≡ is_additive operator }
{
    matches!(operator, BinOp::Add | BinOp::Sub)
}

fn is_difference(operator: BinOp) -> bool
    ensures { result ≡ is_difference operator }
{
    matches!(operator, BinOp::Sub)
}

fn compound_integer(
    alloc: Global,
    operator: BinOp,
    place: Place,
    target: Box<Lvalue>,
    of: Qualified,
    cell: IntType,
    valued: Valued,
) -> Result<Operand, Fail>
    ensures { Gives operand_tree result (compound_integer operator place (lvalue_tree target.value) of
        cell (rated valued) valued.sort) }
{
    match valued.sort {
        Sort::Integer(from, _) => {
            if of.constant {
                return refused(Kind::NotLvalue, place);
            }
            let working = working_type(operator, cell, from);
            let value = converted(alloc, from, right_type(operator, working, from), valued)?;
            made(
                alloc,
                Rvalue::Compound {
                    operator,
                    cell,
                    of: working,
                    volatile: of.volatile,
                    target,
                    value,
                    place,
                },
                Sort::Integer(cell, Fold::Unbuilt),
                place,
            )
        }
        Sort::Pointer(_) | Sort::Null | Sort::Structure(_) | Sort::Nothing => refused(
            Kind::Mismatch,
            place,
        ),
    }
}

fn compound_pointer(
    alloc: Global,
    scope: &Scope,
    operator: BinOp,
    place: Place,
    target: Box<Lvalue>,
    of: Qualified,
    class: u32,
    to: Qualified,
    valued: Valued,
) -> Result<Operand, Fail>
    ensures { Gives operand_tree result (compound_pointer scope.now operator place (lvalue_tree target.value) of
        class to (rated valued) valued.sort) }
{
    match valued.sort {
        Sort::Integer(..) => {
            if !(is_additive(operator) && scope.is_complete(to.number)) {
                return refused(Kind::Mismatch, place);
            }
            if of.constant {
                return refused(Kind::NotLvalue, place);
            }
            made(
                alloc,
                Rvalue::CompoundMove {
                    minus: is_difference(operator),
                    cells: scope.cells(to.number),
                    class,
                    target,
                    value: valued.value,
                    place,
                },
                Sort::Pointer(to),
                place,
            )
        }
        Sort::Pointer(_) | Sort::Null | Sort::Structure(_) | Sort::Nothing => {
            if is_difference(operator) && valued.sort.is_pointer() {
                refused(Kind::Unsupported, place)
            } else {
                refused(Kind::Mismatch, place)
            }
        }
    }
}

fn compound_value(
    scope: &Scope,
    operator: BinOp,
    place: Place,
    to: Sort,
    sort: Sort,
) -> Result<Operand, Fail>
    ensures { Gives operand_tree result (compound_value scope.now operator place to sort) }
{
    match (to, sort) {
        (Sort::Integer(..), sort) => {
            if sort.is_integer() {
                refused(Kind::NotLvalue, place)
            } else {
                refused(Kind::Mismatch, place)
            }
        }
        (Sort::Pointer(of), Sort::Integer(..)) => {
            if is_additive(operator) && scope.is_complete(of.number) {
                refused(Kind::NotLvalue, place)
            } else {
                refused(Kind::Mismatch, place)
            }
        }
        (Sort::Pointer(_) | Sort::Null, sort) => {
            if is_difference(operator) && sort.is_pointer() {
                refused(Kind::Unsupported, place)
            } else {
                refused(Kind::Mismatch, place)
            }
        }
        (Sort::Structure(_) | Sort::Nothing, _) => refused(Kind::NotLvalue, place),
    }
}

fn compound_by(
    alloc: Global,
    scope: &Scope,
    operator: BinOp,
    place: Place,
    target: Operand,
    valued: Valued,
) -> Result<Operand, Fail>
    ensures { Gives operand_tree result (compound_rules scope.now operator place (operand_tree target) (rated valued)) }
{
    match target {
        Operand::Value(target) => compound_value(scope, operator, place, target.sort, valued.sort),
        Operand::Lvalue { lvalue, of } => match scope.ctype(of.number) {
            CType::Int(cell) => compound_integer(alloc, operator, place, lvalue, of, cell, valued),
            CType::Pointer(to) => {
                let class = scope.entry(of.number).class;
                compound_pointer(alloc, scope, operator, place, lvalue, of, class, to, valued)
            }
            CType::Void | CType::Array { .. } | CType::Struct(_) => refused(Kind::NotLvalue, place),
        },
    }
}

/// `+=` and the like
pub(crate) fn compound(
    alloc: Global,
    scope: &Scope,
    sign: Binary,
    place: Place,
    target: Operand,
    valued: Valued,
) -> Result<Operand, Fail>
    ensures { Gives operand_tree result (compound_sign scope.now sign place (operand_tree target) (rated valued)) }
{
    match sign {
        Binary::Multiply => compound_by(alloc, scope, BinOp::Mul, place, target, valued),
        Binary::Divide => compound_by(alloc, scope, BinOp::Div, place, target, valued),
        Binary::Remainder => compound_by(alloc, scope, BinOp::Rem, place, target, valued),
        Binary::Add => compound_by(alloc, scope, BinOp::Add, place, target, valued),
        Binary::Subtract => compound_by(alloc, scope, BinOp::Sub, place, target, valued),
        Binary::ShiftLeft => compound_by(alloc, scope, BinOp::Shl, place, target, valued),
        Binary::ShiftRight => compound_by(alloc, scope, BinOp::Shr, place, target, valued),
        Binary::BitAnd => compound_by(alloc, scope, BinOp::And, place, target, valued),
        Binary::BitXor => compound_by(alloc, scope, BinOp::Xor, place, target, valued),
        Binary::BitOr => compound_by(alloc, scope, BinOp::Or, place, target, valued),
        Binary::Less
        | Binary::Greater
        | Binary::LessEqual
        | Binary::GreaterEqual
        | Binary::Equal
        | Binary::NotEqual
        | Binary::And
        | Binary::Or => refused(Kind::Mismatch, place),
    }
}
