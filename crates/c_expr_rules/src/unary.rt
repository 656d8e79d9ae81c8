//! Unary operators (C99 6.5.3).
ghost use Rattle.std.specs.Prelude.{◌≡◌};
ghost use Rattle.tm_typed.specs.TypedTrees.{rated, operand_tree};
ghost use Rattle.tm_typed.specs.Refusals.{Gives};
ghost use Rattle.tm_typed.specs.Rules.{address_rules, dereference_rules, not_rules, minus_rules, complement_rules};
ghost use Rattle.tm_typed.specs.Rules.{plus_rules};

use crate::conversions::converted;
use crate::forms::{boxed, designated, integer_made, made, refused, truth_made};
use c_folds as folds;
use c_scope::Scope;
use std::alloc::Global;
use tm_cint::promote;
use tm_terms::{Fail, Kind, Place};
use tm_typed::{Lvalue, Operand, Rvalue, Sort, Unary, Valued};

/// `&`
pub(crate) fn address(alloc: Global, place: Place, operand: Operand) -> Result<Operand, Fail>
    ensures { Gives operand_tree result (address_rules place (operand_tree operand)) }
{
    match operand {
        Operand::Value(_) => refused(Kind::NotLvalue, place),
        Operand::Lvalue { lvalue, of } => match Box::into_inner(lvalue) {
            Lvalue::Pointed { pointer, .. } => {
                let value = pointer;
                made(
                    alloc,
                    Rvalue::Same { value, place },
                    Sort::Pointer(of),
                    place,
                )
            }
            Lvalue::Subscript {
                pointer,
                index,
                cells,
                place: at,
                ..
            } => made(
                alloc,
                Rvalue::Move {
                    minus: false,
                    cells,
                    index_first: false,
                    pointer,
                    index,
                    place: at,
                },
                Sort::Pointer(of),
                place,
            ),
            Lvalue::Element {
                array,
                index,
                cells,
                place: at,
                ..
            } => {
                let first = array.place();
                let pointer = boxed(
                    alloc,
                    Rvalue::Address {
                        lvalue: array,
                        place: first,
                    },
                )?;
                made(
                    alloc,
                    Rvalue::Move {
                        minus: false,
                        cells,
                        index_first: false,
                        pointer,
                        index,
                        place: at,
                    },
                    Sort::Pointer(of),
                    place,
                )
            }
            lvalue => {
                let lvalue = boxed(alloc, lvalue)?;
                made(
                    alloc,
                    Rvalue::Address { lvalue, place },
                    Sort::Pointer(of),
                    place,
                )
            }
        },
    }
}

/// `*`
pub(crate) fn dereference(
    alloc: Global,
    scope: &Scope,
    place: Place,
    valued: Valued,
) -> Result<Operand, Fail>
    ensures { Gives operand_tree result (dereference_rules scope.now place (rated valued) valued.sort) }
{
    match valued.sort {
        Sort::Pointer(of) => {
            if !scope.is_complete(of.number) {
                return refused(Kind::Mismatch, place);
            }
            designated(
                alloc,
                Lvalue::Pointed {
                    pointer: valued.value,
                    target: of.number,
                    place,
                },
                of,
            )
        }
        Sort::Integer(..) | Sort::Null | Sort::Structure(_) | Sort::Nothing => {
            refused(Kind::Mismatch, place)
        }
    }
}

/// `!`
pub(crate) fn not(alloc: Global, place: Place, valued: Valued) -> Result<Operand, Fail>
    ensures { Gives operand_tree result (not_rules place (rated valued)) }
{
    if !valued.sort.is_condition() {
        return refused(Kind::Mismatch, place);
    }
    let fold = folds::not(valued.sort.fold());
    let value = valued.value;
    truth_made(alloc, fold, Rvalue::Not { value, place }, place)
}

/// Unary `-`
pub(crate) fn minus(alloc: Global, place: Place, valued: Valued) -> Result<Operand, Fail>
    ensures { Gives operand_tree result (minus_rules place (rated valued) valued.sort) }
{
    match valued.sort {
        Sort::Integer(from, fold) => {
            let of = promote(from);
            let value = converted(alloc, from, of, valued)?;
            integer_made(
                alloc,
                of,
                folds::minus(of, fold),
                Rvalue::Unary {
                    operator: Unary::Negate,
                    of,
                    value,
                    place,
                },
                place,
            )
        }
        Sort::Pointer(_) | Sort::Null | Sort::Structure(_) | Sort::Nothing => {
            refused(Kind::Mismatch, place)
        }
    }
}

/// `~`
pub(crate) fn complement(alloc: Global, place: Place, valued: Valued) -> Result<Operand, Fail>
    ensures { Gives operand_tree result (complement_rules place (rated valued) valued.sort) }
{
    match valued.sort {
        Sort::Integer(from, fold) => {
            let of = promote(from);
            let value = converted(alloc, from, of, valued)?;
            integer_made(
                alloc,
                of,
                folds::complement(of, fold),
                Rvalue::Unary {
                    operator: Unary::Complement,
                    of,
                    value,
                    place,
                },
                place,
            )
        }
        Sort::Pointer(_) | Sort::Null | Sort::Structure(_) | Sort::Nothing => {
            refused(Kind::Mismatch, place)
        }
    }
}

/// Unary `+`
pub(crate) fn plus(alloc: Global, place: Place, valued: Valued) -> Result<Operand, Fail>
    ensures { Gives operand_tree result (plus_rules place (rated valued) valued.sort) }
{
    match valued.sort {
        Sort::Integer(from, fold) => {
            let of = promote(from);
            let value = converted(alloc, from, of, valued)?;
            integer_made(alloc, of, fold, Rvalue::Same { value, place }, place)
        }
        Sort::Pointer(_) | Sort::Null | Sort::Structure(_) | Sort::Nothing => {
            refused(Kind::Mismatch, place)
        }
    }
}
