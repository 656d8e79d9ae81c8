//! Subscripts and members (C99 6.5.2.1, 6.5.2.3).
ghost use Rattle.std.specs.Prelude.{◌≡◌};
ghost use Rattle.tm_typed.specs.TypedTrees.{lvalue_tree, rated, operand_tree};
ghost use Rattle.tm_typed.specs.Refusals.{Gives};
ghost use Rattle.tm_typed.specs.Scopes.{ctype_of};
ghost use Rattle.tm_typed.specs.Rules.{pointer_subscript, lvalue_subscript, subscript_rules, member_type};
ghost use Rattle.tm_typed.specs.Rules.{dot_rules, arrow_rules};

use crate::conversions::loaded;
use crate::forms::{designated, refused};
use c_scope::Scope;
use std::alloc::Global;
use tm_terms::{Fail, Kind, Name, Place};
use tm_typed::{CType, Lvalue, Operand, Part, Qualified, Sort, Valued};

fn pointer_subscript(
    alloc: Global,
    scope: &Scope,
    place: Place,
    pointer: Valued,
    index: Valued,
) -> Result<Operand, Fail>
    ensures { Gives operand_tree result (pointer_subscript scope.now place (rated pointer) pointer.sort (rated index)) }
{
    match pointer.sort {
        Sort::Pointer(of) => {
            if !(index.sort.is_integer() && scope.is_complete(of.number)) {
                return refused(Kind::Mismatch, place);
            }
            designated(
                alloc,
                Lvalue::Subscript {
                    pointer: pointer.value,
                    index: index.value,
                    cells: scope.cells(of.number),
                    target: of.number,
                    place,
                },
                of,
            )
        }
        Sort::Integer(..) | Sort::Null | Sort::Structure(_) | Sort::Nothing => refused(
            Kind::Mismatch,
            place,
        ),
    }
}

fn lvalue_subscript(
    alloc: Global,
    scope: &Scope,
    place: Place,
    array: Box<Lvalue>,
    of: Qualified,
    index: Valued,
) -> Result<Operand, Fail>
    ensures { Gives operand_tree result (lvalue_subscript scope.now place (lvalue_tree array.value) of
        (rated index) (ctype_of scope.now of.number)) }
{
    match scope.ctype(of.number) {
        CType::Array { element, length } => {
            if !index.sort.is_integer() {
                return refused(Kind::Mismatch, place);
            }
            designated(
                alloc,
                Lvalue::Element {
                    array,
                    index: index.value,
                    length,
                    cells: scope.cells(element),
                    place,
                },
                Qualified {
                    number: element,
                    constant: of.constant,
                    volatile: of.volatile,
                },
            )
        }
        ctype => {
            let pointer = loaded(alloc, scope, array, of, ctype)?;
            pointer_subscript(alloc, scope, place, pointer, index)
        },
    }
}

/// `e[i]`
pub fn subscript(
    alloc: Global,
    scope: &Scope,
    place: Place,
    array: Operand,
    index: Valued,
) -> Result<Operand, Fail>
    ensures { Gives operand_tree result (subscript_rules scope.now place (operand_tree array) (rated index)) }
{
    match array {
        Operand::Lvalue { lvalue, of } => lvalue_subscript(alloc, scope, place, lvalue, of, index),
        Operand::Value(pointer) => pointer_subscript(alloc, scope, place, pointer, index),
    }
}

fn member_type(of: Qualified, part: Part) -> Qualified
    ensures { result ≡ member_type of part }
{
    part.of.qualified_as(of)
}

/// `e.m`
pub(crate) fn dot(
    alloc: Global,
    scope: &Scope,
    place: Place,
    operand: Operand,
    name: Name,
    name_place: Place,
) -> Result<Operand, Fail>
    ensures { Gives operand_tree result (dot_rules scope.now place (operand_tree operand) name name_place) }
{
    match operand {
        Operand::Value(_) => refused(Kind::Mismatch, place),
        Operand::Lvalue { lvalue, of } => match scope.ctype(of.number) {
            CType::Struct(number) => match scope.member(number, name) {
                None => refused(Kind::Undeclared, name_place),
                Some(member) => {
                    let to = member_type(of, member.part);
                    if scope.is_volatile_pointer(to) {
                        return refused(Kind::Unsupported, place);
                    }
                    designated(
                        alloc,
                        Lvalue::Member {
                            structure: lvalue,
                            cell: member.part.cell,
                            place,
                        },
                        to,
                    )
                }
            },
            CType::Void | CType::Int(_) | CType::Pointer(_) | CType::Array { .. } => refused(
                Kind::Mismatch,
                place,
            ),
        },
    }
}

/// `e->m`
pub(crate) fn arrow(
    alloc: Global,
    scope: &Scope,
    place: Place,
    pointer: Valued,
    name: Name,
    name_place: Place,
) -> Result<Operand, Fail>
    ensures { Gives operand_tree result (arrow_rules scope.now place (rated pointer) pointer.sort name name_place) }
{
    match pointer.sort {
        Sort::Pointer(of) => match scope.ctype(of.number) {
            CType::Struct(number) => match scope.member(number, name) {
                None => refused(Kind::Undeclared, name_place),
                Some(member) => {
                    let to = member_type(of, member.part);
                    if scope.is_volatile_pointer(to) {
                        return refused(Kind::Unsupported, place);
                    }
                    designated(
                        alloc,
                        Lvalue::Arrow {
                            pointer: pointer.value,
                            target: of.number,
                            cell: member.part.cell,
                            place,
                        },
                        to,
                    )
                }
            },
            CType::Void | CType::Int(_) | CType::Pointer(_) | CType::Array { .. } => refused(
                Kind::Mismatch,
                place,
            ),
        },
        Sort::Integer(..) | Sort::Null | Sort::Structure(_) | Sort::Nothing => refused(
            Kind::Mismatch,
            place,
        ),
    }
}
