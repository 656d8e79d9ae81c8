//! Operands for their values, and values as those of another type (C99 6.3).
ghost use Rattle.std.specs.Prelude.{◌≡◌, IfOk};
ghost use Rattle.tm_typed.specs.TypedTrees.{rvalue_tree, lvalue_tree, boxed_tree, rated, operand_tree};
ghost use Rattle.tm_typed.specs.Refusals.{GivesOption};
ghost use Rattle.tm_typed.specs.Operands.{converted, loaded, valued, is_taken, pointer_given, integer_given, given};

use crate::forms::boxed;
use c_scope::Scope;
use std::alloc::Global;
use tm_cint::IntType;
use tm_lattice::NoMemory;
use tm_typed::{
    CType, Fold, Lvalue, Operand, Qualified, Rvalue, Scalar, Sort, Valued, is_same_int,
};

/// An integer as one of another type; of the same type it stays as it is.
pub(crate) fn converted(
    alloc: Global,
    from: IntType,
    to: IntType,
    valued: Valued,
) -> Result<Box<Rvalue>, NoMemory>
    ensures { IfOk result (λ b. rvalue_tree b.value ≡ converted from to (rated valued)) }
{
    if is_same_int(from, to) {
        Ok(valued.value)
    } else {
        boxed(
            alloc,
            Rvalue::Convert {
                from,
                to,
                value: valued.value,
                place: valued.place,
            },
        )
    }
}

/// What an lvalue of this type holds; an array is the pointer to its first element.
pub(crate) fn loaded(
    alloc: Global,
    scope: &Scope,
    lvalue: Box<Lvalue>,
    of: Qualified,
    ctype: CType,
) -> Result<Valued, NoMemory>
    ensures { IfOk result (λ v. rated v ≡ loaded scope.now (lvalue_tree lvalue.value) of ctype) }
{
    let place = lvalue.place();
    let (value, sort) = match ctype {
        CType::Int(int) => (
            Rvalue::Load {
                scalar: Scalar::Int(int),
                volatile: of.volatile,
                lvalue,
            },
            Sort::Integer(int, Fold::Unbuilt),
        ),
        CType::Pointer(target) => (
            Rvalue::Load {
                scalar: Scalar::Pointer(scope.entry(of.number).class),
                volatile: false,
                lvalue,
            },
            Sort::Pointer(target),
        ),
        CType::Array { element, .. } => (
            Rvalue::Address { lvalue, place },
            Sort::Pointer(Qualified {
                number: element,
                constant: of.constant,
                volatile: of.volatile,
            }),
        ),
        CType::Struct(structure) => (Rvalue::Structure { lvalue }, Sort::Structure(structure)),
        CType::Void => (Rvalue::Structure { lvalue }, Sort::Nothing),
    };
    let value = boxed(alloc, value)?;
    Ok(Valued { value, sort, place })
}

/// An operand for its value.
pub fn valued(alloc: Global, scope: &Scope, operand: Operand) -> Result<Valued, NoMemory>
    ensures { IfOk result (λ v. rated v ≡ valued scope.now (operand_tree operand)) }
{
    match operand {
        Operand::Value(valued) => Ok(valued),
        Operand::Lvalue { lvalue, of } => loaded(alloc, scope, lvalue, of, scope.ctype(of.number)),
    }
}

/// Whether a pointer to `to` takes a value of the sort.
pub(crate) fn is_taken(scope: &Scope, to: Qualified, sort: Sort) -> bool
    ensures { result ≡ is_taken scope.now to sort }
{
    match sort {
        Sort::Pointer(of) => {
            scope.is_same_type(of.number, to.number) && (to.volatile || !of.volatile)
        }
        Sort::Integer(..) | Sort::Null | Sort::Structure(_) | Sort::Nothing => sort.is_null(),
    }
}

/// A value as a pointer to `to`, where that takes it.
pub(crate) fn pointer_given(
    alloc: Global,
    scope: &Scope,
    to: Qualified,
    valued: Valued,
) -> Result<Option<Box<Rvalue>>, NoMemory>
    ensures { GivesOption boxed_tree result (pointer_given scope.now to (rated valued) valued.sort) }
{
    if !is_taken(scope, to, valued.sort) {
        return Ok(None);
    }
    match valued.sort {
        Sort::Pointer(_) => Ok(Some(valued.value)),
        Sort::Integer(..) | Sort::Null | Sort::Structure(_) | Sort::Nothing => {
            let place = valued.place;
            let null = boxed(alloc, Rvalue::Null { place })?;
            Ok(Some(null))
        }
    }
}

// A value as an integer of the type `to`, where it is an integer.
fn integer_given(
    alloc: Global,
    to: IntType,
    valued: Valued,
) -> Result<Option<Box<Rvalue>>, NoMemory>
    ensures { GivesOption boxed_tree result (integer_given to (rated valued) valued.sort) }
{
    match valued.sort {
        Sort::Integer(from, _) => {
            let value = converted(alloc, from, to, valued)?;
            Ok(Some(value))
        }
        Sort::Pointer(_) | Sort::Null | Sort::Structure(_) | Sort::Nothing => Ok(None),
    }
}

/// A value as one of a type, where an object of that type takes it (C99 6.5.16.1).
pub fn given(
    alloc: Global,
    scope: &Scope,
    valued: Valued,
    number: u32,
) -> Result<Option<Box<Rvalue>>, NoMemory>
    ensures { GivesOption boxed_tree result (given scope.now (rated valued) number) }
{
    match scope.ctype(number) {
        CType::Int(to) => integer_given(alloc, to, valued),
        CType::Pointer(to) => pointer_given(alloc, scope, to, valued),
        CType::Void | CType::Array { .. } | CType::Struct(_) => Ok(None),
    }
}
