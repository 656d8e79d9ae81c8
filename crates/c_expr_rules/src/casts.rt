//! Casts (C99 6.5.4).
ghost use Rattle.std.specs.Prelude.{◌≡◌};
ghost use Rattle.std.specs.Prelude.{IfOk};
ghost use Rattle.tm_typed.specs.TypedTrees.{rated, operand_tree, rvalue_tree, a_null, a_conversion};
ghost use Rattle.tm_typed.specs.Refusals.{Gives};
ghost use Rattle.tm_typed.specs.Rules.{cast_form, cast_to_integer, cast_to_pointer, cast_by, cast_rules};
ghost use Rattle.tm_typed.specs.Operands.{made};

use crate::conversions::pointer_given;
use crate::forms::{integer_made, made, refused};
use c_folds as folds;
use c_scope::Scope;
use std::alloc::Global;
use tm_cint::IntType;
use tm_lattice::NoMemory;
use tm_terms::{Fail, Kind, Place};
use tm_typed::{CType, CastType, Operand, Qualified, Rvalue, Sort, Valued, is_enumerated};

// The form of a cast, which is one of its own where it is to an enumeration.
fn cast_form(
    alloc: Global,
    is_enumerated: bool,
    cast: Rvalue,
    place: Place,
) -> Result<Rvalue, NoMemory>
    ensures { IfOk result (λ v. rvalue_tree v ≡ cast_form is_enumerated (rvalue_tree cast) place) }
{
    if is_enumerated {
        let value = Box::new(alloc, cast)?;
        return Ok(Rvalue::Same { value, place });
    }
    Ok(cast)
}

// To an integer type, or to an enumeration.
fn to_integer(
    alloc: Global,
    place: Place,
    to: IntType,
    is_enumerated: bool,
    valued: Valued,
) -> Result<Operand, Fail>
    ensures { Gives operand_tree result (cast_to_integer place to is_enumerated (rated valued) valued.sort) }
{
    match valued.sort {
        Sort::Integer(from, fold) => {
            let cast = Rvalue::Convert {
                from,
                to,
                value: valued.value,
                place,
            };
            let form = cast_form(alloc, is_enumerated, cast, place)?;
            integer_made(alloc, to, folds::converted(to, fold), form, place)
        }
        Sort::Pointer(_) | Sort::Null => refused(Kind::Unsupported, place),
        Sort::Structure(_) | Sort::Nothing => refused(Kind::Mismatch, place),
    }
}

// A null constant as a pointer to this type.
fn to_null(alloc: Global, place: Place, of: Qualified) -> Result<Operand, Fail>
    ensures { Gives operand_tree result (made (a_null place) (Sort.Pointer of) place) }
{
    made(alloc, Rvalue::Null { place }, Sort::Pointer(of), place)
}

// To a pointer to `of`.
fn to_pointer(
    alloc: Global,
    scope: &Scope,
    place: Place,
    of: Qualified,
    valued: Valued,
) -> Result<Operand, Fail>
    ensures { Gives operand_tree result (cast_to_pointer scope.now place of (rated valued) valued.sort) }
{
    match valued.sort {
        Sort::Pointer(_) => match pointer_given(alloc, scope, of, valued)? {
            Some(value) => made(
                alloc,
                Rvalue::Same { value, place },
                Sort::Pointer(of),
                place,
            ),
            None => refused(Kind::Unsupported, place),
        },
        Sort::Integer(..) => {
            if valued.sort.is_null() {
                to_null(alloc, place, of)
            } else {
                refused(Kind::Unsupported, place)
            }
        }
        Sort::Null => to_null(alloc, place, of),
        Sort::Structure(_) | Sort::Nothing => refused(Kind::Mismatch, place),
    }
}

// To a type that is not left out.
fn by_type(
    alloc: Global,
    scope: &Scope,
    place: Place,
    is_enumerated: bool,
    valued: Valued,
    to: CType,
) -> Result<Operand, Fail>
    ensures { Gives operand_tree result (cast_by scope.now place is_enumerated (rated valued) to) }
{
    match to {
        CType::Void => {
            let value = valued.value;
            made(
                alloc,
                Rvalue::Discard { value, place },
                Sort::Nothing,
                place,
            )
        }
        CType::Int(of) => to_integer(alloc, place, of, is_enumerated, valued),
        CType::Pointer(of) => to_pointer(alloc, scope, place, of, valued),
        CType::Array { .. } | CType::Struct(_) => refused(Kind::Mismatch, place),
    }
}

/// A cast to the type of a type name.
pub fn cast(
    alloc: Global,
    scope: &Scope,
    place: Place,
    to: CastType,
    valued: Valued,
) -> Result<Operand, Fail>
    ensures { Gives operand_tree result (cast_rules scope.now place to (rated valued)) }
{
    if to.is_void_pointer && valued.sort.is_integer() && valued.sort.is_null() {
        return made(alloc, Rvalue::Null { place }, Sort::Null, place);
    }
    if to.is_left_out {
        return refused(Kind::Unsupported, place);
    }
    let number = to.of.number;
    by_type(
        alloc,
        scope,
        place,
        is_enumerated(number),
        valued,
        scope.ctype(number),
    )
}
