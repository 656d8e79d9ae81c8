//! Typed forms as operands.
ghost use Rattle.std.specs.Prelude.{◌≡◌, IfOk, Ok};
ghost use Rattle.tm_typed.specs.TypedTrees.{rvalue_tree, lvalue_tree, operand_tree, an_lvalue, a_constant};
ghost use Rattle.tm_typed.specs.Refusals.{refused, Gives};
ghost use Rattle.tm_typed.specs.Operands.{made, integer_made, truth_made};

use std::alloc::Global;
use tm_cint::IntType;
use tm_lattice::NoMemory;
use tm_terms::{Fail, Kind, Place, Refusal};
use tm_typed::{Fold, Lvalue, Operand, Qualified, Rvalue, Sort, Valued};

/// A refusal of this kind at this place.
pub(crate) fn refused(kind: Kind, place: Place) -> Result<Operand, Fail>
    ensures { Gives operand_tree result (refused kind place) }
{
    Err(Fail::Refused(Refusal {
        kind,
        place,
        limit: None,
    }))
}

/// A node in a box.
pub(crate) fn boxed<T: Drop>(alloc: Global, node: T) -> Result<Box<T>, NoMemory>
    ensures { IfOk result (λ b. b.value ≡ node) }
{
    match Box::new(alloc, node) {
        Ok(node) => Ok(node),
        Err(_) => Err(NoMemory),
    }
}

/// A value as an operand.
pub(crate) fn made(alloc: Global, value: Rvalue, sort: Sort, place: Place) -> Result<Operand, Fail>
    ensures { Gives operand_tree result (made (rvalue_tree value) sort place) }
{
    let value = boxed(alloc, value)?;
    Ok(Operand::Value(Valued { value, sort, place }))
}

/// An lvalue as an operand.
pub(crate) fn designated(alloc: Global, lvalue: Lvalue, of: Qualified) -> Result<Operand, Fail>
    ensures { Gives operand_tree result (Ok (an_lvalue (lvalue_tree lvalue) of)) }
{
    let lvalue = boxed(alloc, lvalue)?;
    Ok(Operand::Lvalue { lvalue, of })
}

/// An integer expression: one that is folded stands as its value.
pub(crate) fn integer_made(
    alloc: Global,
    of: IntType,
    fold: Fold,
    value: Rvalue,
    place: Place,
) -> Result<Operand, Fail>
    ensures { Gives operand_tree result (integer_made of fold (rvalue_tree value) place) }
{
    match fold {
        Fold::Value(folded) => constant(alloc, of, folded, place),
        Fold::Unbuilt | Fold::Faulty => made(alloc, value, Sort::Integer(of, fold), place),
    }
}

/// An integer constant.
pub(crate) fn constant(
    alloc: Global,
    of: IntType,
    value: i128,
    place: Place,
) -> Result<Operand, Fail>
    ensures { Gives operand_tree result (made (a_constant of value place) (Sort.Integer of (Fold.Value value)) place) }
{
    made(
        alloc,
        Rvalue::Constant { of, value, place },
        Sort::Integer(of, Fold::Value(value)),
        place,
    )
}

/// A comparison, `!`, `&&` or `||`: one that is folded keeps its form for branches.
pub(crate) fn truth_made(
    alloc: Global,
    fold: Fold,
    value: Rvalue,
    place: Place,
) -> Result<Operand, Fail>
    ensures { Gives operand_tree result (truth_made fold (rvalue_tree value) place) }
{
    match fold {
        Fold::Value(folded) => {
            let form = boxed(alloc, value)?;
            made(
                alloc,
                Rvalue::Folded {
                    value: folded,
                    form,
                },
                Sort::Integer(IntType::Int, fold),
                place,
            )
        }
        Fold::Unbuilt | Fold::Faulty => {
            made(alloc, value, Sort::Integer(IntType::Int, fold), place)
        }
    }
}
