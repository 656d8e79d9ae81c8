//! Edges that give a temporary without a look at memory.
ghost use Rattle.std.specs.Prelude.{◌≤◌, ◌≡◌, length, IfOk, MatchOption};
ghost use Rattle.tm_typed.specs.TypedFiles.{typed_file_tree};
ghost use Rattle.tm_laid.specs.Layable.{IsLayable};
ghost use Rattle.tm_laid.specs.Layouts.{laid_tree};
ghost use Rattle.memory_effects.specs.calculations.transfer_int.Operands.{AreValues};
ghost use Rattle.memory_effects.specs.calculations.transfer_rows.StateForms.{State as TaskState, value_of};
ghost use Rattle.memory_effects.specs.calculations.transfer_rows.Actions.{constant};
ghost use Rattle.memory_effects.specs.calculations.Given.{IsCalculated};
ghost use Rattle.memory_effects.specs.edge_actions.Edges.{constant_value, base_value, unary_of};
ghost use Rattle.transfer_mem.specs.Applicable.{IsConstant, IsOperable};
ghost use Rattle.transfer_mem.specs.reading.Givings.{IsOfNumbers, IsOfPointers, IsGiving, IsGivenBy};

use cell_env::State;
use concrete_values::Value;
use flow_graph::Operation;
use memory_effects::{
    Calculated, EdgeView, Followed, compared, complemented, converted, copied, dereferenced,
    element, moved, negated, no_classes, numbers_between, operated, part, pointer_value,
};
use pointer_dom::{AbsValue, PointerSet};
use std::alloc::Global;
use strided_dom::Strided;
use tm_cint::IntType;
use tm_laid::{Laid, object_at};
use tm_lattice::NoMemory;
use tm_typed::Unary;

/// The temporary that an edge gives, and what is calculated for it.
#[derive(Drop)]
pub struct Given {
    pub to: u32,
    pub calculated: Calculated,
}

// A constant as a set of values.
fn constant_value(alloc: Global, laid: &Laid, value: Value) -> Result<AbsValue, NoMemory>
    requires { IsConstant value }
    ensures { IfOk result (λ set. set ≡ constant_value (laid_tree laid.now) value) }
{
    match value {
        Value::Number(number) => Ok(AbsValue::from_numbers(Strided::one(number))),
        Value::Pointer(pointer) => {
            let pointers = pointer_value(alloc, laid, pointer)?;
            Ok(AbsValue::from_pointers(pointers))
        }
    }
}

// The address of an object.
fn base_value(alloc: Global, laid: &Laid, object: u32) -> Result<AbsValue, NoMemory>
    ensures { IfOk result (λ set. set ≡ base_value (laid_tree laid.now) object) }
{
    let pointers = PointerSet::to(alloc, object, object_at(laid, object).cells, 0)?;
    Ok(AbsValue::from_pointers(pointers))
}

// A constant, with no class.
fn constant(value: AbsValue) -> Calculated
    ensures { (s : TaskState) → IsCalculated (constant value) s result }
{
    Calculated {
        value,
        classes: no_classes(),
    }
}

// `-` or `~` in the type `of`.
fn unary(state: &State<AbsValue>, operator: Unary, of: IntType, from: u32) -> Calculated
    requires { AreValues of (value_of state.now from).numbers }
    ensures { IsCalculated (unary_of operator of from) state.now result }
{
    match operator {
        Unary::Negate => negated(state, of, from),
        Unary::Complement => complemented(state, of, from),
    }
}

// What an edge gives that works on numbers, or copies; none of any other.
fn number_given(
    alloc: Global,
    view: &EdgeView,
    state: &State<AbsValue>,
) -> Result<Option<Given>, NoMemory>
    requires { IsOperable view.now.operation state.now }
    ensures { IfOk result (λ given. MatchOption given (IsOfNumbers view.now.operation → ⊥)
        (λ g. IsGivenBy view.now state.now g)) }
{
    match view.operation {
        Operation::Const { to, value } => {
            let set = constant_value(alloc, view.laid, value)?;
            Ok(Some(Given {
                to,
                calculated: constant(set),
            }))
        }
        Operation::Copy { to, from } => {
            let copy = copied(alloc, state, from)?;
            Ok(Some(Given {
                to,
                calculated: copy,
            }))
        }
        Operation::Un {
            to,
            operator,
            of,
            from,
            ..
        } => {
            let calculated = unary(state, operator, of, from);
            Ok(Some(Given { to, calculated }))
        }
        Operation::Bin {
            to,
            operator,
            of,
            left,
            right,
            ..
        } => {
            let calculated = operated(state, operator, of, left, right);
            Ok(Some(Given { to, calculated }))
        }
        Operation::Convert { to, of, from, .. } => {
            let calculated = converted(state, of, from);
            Ok(Some(Given { to, calculated }))
        }
        Operation::Any { to, low, high } => {
            let value = AbsValue::from_numbers(numbers_between(low, high));
            Ok(Some(Given {
                to,
                calculated: constant(value),
            }))
        }
        _ => Ok(None),
    }
}

// What an edge gives that works on pointers; none of any other.
fn pointer_given(
    alloc: Global,
    view: &EdgeView,
    state: &State<AbsValue>,
) -> Result<Option<Given>, NoMemory>
    requires layable { IsLayable (typed_file_tree view.now.laid.now.file) view.now.laid.now.file.order.items }
    requires few { length view.now.laid.now.cells.items ≤ 65536 }
    requires operable { IsOperable view.now.operation state.now }
    ensures { IfOk result (λ given. MatchOption given (IsOfPointers view.now.operation → ⊥)
        (λ g. IsGivenBy view.now state.now g)) }
{
    match view.operation {
        Operation::BinPointers {
            to,
            equal,
            left,
            right,
        } => {
            let calculated = compared(alloc, state, equal, left, right);
            Ok(Some(Given { to, calculated }))
        }
        Operation::Base { to, object } => {
            let address = base_value(alloc, view.laid, object)?;
            Ok(Some(Given {
                to,
                calculated: constant(address),
            }))
        }
        Operation::Offset { to, from, cells } => {
            let shifted = part(alloc, state, cells, from)?;
            Ok(Some(Given {
                to,
                calculated: shifted,
            }))
        }
        Operation::Index {
            to,
            from,
            length,
            cells,
            by,
            ..
        } => {
            let indexed = element(alloc, state, length, cells, from, by)?;
            Ok(Some(Given {
                to,
                calculated: indexed,
            }))
        }
        Operation::Move {
            to,
            from,
            cells,
            minus,
            by,
            ..
        } => {
            let advanced = moved(alloc, state, !minus, cells, from, by)?;
            Ok(Some(Given {
                to,
                calculated: advanced,
            }))
        }
        Operation::Deref {
            to,
            from,
            target,
            path,
            ..
        } => {
            let followed = Followed {
                laid: view.laid,
                path,
                target,
            };
            let reached = dereferenced(alloc, state, &followed, from)?;
            Ok(Some(Given {
                to,
                calculated: reached,
            }))
        }
        _ => Ok(None),
    }
}

/// What an edge gives without a look at memory; none of an edge that does not.
pub fn calculated(
    alloc: Global,
    view: &EdgeView,
    state: &State<AbsValue>,
) -> Result<Option<Given>, NoMemory>
    requires layable { IsLayable (typed_file_tree view.now.laid.now.file) view.now.laid.now.file.order.items }
    requires few { length view.now.laid.now.cells.items ≤ 65536 }
    requires operable { IsOperable view.now.operation state.now }
    ensures { IfOk result (λ given. MatchOption given (IsGiving view.now.operation → ⊥)
        (λ g. IsGivenBy view.now state.now g)) }
{
    let of_numbers = number_given(alloc, view, state)?;
    match of_numbers {
        Some(given) => Ok(Some(given)),
        None => pointer_given(alloc, view, state),
    }
}
