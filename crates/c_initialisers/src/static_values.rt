//! What typed expressions are before the program runs (C99 6.6).
ghost use Rattle.std.specs.Prelude.{◌≡◌};
ghost use Rattle.tm_typed.specs.TypedTrees.{rvalue_tree, lvalue_tree};
ghost use Rattle.tm_typed.specs.StaticValues.{static_value, static_cell};

use crate::addresses::{as_converted, behind, element_of, moved, object_address, pointed_to};
use c_typing_state::State;
use tm_typed::{Lvalue, Rvalue, StaticValue};

// The address of the object that an lvalue designates.
#[cycle(static_values)]
fn static_cell(state: &State, lvalue: &Lvalue) -> Option<StaticValue>
    ensures { result ≡ static_cell state.now (lvalue_tree lvalue.now) }
{
    match lvalue {
        Lvalue::Object { object, .. } => object_address(*object),
        Lvalue::Element {
            array,
            index,
            length,
            cells,
            ..
        } => {
            let array = static_cell(state, array);
            let index = static_value(state, index);
            element_of(*length, *cells, array, index)
        }
        Lvalue::Subscript {
            pointer,
            index,
            cells,
            target,
            ..
        } => {
            let pointer = static_value(state, pointer);
            let index = static_value(state, index);
            let element = moved(state, false, *cells, pointer, index);
            pointed_to(state, *target, element)
        }
        Lvalue::Pointed {
            pointer,
            target,
            ..
        } => {
            let pointer = static_value(state, pointer);
            pointed_to(state, *target, pointer)
        }
        Lvalue::Arrow {
            pointer,
            target,
            cell,
            ..
        } => {
            let pointer = static_value(state, pointer);
            behind(u64::from(*cell), pointed_to(state, *target, pointer))
        }
        Lvalue::Member {
            structure,
            cell,
            ..
        } => {
            let structure = static_cell(state, structure);
            behind(u64::from(*cell), structure)
        }
    }
}

/// The value of a constant expression: a folded integer, a null pointer, or the address of a cell of an object of
/// static storage; none where it is no constant expression.
#[cycle(static_values)]
pub fn static_value(state: &State, value: &Rvalue) -> Option<StaticValue>
    ensures { result ≡ static_value state.now (rvalue_tree value.now) }
{
    match value {
        Rvalue::Constant { value, .. } => Some(StaticValue::Number(*value)),
        Rvalue::Folded { value, .. } => Some(StaticValue::Number(*value)),
        Rvalue::Null { .. } => Some(StaticValue::Null),
        Rvalue::Convert { to, value, .. } => {
            let value = static_value(state, value);
            as_converted(*to, value)
        }
        Rvalue::Same { value, .. } => static_value(state, value),
        Rvalue::Address { lvalue, .. } => static_cell(state, lvalue),
        Rvalue::Move {
            minus,
            cells,
            pointer,
            index,
            ..
        } => {
            let pointer = static_value(state, pointer);
            let index = static_value(state, index);
            moved(state, *minus, *cells, pointer, index)
        }
        Rvalue::Load { .. }
        | Rvalue::Structure { .. }
        | Rvalue::Unary { .. }
        | Rvalue::Binary { .. }
        | Rvalue::Pointers { .. }
        | Rvalue::Not { .. }
        | Rvalue::And { .. }
        | Rvalue::Or { .. }
        | Rvalue::Conditional { .. }
        | Rvalue::Assign { .. }
        | Rvalue::Compound { .. }
        | Rvalue::CompoundMove { .. }
        | Rvalue::Step { .. }
        | Rvalue::StepMove { .. }
        | Rvalue::Call { .. }
        | Rvalue::Input { .. }
        | Rvalue::Probe { .. }
        | Rvalue::Comma { .. }
        | Rvalue::Discard { .. } => None,
    }
}
