//! The values of the folded parts of typed expressions.
ghost use Rattle.std.specs.Prelude.{◌≡◌, [], ◌∷◌, ◌++◌, OnOk};
ghost use Rattle.tm_typed.specs.TypedTrees.{rvalue_tree, lvalue_tree, as_rvalues, operand_tree};
ghost use Rattle.tm_typed.specs.Constants.{constants_of, lvalue_constants, all_constants, operand_constants};

use tm_lattice::NoMemory;
use tm_typed::{Lvalue, Operand, Rvalue};

// One more value at the end.
fn push(constants: &mut Vec<i128>, value: i128) -> Result<(), NoMemory>
    ensures { OnOk result (constants.new.items ≡ constants.old.items ++ value ∷ []) }
{
    match constants.push(value) {
        Ok(()) => Ok(()),
        Err(_) => Err(NoMemory),
    }
}

// The constants of arguments.
#[cycle(constants)]
#[tactic(auto, using(std::proofs::lemmas::List::append_assoc))]
fn push_all(values: &[Rvalue], constants: &mut Vec<i128>) -> Result<(), NoMemory>
    ensures { OnOk result (constants.new.items ≡ constants.old.items ++ all_constants (as_rvalues values.now)) }
{
    for value in values {
        push_of_value(value, constants)?;
    }
    Ok(())
}

// The constants of what an lvalue evaluates.
#[cycle(constants)]
#[tactic(auto, using(std::proofs::lemmas::List::append_assoc))]
fn push_of_lvalue(lvalue: &Lvalue, constants: &mut Vec<i128>) -> Result<(), NoMemory>
    ensures { OnOk result (constants.new.items ≡ constants.old.items ++ lvalue_constants (lvalue_tree lvalue.now)) }
{
    match lvalue {
        Lvalue::Object { .. } => Ok(()),
        Lvalue::Element { array, index, .. } => {
            push_of_lvalue(array, constants)?;
            push_of_value(index, constants)
        }
        Lvalue::Subscript { pointer, index, .. } => {
            push_of_value(pointer, constants)?;
            push_of_value(index, constants)
        }
        Lvalue::Pointed { pointer, .. } | Lvalue::Arrow { pointer, .. } => {
            push_of_value(pointer, constants)
        }
        Lvalue::Member { structure, .. } => push_of_lvalue(structure, constants),
    }
}

// The constants of a value.
#[cycle(constants)]
#[tactic(auto, using(std::proofs::lemmas::List::append_assoc))]
fn push_of_value(value: &Rvalue, constants: &mut Vec<i128>) -> Result<(), NoMemory>
    ensures { OnOk result (constants.new.items ≡ constants.old.items ++ constants_of (rvalue_tree value.now)) }
{
    match value {
        Rvalue::Constant { value, .. } | Rvalue::Folded { value, .. } => push(constants, *value),
        Rvalue::Null { .. } | Rvalue::Probe { .. } => Ok(()),
        Rvalue::Load { lvalue, .. }
        | Rvalue::Address { lvalue, .. }
        | Rvalue::Structure { lvalue }
        | Rvalue::Step { target: lvalue, .. }
        | Rvalue::StepMove { target: lvalue, .. } => push_of_lvalue(lvalue, constants),
        Rvalue::Same { value, .. }
        | Rvalue::Unary { value, .. }
        | Rvalue::Not { value, .. }
        | Rvalue::Convert { value, .. }
        | Rvalue::Discard { value, .. } => push_of_value(value, constants),
        Rvalue::Binary { left, right, .. }
        | Rvalue::Pointers { left, right, .. }
        | Rvalue::And { left, right, .. }
        | Rvalue::Or { left, right, .. }
        | Rvalue::Comma { left, right, .. }
        | Rvalue::Move {
            pointer: left,
            index: right,
            ..
        } => {
            push_of_value(left, constants)?;
            push_of_value(right, constants)
        }
        Rvalue::Conditional {
            condition,
            first,
            second,
            ..
        } => {
            push_of_value(condition, constants)?;
            push_of_value(first, constants)?;
            push_of_value(second, constants)
        }
        Rvalue::Assign { target, value, .. }
        | Rvalue::Compound { target, value, .. }
        | Rvalue::CompoundMove { target, value, .. } => {
            push_of_lvalue(target, constants)?;
            push_of_value(value, constants)
        }
        Rvalue::Call { arguments, .. } => push_all(arguments, constants),
        Rvalue::Input { low, high, .. } => {
            push(constants, *low)?;
            push(constants, *high)
        }
    }
}

/// Adds the values of the folded parts of an expression to some constants.
pub fn push_constants(operand: &Operand, constants: &mut Vec<i128>) -> Result<(), NoMemory>
    ensures { OnOk result (constants.new.items ≡ constants.old.items ++ operand_constants (operand_tree operand.now)) }
{
    match operand {
        Operand::Lvalue { lvalue, .. } => push_of_lvalue(lvalue, constants),
        Operand::Value(value) => push_of_value(&value.value, constants),
    }
}
