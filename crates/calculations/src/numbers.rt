//! Calculations with numbers.
ghost use Rattle.transfer_int.specs.Operands.{AreValues, AreRightOperands};
ghost use Rattle.transfer_rows.specs.StateForms.{value_of};
ghost use Rattle.transfer_rows.specs.Actions.{negated, complemented, operated, converted};
ghost use Rattle.calculations.specs.Given.{IsCalculated};

use crate::values::{Calculated, no_classes, numbers_of};
use cell_env::State;
use pointer_dom::AbsValue;
use tm_cint::{BinOp, IntType};
use transfer_int::{binary, invert, negate};

/// `-` in the type `of`.
pub fn negated(state: &State<AbsValue>, of: IntType, source: u32) -> Calculated
    requires { AreValues of (value_of state.now source).numbers }
    ensures { IsCalculated (negated of source) state.now result }
{
    let outcome = negate(of, &numbers_of(state, source));
    Calculated {
        value: AbsValue::from_numbers(outcome.value),
        classes: outcome.classes,
    }
}

/// `~` in the type `of`.
pub fn complemented(state: &State<AbsValue>, of: IntType, source: u32) -> Calculated
    requires { AreValues of (value_of state.now source).numbers }
    ensures { IsCalculated (complemented of source) state.now result }
{
    let inverted = invert(of, &numbers_of(state, source));
    Calculated {
        value: AbsValue::from_numbers(inverted),
        classes: no_classes(),
    }
}

/// A binary operator in the type `of`.
pub fn operated(
    state: &State<AbsValue>,
    operator: BinOp,
    of: IntType,
    left: u32,
    right: u32,
) -> Calculated
    requires left { AreValues of (value_of state.now left).numbers }
    requires right { AreRightOperands operator of (value_of state.now right).numbers }
    ensures { IsCalculated (operated operator of left right) state.now result }
{
    let outcome = binary(
        operator,
        of,
        &numbers_of(state, left),
        &numbers_of(state, right),
    );
    Calculated {
        value: AbsValue::from_numbers(outcome.value),
        classes: outcome.classes,
    }
}

/// A conversion to the type `of`.
pub fn converted(state: &State<AbsValue>, of: IntType, source: u32) -> Calculated
    ensures { IsCalculated (converted of source) state.now result }
{
    let numbers = transfer_int::converted(of, &numbers_of(state, source));
    Calculated {
        value: AbsValue::from_numbers(numbers),
        classes: no_classes(),
    }
}
