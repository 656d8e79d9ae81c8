//! Comparisons: their values, and what they leave of both sides where they hold.
ghost use Rattle.std.specs.Prelude.{◌≡◌, IfOk};
ghost use Rattle.tm_cint.specs.Operators.{IsComparison};
ghost use Rattle.pointer_dom.specs.Advances.{usable_pointers};
ghost use Rattle.transfer_rows.specs.operator_values.Integers.{left_assumed, right_assumed};
ghost use Rattle.transfer_rows.specs.operator_values.SetsOfPointers.{left_pointers, right_pointers};
ghost use Rattle.transfer_rows.specs.StateForms.{value_of, only_numbers, only_pointers};
ghost use Rattle.transfer_rows.specs.Actions.{compared};
ghost use Rattle.transfer_rows.specs.Calculations.{usable_values};
ghost use Rattle.calculations.specs.Given.{IsCalculated};

use crate::values::{Calculated, no_classes, numbers_of, pointers_of};
use cell_env::State;
use filters::{assume, assume_ptr};
use pointer_dom::{AbsValue, PointerSet, equality};
use std::alloc::Global;
use strided_dom::Strided;
use tm_cint::BinOp;
use tm_lattice::NoMemory;

/// `==` of pointers, or `!=` where `equal` is false.
pub fn compared(
    alloc: Global,
    state: &State<AbsValue>,
    equal: bool,
    left: u32,
    right: u32,
) -> Calculated
    ensures { IsCalculated (compared equal left right) state.now result }
{
    let none = PointerSet::new(alloc);
    let truths = equality(
        equal,
        pointers_of(state, left, &none),
        pointers_of(state, right, &none),
    );
    Calculated {
        value: AbsValue::from_numbers(truths),
        classes: no_classes(),
    }
}

/// What is left of the numbers of both sides where the comparison holds.
pub fn numbers_assumed(operator: BinOp, left: &Strided, right: &Strided) -> (AbsValue, AbsValue)
    requires { IsComparison operator }
    ensures left { result.0 ≡ only_numbers (left_assumed operator left.now right.now) }
    ensures right { result.1 ≡ only_numbers (right_assumed operator left.now right.now) }
{
    let (left, right) = assume(operator, left, right);
    (AbsValue::from_numbers(left), AbsValue::from_numbers(right))
}

/// What is left of the pointers of both sides where they are equal, or are not.
pub fn pointers_assumed(
    alloc: Global,
    equal: bool,
    left: &PointerSet,
    right: &PointerSet,
) -> Result<(AbsValue, AbsValue), NoMemory>
    ensures left { IfOk result (λ sides. sides.0 ≡ only_pointers (left_pointers equal left.now right.now)) }
    ensures right { IfOk result (λ sides. sides.1 ≡ only_pointers (right_pointers equal left.now right.now)) }
{
    // The calls tell that these are sets of pointers.
    let _ = left.objects();
    let _ = right.objects();
    let (left, right) = assume_ptr(alloc, equal, left, right)?;
    let _ = left.objects();
    let _ = right.objects();
    Ok((
        AbsValue::from_pointers(left),
        AbsValue::from_pointers(right),
    ))
}

/// The value of a temporary without the invalid pointer, and whether that was there.
pub fn usable(
    alloc: Global,
    state: &State<AbsValue>,
    source: u32,
) -> Result<(AbsValue, bool), NoMemory>
    ensures value { IfOk result (λ left. left.0 ≡ usable_values (value_of state.now source)) }
    ensures invalid { IfOk result (λ left. left.1 ≡ (value_of state.now source).pointers.invalid) }
{
    let none = PointerSet::new(alloc);
    let reached = pointers_of(state, source, &none).usable(alloc)?;
    let value = AbsValue::from_parts(numbers_of(state, source), reached.pointers);
    Ok((value, reached.may_fail))
}
