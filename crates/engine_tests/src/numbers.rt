//! Values of numbers.
use pointer_dom::AbsValue;
use strided_dom::Strided;
use tm_lattice::Lattice;

/// The numbers from the first to the last; none where the last is below the first.
pub(crate) type Numbers = (i32, i32);

pub(crate) const NONE: Numbers = (1, 0);

/// A value of these numbers.
pub(crate) fn numbers(row: Numbers) -> AbsValue {
    AbsValue::from_numbers(Strided::range(i128::from(row.0), i128::from(row.1), 1))
}

/// Whether a value is of these numbers.
pub(crate) fn is_numbers(value: &AbsValue, row: Numbers) -> bool {
    let wanted = numbers(row);
    value.below(&wanted) && wanted.below(value)
}
