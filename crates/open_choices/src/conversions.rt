//! IMPLEMENTATION: conversions to signed types, and shifts to the right.
ghost use Rattle.std.specs.Prelude.{◌↔◌, IsTrue};
ghost use Rattle.open_choices.specs.Enumerations.{HasNegative};
ghost use Rattle.open_choices.specs.reading.Found.{HasBeyond};

use strided_dom::Strided;
use tm_cint::IntType;

/// Whether a signed type may not have one of the numbers (C99 6.3.1.3p3).
pub(crate) fn has_beyond(of: IntType, numbers: &Strided) -> bool
    ensures { IsTrue result ↔ HasBeyond of numbers.now }
{
    if numbers.is_empty() {
        return false;
    }
    let low = of.lo();
    if low >= 0 {
        return false;
    }
    if numbers.lo() < low {
        return true;
    }
    of.hi() < numbers.hi()
}

/// Whether one of the numbers is negative (C99 6.5.7p5).
pub(crate) fn has_negative(numbers: &Strided) -> bool
    ensures { IsTrue result ↔ HasNegative numbers.now }
{
    if numbers.is_empty() {
        return false;
    }
    numbers.lo() < 0
}
