//! The classes of errors that an operator does not exclude.
ghost use Rattle.std.specs.Prelude.{◌↔◌, IsTrue};
ghost use Rattle.transfer_int.specs.Operands.{AreValues};
ghost use Rattle.transfer_int.specs.Values.{HasLeastByMinusOne, HasZeroDivisor, HasBadCount, ShiftsNegative};

use strided_dom::Strided;
use tm_cint::IntType;

/// Whether a divisor may be 0.
pub(crate) fn has_zero_divisor(a: &Strided, b: &Strided) -> bool
    ensures { IsTrue result ↔ HasZeroDivisor a.now b.now }
{
    if a.is_empty() {
        return false;
    }
    b.has(0)
}

/// Whether the least value of a signed type may be divided by -1.
pub(crate) fn has_least_by_minus_one(ty: IntType, a: &Strided, b: &Strided) -> bool
    ensures { IsTrue result ↔ HasLeastByMinusOne ty a.now b.now }
{
    if !ty.signed() {
        return false;
    }
    if !a.has(ty.lo()) {
        return false;
    }
    b.has(-1)
}

/// Whether a count may lie outside 0 to the width less 1.
pub(crate) fn has_bad_count(ty: IntType, a: &Strided, b: &Strided) -> bool
    ensures { IsTrue result ↔ HasBadCount ty a.now b.now }
{
    if a.is_empty() {
        return false;
    }
    if b.is_empty() {
        return false;
    }
    if b.lo() < 0 {
        return true;
    }
    i128::from(ty.width()) <= b.hi()
}

/// Whether a negative number of a signed type may be shifted left.
pub(crate) fn shifts_negative(ty: IntType, a: &Strided, b: &Strided) -> bool
    ensures { IsTrue result ↔ ShiftsNegative ty a.now b.now }
{
    if !ty.signed() {
        return false;
    }
    if a.is_empty() {
        return false;
    }
    if b.is_empty() {
        return false;
    }
    a.lo() < 0
}
