//! The values of `<<` and `>>` (C99 6.5.7).
ghost use Rattle.std.specs.Prelude.{◌≡◌, ◌≢◌, ◌↔◌, ◌<◌, ◌≤ℤ◌, ◌<ℤ◌, ℤ, pos, IsTrue, MatchOption};
ghost use Rattle.strided_dom.specs.Progression.{empty, Has, IsExactly};
ghost use Rattle.congruence_dom.specs.Class.{InClass};
ghost use Rattle.tm_numbers.specs.Powers.{power};
ghost use Rattle.tm_cint.specs.declared.operators.BinOp.{BinOp};
ghost use Rattle.transfer_int.specs.reading.Fittings.{AreRows};
ghost use Rattle.transfer_int.specs.Operands.{AreValues, IsCount, IsShifted};
ghost use Rattle.transfer_int.specs.Rows.{InLeftShiftClass, InRightShiftClass, InRows};
ghost use Rattle.transfer_int.specs.reading.Shifts.{AreShiftCounts};
ghost use Rattle.transfer_int.specs.Values.{IsValue, Leaves};

use crate::fittings::{fitted, leaves};
use crate::operands::{class_of, interval_of};
use crate::parts::{all_integers, part};
use crate::quotients::is_common_divisor;
use congruence_dom::Cong;
use interval_dom::Interval;
use strided_dom::Strided;
use tm_cint::IntType;
use tm_numbers::power_of_two;

/// `a << b`, of the numbers that are not negative, by the counts from 0 to the width less 1.
pub(crate) fn left_shifts(ty: IntType, a: &Strided, b: &Strided) -> Strided
    requires { AreValues ty a.now }
    ensures { IsExactly (IsValue BinOp.Shl ty a.now b.now) result }
{
    match left_shift_rows(ty, a, b) {
        None => Strided::empty(),
        Some((span, class)) => fitted(ty, span, class),
    }
}

/// Whether the left shifts leave a signed type.
pub(crate) fn left_shifts_leave(ty: IntType, a: &Strided, b: &Strided) -> bool
    requires { AreValues ty a.now }
    ensures { IsTrue result ↔ Leaves BinOp.Shl ty a.now b.now }
{
    if !ty.signed() {
        return false;
    }
    match left_shift_rows(ty, a, b) {
        None => false,
        Some((span, class)) => leaves(ty, span, class),
    }
}

/// `a >> b`, rounded down, by the counts from 0 to the width less 1.
pub(crate) fn right_shifts(ty: IntType, a: &Strided, b: &Strided) -> Strided
    requires { AreValues ty a.now }
    ensures { IsExactly (IsValue BinOp.Shr ty a.now b.now) result }
{
    if a.is_empty() {
        return *a;
    }
    let by = counts(ty, b);
    if by.is_empty() {
        return by;
    }
    fitted(
        ty,
        interval_dom::shr(interval_of(a), interval_of(&by)),
        right_shift_class(ty, a, &by),
    )
}

/// The rows of `a << b`; none where a set has no number that it takes.
fn left_shift_rows(ty: IntType, a: &Strided, b: &Strided) -> Option<(Interval, Cong)>
    requires { AreValues ty a.now }
    ensures { MatchOption result ((v : ℤ) → ¬ InRows BinOp.Shl ty a.now b.now v)
        (λ r. AreRows (InRows BinOp.Shl ty a.now b.now) r.0 r.1) }
{
    let numbers = naturals(ty, a);
    let by = counts(ty, b);
    if numbers.is_empty() {
        return None;
    }
    if by.is_empty() {
        return None;
    }
    Some((
        interval_dom::shl(interval_of(&numbers), interval_of(&by)),
        left_shift_class(ty, &numbers, &by),
    ))
}

/// The members that are not negative.
fn naturals(ty: IntType, a: &Strided) -> Strided
    requires { AreValues ty a.now }
    ensures { IsExactly (IsShifted a.now) result }
{
    part(a, 0, ty.hi())
}

/// The members that are counts of a shift of the type.
fn counts(ty: IntType, b: &Strided) -> Strided
    ensures { IsExactly (IsCount ty b.now) result }
{
    part(b, 0, i128::from(ty.width()) - 1)
}

/// The class of the left shifts: by one count the class shifted, else the multiples of the least power of two and of
/// the greatest number that divides all.
fn left_shift_class(ty: IntType, a: &Strided, by: &Strided) -> Cong
    requires some_left { a.now ≢ empty }
    requires some_right { by.now ≢ empty }
    requires left { AreValues ty a.now }
    requires right { AreShiftCounts by.now }
    ensures { (v : ℤ) → InClass result v ↔ InLeftShiftClass (Has a.now) (Has by.now) v }
{
    let least = by.lo() as u32;
    if by.lo() == by.hi() {
        return congruence_dom::shl(class_of(a), least);
    }
    congruence_dom::shl_from(class_of(a), least)
}

/// The class of the right shifts by one count whose power of two divides all of `a`, else all integers.
fn right_shift_class(ty: IntType, a: &Strided, by: &Strided) -> Cong
    requires some_left { a.now ≢ empty }
    requires some_right { by.now ≢ empty }
    requires left { AreValues ty a.now }
    requires right { AreShiftCounts by.now }
    ensures { (v : ℤ) → InClass result v ↔ InRightShiftClass a.now (Has by.now) v }
{
    let class = class_of(a);
    if by.lo() != by.hi() {
        return all_integers();
    }
    let count = by.lo() as u32;
    if !is_common_divisor(power_of_two(count), class) {
        return all_integers();
    }
    congruence_dom::shr(class, count)
}
