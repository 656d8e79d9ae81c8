//! The values of `/` (C99 6.5.5).
ghost use Rattle.std.specs.Prelude.{◌≡◌, ◌≢◌, ◌↔◌, ◌<◌, ◌≤◌, ◌^◌, ℤ, pos, int_div, unsigned_abs, IsTrue, MatchOption};
ghost use Rattle.strided_dom.specs.Progression.{empty, Has, IsExactly, IsInReach};
ghost use Rattle.interval_dom.specs.Interval.{span_of};
ghost use Rattle.interval_dom.specs.Rows.{IsOneSided};
ghost use Rattle.congruence_dom.specs.Class.{IsTypeClass, InClass};
ghost use Rattle.tm_numbers.specs.Divisors.{Divides};
ghost use Rattle.transfer_int.specs.reading.Fittings.{AreRows, from_to};
ghost use Rattle.transfer_int.specs.Operands.{AreValues, IsResult};
ghost use Rattle.transfer_int.specs.reading.Parts.{IsLeastSpan, IsPart};
ghost use Rattle.transfer_int.specs.reading.Quotients.{IsCommonDivisor};
ghost use Rattle.transfer_int.specs.Rows.{InQuotientClass, InRows, IsQuotient};
ghost use Rattle.transfer_int.specs.Values.{IsValue, Leaves};

use crate::fittings::{fitted, leaves};
use crate::operands::{class_of, interval_of};
use crate::parts::{all_integers, joined, part};
use congruence_dom::Cong;
use interval_dom::Interval;
use strided_dom::Strided;
use tm_cint::{BinOp, IntType};

/// Below every value of a type.
const LEAST: i128 = -18446744073709551616;

/// Above every value of a type.
const GREATEST: i128 = 18446744073709551616;

/// `a / b`: from the least to the greatest truncated quotient by a divisor other than 0; where `b` is one number that
/// divides all of `a`, the quotients.
pub(crate) fn quotients(ty: IntType, a: &Strided, b: &Strided) -> Strided
    requires left { AreValues ty a.now }
    requires right { AreValues ty b.now }
    ensures { IsExactly (IsValue BinOp.Div ty a.now b.now) result }
{
    match quotient_rows(ty, a, b) {
        None => Strided::empty(),
        Some((span, class)) => fitted(ty, span, class),
    }
}

/// Whether the quotients leave a signed type.
pub(crate) fn quotients_leave(ty: IntType, a: &Strided, b: &Strided) -> bool
    requires left { AreValues ty a.now }
    requires right { AreValues ty b.now }
    ensures { IsTrue result ↔ Leaves BinOp.Div ty a.now b.now }
{
    if !ty.signed() {
        return false;
    }
    match quotient_rows(ty, a, b) {
        None => false,
        Some((span, class)) => leaves(ty, span, class),
    }
}

/// The rows of `a / b`; none where a set has no number that it takes.
fn quotient_rows(ty: IntType, a: &Strided, b: &Strided) -> Option<(Interval, Cong)>
    requires left { AreValues ty a.now }
    requires right { AreValues ty b.now }
    ensures { MatchOption result ((v : ℤ) → ¬ InRows BinOp.Div ty a.now b.now v)
        (λ r. AreRows (InRows BinOp.Div ty a.now b.now) r.0 r.1) }
{
    if a.is_empty() {
        return None;
    }
    match quotient_span(ty, a, b) {
        None => None,
        Some(span) => Some((span, quotient_class(ty, a, b))),
    }
}

/// From the least to the greatest quotient, by the divisors below 0 and by those above.
fn quotient_span(ty: IntType, a: &Strided, b: &Strided) -> Option<Interval>
    requires some { a.now ≢ empty }
    requires left { AreValues ty a.now }
    requires right { AreValues ty b.now }
    ensures { MatchOption result ((v : ℤ) → ¬ IsQuotient a.now b.now v)
        (λ span. IsLeastSpan (IsQuotient a.now b.now) (span_of span)) }
{
    let below = quotients_by(ty, a, b, LEAST, -1);
    let above = quotients_by(ty, a, b, 1, GREATEST);
    match below {
        None => above,
        Some(p) => match above {
            None => below,
            Some(q) => Some(joined(p, q)),
        },
    }
}

/// From the least to the greatest quotient by the divisors from `lo` to `hi`, which have one sign.
fn quotients_by(ty: IntType, a: &Strided, b: &Strided, lo: i128, hi: i128) -> Option<Interval>
    requires some { a.now ≢ empty }
    requires left { AreValues ty a.now }
    requires right { AreValues ty b.now }
    requires low { IsInReach lo }
    requires high { IsInReach hi }
    requires side { IsOneSided (from_to lo hi) }
    ensures { MatchOption result ((v : ℤ) → ¬ IsResult int_div (Has a.now) (IsPart b.now lo hi) v)
        (λ span. IsLeastSpan (IsResult int_div (Has a.now) (IsPart b.now lo hi)) (span_of span)) }
{
    let divisors = part(b, lo, hi);
    if divisors.is_empty() {
        return None;
    }
    Some(interval_dom::div(interval_of(a), interval_of(&divisors)))
}

/// The class of the quotients where `b` is one number that divides all of `a`, else all integers.
fn quotient_class(ty: IntType, a: &Strided, b: &Strided) -> Cong
    requires some_left { a.now ≢ empty }
    requires some_right { b.now ≢ empty }
    requires left { AreValues ty a.now }
    ensures { (v : ℤ) → InClass result v ↔ InQuotientClass a.now b.now v }
{
    let class = class_of(a);
    let divisor = b.lo();
    if divisor != b.hi() {
        return all_integers();
    }
    if !is_common_divisor(divisor, class) {
        return all_integers();
    }
    congruence_dom::div(class, divisor)
}

/// Whether `d` is not 0 and divides residue and modulus.
pub(crate) fn is_common_divisor(d: i128, class: Cong) -> bool
    requires { IsTypeClass class }
    ensures { IsTrue result ↔ IsCommonDivisor d class }
{
    if d == 0 {
        return false;
    }
    if !divides(d, class.residue) {
        return false;
    }
    divides(d, class.modulus)
}

/// Whether `d` divides `z`.
fn divides(d: i128, z: i128) -> bool
    requires divisor { d ≢ pos 0 }
    requires dividend { unsigned_abs z < 2 ^ 64 }
    ensures { IsTrue result ↔ Divides d z }
{
    z % d == 0
}
