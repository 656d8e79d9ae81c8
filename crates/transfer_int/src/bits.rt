//! The values of `&`, `|` and `^` (C99 6.5.10 to 6.5.12).
ghost use Rattle.std.specs.Prelude.{◌≡◌, ◌≢◌, ◌&&◌, ◌||◌, ℤ, Ok};
ghost use Rattle.strided_dom.specs.Progression.{empty, single, IsExactly, first_of};
ghost use Rattle.interval_dom.specs.Interval.{InInterval, span_of};
ghost use Rattle.interval_dom.specs.Rows.{has_one, is_not_negative};
ghost use Rattle.tm_cint.specs.IntTypes.{IsIn};
ghost use Rattle.tm_cint.specs.Operators.{outcome};
ghost use Rattle.transfer_int.specs.Operands.{AreValues, AreRightOperands, span_of_set};
ghost use Rattle.transfer_int.specs.Values.{IsValue};

use crate::operands::interval_of;
use interval_dom::Interval;
use strided_dom::Strided;
use tm_cint::{BinOp, IntType, arith};

/// `a & b`: from 0 to the greatest member of a set without negative ones; of two single numbers the exact value.
pub(crate) fn bits_and(ty: IntType, a: &Strided, b: &Strided) -> Strided
    requires left { AreValues ty a.now }
    requires right { AreValues ty b.now }
    ensures { IsExactly (IsValue BinOp.And ty a.now b.now) result }
{
    if a.is_empty() {
        return *a;
    }
    if b.is_empty() {
        return *b;
    }
    if are_single(a, b) {
        return exact(BinOp::And, ty, a, b);
    }
    if !has_natural(a, b) {
        return all_values(ty);
    }
    numbers(ty, interval_dom::and(interval_of(a), interval_of(b)))
}

/// `a | b`: of sets without negative numbers, from the greater of the least members to the least 2^k - 1 that no member
/// passes; of two single numbers the exact value.
pub(crate) fn bits_or(ty: IntType, a: &Strided, b: &Strided) -> Strided
    requires left { AreValues ty a.now }
    requires right { AreValues ty b.now }
    ensures { IsExactly (IsValue BinOp.Or ty a.now b.now) result }
{
    if a.is_empty() {
        return *a;
    }
    if b.is_empty() {
        return *b;
    }
    if are_single(a, b) {
        return exact(BinOp::Or, ty, a, b);
    }
    if !are_natural(a, b) {
        return all_values(ty);
    }
    numbers(ty, interval_dom::or(interval_of(a), interval_of(b)))
}

/// `a ^ b`: of sets without negative numbers, from 0 to the least 2^k - 1 that no member passes; of two single numbers
/// the exact value.
pub(crate) fn bits_xor(ty: IntType, a: &Strided, b: &Strided) -> Strided
    requires left { AreValues ty a.now }
    requires right { AreValues ty b.now }
    ensures { IsExactly (IsValue BinOp.Xor ty a.now b.now) result }
{
    if a.is_empty() {
        return *a;
    }
    if b.is_empty() {
        return *b;
    }
    if are_single(a, b) {
        return exact(BinOp::Xor, ty, a, b);
    }
    if !are_natural(a, b) {
        return all_values(ty);
    }
    numbers(ty, interval_dom::xor(interval_of(a), interval_of(b)))
}

/// What the operator gives on the least members.
fn exact(op: BinOp, ty: IntType, a: &Strided, b: &Strided) -> Strided
    requires left { AreValues ty a.now }
    requires right { AreRightOperands op ty b.now }
    requires some_left { a.now ≢ empty }
    requires some_right { b.now ≢ empty }
    ensures { (z : ℤ) → outcome op ty (first_of a.now) (first_of b.now) ≡ Ok z → result ≡ single z }
{
    match arith(op, ty, a.lo(), b.lo()) {
        Ok(value) => Strided::one(value),
        Err(_) => Strided::empty(),
    }
}

/// All values of the type.
fn all_values(ty: IntType) -> Strided
    ensures { IsExactly (IsIn ty) result }
{
    Strided::range(ty.lo(), ty.hi(), 1)
}

/// All numbers of the interval, which are values of the type.
fn numbers(ty: IntType, span: Interval) -> Strided
    requires { (v : ℤ) → InInterval (span_of span) v → IsIn ty v }
    ensures { IsExactly (InInterval (span_of span)) result }
{
    Strided::range(span.lo, span.hi, 1)
}

/// Whether each set is one number.
fn are_single(a: &Strided, b: &Strided) -> bool
    requires left { a.now ≢ empty }
    requires right { b.now ≢ empty }
    ensures { result ≡ (has_one (span_of_set a.now) && has_one (span_of_set b.now)) }
{
    a.lo() == a.hi() && b.lo() == b.hi()
}

/// Whether no set has a negative number.
fn are_natural(a: &Strided, b: &Strided) -> bool
    requires left { a.now ≢ empty }
    requires right { b.now ≢ empty }
    ensures { result ≡ (is_not_negative (span_of_set a.now) && is_not_negative (span_of_set b.now)) }
{
    a.lo() >= 0 && b.lo() >= 0
}

/// Whether some set has no negative number.
fn has_natural(a: &Strided, b: &Strided) -> bool
    requires left { a.now ≢ empty }
    requires right { b.now ≢ empty }
    ensures { result ≡ (is_not_negative (span_of_set a.now) || is_not_negative (span_of_set b.now)) }
{
    a.lo() >= 0 || b.lo() >= 0
}
