//! Products (C99 6.5.5). Those of two unsigned values may pass 2^127, so they are wrapped without sign.
ghost use Rattle.std.specs.Prelude.{◌≡◌, ◌≢◌, ◌↔◌, ℤ, true, false, IsTrue, MatchOption};
ghost use Rattle.strided_dom.specs.Progression.{empty, IsExactly};
ghost use Rattle.tm_cint.specs.IntTypes.{is_signed};
ghost use Rattle.tm_cint.specs.declared.operators.BinOp.{BinOp};
ghost use Rattle.transfer_int.specs.reading.Fittings.{AreRows};
ghost use Rattle.transfer_int.specs.Operands.{AreValues};
ghost use Rattle.transfer_int.specs.Rows.{InRows};
ghost use Rattle.transfer_int.specs.Values.{IsValue, IsWrapped, Leaves};

use crate::conversions::{placed, size};
use crate::fittings::{fitted, leaves};
use crate::operands::{class_of, interval_of};
use congruence_dom::Cong;
use interval_dom::Interval;
use strided_dom::Strided;
use tm_cint::IntType;

/// A*B
pub(crate) fn products(ty: IntType, a: &Strided, b: &Strided) -> Strided
    requires left { AreValues ty a.now }
    requires right { AreValues ty b.now }
    ensures { IsExactly (IsValue BinOp.Mul ty a.now b.now) result }
{
    if a.is_empty() {
        return *a;
    }
    if b.is_empty() {
        return *b;
    }
    if ty.signed() {
        signed_products(ty, a, b)
    } else {
        unsigned_products(ty, a, b)
    }
}

/// Whether some product leaves a signed type.
pub(crate) fn products_leave(ty: IntType, a: &Strided, b: &Strided) -> bool
    requires left { AreValues ty a.now }
    requires right { AreValues ty b.now }
    ensures { IsTrue result ↔ Leaves BinOp.Mul ty a.now b.now }
{
    if !ty.signed() {
        return false;
    }
    if a.is_empty() {
        return false;
    }
    if b.is_empty() {
        return false;
    }
    let (span, class) = product_rows(ty, a, b);
    leaves(ty, span, class)
}

/// A*B of a signed type
fn signed_products(ty: IntType, a: &Strided, b: &Strided) -> Strided
    requires signed { is_signed ty ≡ true }
    requires left { AreValues ty a.now }
    requires right { AreValues ty b.now }
    requires some_left { a.now ≢ empty }
    requires some_right { b.now ≢ empty }
    ensures { IsExactly (IsValue BinOp.Mul ty a.now b.now) result }
{
    let (span, class) = product_rows(ty, a, b);
    fitted(ty, span, class)
}

/// The rows of A*B of a signed type.
fn product_rows(ty: IntType, a: &Strided, b: &Strided) -> (Interval, Cong)
    requires signed { is_signed ty ≡ true }
    requires left { AreValues ty a.now }
    requires right { AreValues ty b.now }
    requires some_left { a.now ≢ empty }
    requires some_right { b.now ≢ empty }
    ensures { AreRows (InRows BinOp.Mul ty a.now b.now) result.0 result.1 }
{
    (
        interval_dom::mul(interval_of(a), interval_of(b)),
        congruence_dom::mul(class_of(a), class_of(b)),
    )
}

/// A*B of an unsigned type
fn unsigned_products(ty: IntType, a: &Strided, b: &Strided) -> Strided
    requires unsigned { is_signed ty ≡ false }
    requires left { AreValues ty a.now }
    requires right { AreValues ty b.now }
    requires some_left { a.now ≢ empty }
    requires some_right { b.now ≢ empty }
    ensures { IsExactly (IsWrapped ty (InRows BinOp.Mul ty a.now b.now)) result }
{
    let span = interval_dom::mul_u(interval_of(a), interval_of(b));
    let class = congruence_dom::mul_u(class_of(a), class_of(b));
    placed(
        ty,
        (span.lo % size(ty)) as i128,
        span.hi - span.lo,
        class.modulus,
    )
}
