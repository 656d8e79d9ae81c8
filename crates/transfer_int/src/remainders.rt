//! The values of `%` (C99 6.5.5).
ghost use Rattle.std.specs.Prelude.{◌≢◌, ◌↔◌, IsTrue};
ghost use Rattle.strided_dom.specs.Progression.{empty, IsExactly};
ghost use Rattle.tm_cint.specs.declared.operators.BinOp.{BinOp};
ghost use Rattle.transfer_int.specs.Operands.{AreValues};
ghost use Rattle.transfer_int.specs.reading.Remainders.{AreSmaller, HasSomeDivisor};
ghost use Rattle.transfer_int.specs.Values.{IsValue};

use crate::fittings::fitted;
use crate::operands::{class_of, interval_of};
use crate::parts::part;
use strided_dom::Strided;
use tm_cint::IntType;

/// `a % b`: with the sign of `a` and smaller than the greatest divisor; `a` itself where each of its members is smaller
/// than every divisor.
pub(crate) fn remainders(ty: IntType, a: &Strided, b: &Strided) -> Strided
    requires left { AreValues ty a.now }
    requires right { AreValues ty b.now }
    ensures { IsExactly (IsValue BinOp.Rem ty a.now b.now) result }
{
    if a.is_empty() {
        return *a;
    }
    if !has_divisor(b) {
        return Strided::empty();
    }
    if are_smaller(a, b) {
        return *a;
    }
    fitted(
        ty,
        interval_dom::rem(interval_of(a), interval_of(b)),
        congruence_dom::rem(class_of(a), class_of(b)),
    )
}

/// Whether some member is not 0.
fn has_divisor(b: &Strided) -> bool
    ensures { IsTrue result ↔ HasSomeDivisor b.now }
{
    !b.below(&Strided::one(0))
}

/// Whether each member of `a` is smaller than each divisor of `b`.
fn are_smaller(a: &Strided, b: &Strided) -> bool
    requires { a.now ≢ empty }
    ensures { IsTrue result ↔ AreSmaller a.now b.now }
{
    let size = a.lo().unsigned_abs().max(a.hi().unsigned_abs()) as i128;
    part(b, -size, size).below(&Strided::one(0))
}
