//! The values of comparisons (C99 6.5.8, 6.5.9).
ghost use Rattle.std.specs.Prelude.{◌≡◌, ◌↔◌, IsTrue, true, false, int_lt, int_le};
ghost use Rattle.strided_dom.specs.Progression.{IsExactly};
ghost use Rattle.tm_cint.specs.Operators.{is_same, IsComparison};
ghost use Rattle.transfer_int.specs.reading.Comparisons.{HasPair, IsTruthValue};
ghost use Rattle.transfer_int.specs.Values.{IsTruth};

use strided_dom::Strided;
use tm_cint::{BinOp, IntType};

/// What the comparison gives for members of `a` and `b`: 0, 1 or both, and neither where a set has no member.
pub(crate) fn comparison(op: BinOp, ty: IntType, a: &Strided, b: &Strided) -> Strided
    requires { IsComparison op }
    ensures { IsExactly (IsTruth op ty a.now b.now) result }
{
    match op {
        BinOp::Lt => truth_values(may_be_at_most(b, a), may_be_less(a, b)),
        BinOp::Le => truth_values(may_be_less(b, a), may_be_at_most(a, b)),
        BinOp::Gt => truth_values(may_be_at_most(a, b), may_be_less(b, a)),
        BinOp::Ge => truth_values(may_be_less(a, b), may_be_at_most(b, a)),
        BinOp::Eq => truth_values(may_differ(a, b), may_be_same(a, b)),
        _ => truth_values(may_be_same(a, b), may_differ(a, b)),
    }
}

/// The set of 0, where the comparison may fail, and 1, where it may hold.
fn truth_values(may_fail: bool, may_hold: bool) -> Strided
    ensures { IsExactly (IsTruthValue may_fail may_hold) result }
{
    match (may_fail, may_hold) {
        (true, true) => Strided::range(0, 1, 1),
        (true, false) => Strided::one(0),
        (false, true) => Strided::one(1),
        (false, false) => Strided::empty(),
    }
}

/// Whether some member of `a` is below some member of `b`.
fn may_be_less(a: &Strided, b: &Strided) -> bool
    ensures { IsTrue result ↔ HasPair int_lt true a.now b.now }
{
    if a.is_empty() {
        return false;
    }
    if b.is_empty() {
        return false;
    }
    a.lo() < b.hi()
}

/// Whether some member of `a` is at most some member of `b`.
fn may_be_at_most(a: &Strided, b: &Strided) -> bool
    ensures { IsTrue result ↔ HasPair int_le true a.now b.now }
{
    if a.is_empty() {
        return false;
    }
    if b.is_empty() {
        return false;
    }
    a.lo() <= b.hi()
}

/// Whether the sets have a member in common.
fn may_be_same(a: &Strided, b: &Strided) -> bool
    ensures { IsTrue result ↔ HasPair is_same true a.now b.now }
{
    !a.meet(b).is_empty()
}

/// Whether some member of `a` is not equal to some member of `b`.
fn may_differ(a: &Strided, b: &Strided) -> bool
    ensures { IsTrue result ↔ HasPair is_same false a.now b.now }
{
    if may_be_less(a, b) {
        return true;
    }
    may_be_less(b, a)
}
