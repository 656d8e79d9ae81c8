//! A set as an operand of the rows.
ghost use Rattle.std.specs.Prelude.{◌≡◌, ◌≢◌};
ghost use Rattle.strided_dom.specs.Progression.{empty};
ghost use Rattle.interval_dom.specs.Interval.{span_of};
ghost use Rattle.transfer_int.specs.Operands.{span_of_set, class_of_set};

use congruence_dom::Cong;
use interval_dom::Interval;
use strided_dom::Strided;

/// From the least to the greatest member.
pub(crate) fn interval_of(a: &Strided) -> Interval
    requires { a.now ≢ empty }
    ensures { span_of result ≡ span_of_set a.now }
{
    Interval {
        lo: a.lo(),
        hi: a.hi(),
    }
}

/// The numbers that are congruent to the members modulo the stride.
pub(crate) fn class_of(a: &Strided) -> Cong
    requires { a.now ≢ empty }
    ensures { result ≡ class_of_set a.now }
{
    Cong {
        residue: a.lo(),
        modulus: a.stride(),
    }
}
