//! Sums and differences (C99 6.5.6).
ghost use Rattle.std.specs.Prelude.{◌↔◌, ℤ, IsTrue, MatchOption};
ghost use Rattle.strided_dom.specs.Progression.{IsExactly};
ghost use Rattle.tm_cint.specs.declared.operators.BinOp.{BinOp};
ghost use Rattle.transfer_int.specs.reading.Fittings.{AreRows};
ghost use Rattle.transfer_int.specs.Operands.{AreValues};
ghost use Rattle.transfer_int.specs.Rows.{InRows};
ghost use Rattle.transfer_int.specs.Values.{IsValue, Leaves};

use crate::fittings::{fitted, leaves};
use crate::operands::{class_of, interval_of};
use congruence_dom::Cong;
use interval_dom::Interval;
use strided_dom::Strided;
use tm_cint::IntType;

/// A+B
pub(crate) fn sums(ty: IntType, a: &Strided, b: &Strided) -> Strided
    requires left { AreValues ty a.now }
    requires right { AreValues ty b.now }
    ensures { IsExactly (IsValue BinOp.Add ty a.now b.now) result }
{
    match sum_rows(ty, a, b) {
        None => Strided::empty(),
        Some((span, class)) => fitted(ty, span, class),
    }
}

/// Whether some sum leaves a signed type.
pub(crate) fn sums_leave(ty: IntType, a: &Strided, b: &Strided) -> bool
    requires left { AreValues ty a.now }
    requires right { AreValues ty b.now }
    ensures { IsTrue result ↔ Leaves BinOp.Add ty a.now b.now }
{
    if !ty.signed() {
        return false;
    }
    match sum_rows(ty, a, b) {
        None => false,
        Some((span, class)) => leaves(ty, span, class),
    }
}

/// The rows of A+B, if both sets have members.
fn sum_rows(ty: IntType, a: &Strided, b: &Strided) -> Option<(Interval, Cong)>
    requires left { AreValues ty a.now }
    requires right { AreValues ty b.now }
    ensures { MatchOption result ((v : ℤ) → ¬ InRows BinOp.Add ty a.now b.now v)
        (λ r. AreRows (InRows BinOp.Add ty a.now b.now) r.0 r.1) }
{
    if a.is_empty() {
        return None;
    }
    if b.is_empty() {
        return None;
    }
    Some((
        interval_dom::add(interval_of(a), interval_of(b)),
        congruence_dom::add(class_of(a), class_of(b)),
    ))
}

/// A-B
pub(crate) fn differences(ty: IntType, a: &Strided, b: &Strided) -> Strided
    requires left { AreValues ty a.now }
    requires right { AreValues ty b.now }
    ensures { IsExactly (IsValue BinOp.Sub ty a.now b.now) result }
{
    match difference_rows(ty, a, b) {
        None => Strided::empty(),
        Some((span, class)) => fitted(ty, span, class),
    }
}

/// Whether some difference leaves a signed type.
pub(crate) fn differences_leave(ty: IntType, a: &Strided, b: &Strided) -> bool
    requires left { AreValues ty a.now }
    requires right { AreValues ty b.now }
    ensures { IsTrue result ↔ Leaves BinOp.Sub ty a.now b.now }
{
    if !ty.signed() {
        return false;
    }
    match difference_rows(ty, a, b) {
        None => false,
        Some((span, class)) => leaves(ty, span, class),
    }
}

/// The rows of A-B, if both sets have members.
fn difference_rows(ty: IntType, a: &Strided, b: &Strided) -> Option<(Interval, Cong)>
    requires left { AreValues ty a.now }
    requires right { AreValues ty b.now }
    ensures { MatchOption result ((v : ℤ) → ¬ InRows BinOp.Sub ty a.now b.now v)
        (λ r. AreRows (InRows BinOp.Sub ty a.now b.now) r.0 r.1) }
{
    if a.is_empty() {
        return None;
    }
    if b.is_empty() {
        return None;
    }
    Some((
        interval_dom::sub(interval_of(a), interval_of(b)),
        congruence_dom::sub(class_of(a), class_of(b)),
    ))
}
