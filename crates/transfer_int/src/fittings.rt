//! The numbers of an interval row and a congruence row, met with a signed type or wrapped into an unsigned one.
ghost use Rattle.std.specs.Prelude.{◌≡◌, ◌↔◌, ◌+◌, ◌<◌, ◌≤◌, ◌^◌, ℤ, pos, ◌+ℤ◌, ◌-ℤ◌, ◌<ℤ◌, ◌≤ℤ◌, false, IsTrue};
ghost use Rattle.std.specs.Prelude.{MatchOption};
ghost use Rattle.strided_dom.specs.Progression.{IsExactly};
ghost use Rattle.interval_dom.specs.Interval.{span_of};
ghost use Rattle.tm_numbers.specs.Divisors.{Divides};
ghost use Rattle.tm_cint.specs.IntTypes.{IsIn, is_signed, width_of};
ghost use Rattle.tm_numbers.specs.Congruence.{IsCongruent};
ghost use Rattle.transfer_int.specs.reading.Fittings.{IsMember, IsMet, HasOutside, AreMembers, from_to};
ghost use Rattle.transfer_int.specs.Values.{IsFitted, IsWrapped};

use crate::conversions::{placed, progression, size};
use congruence_dom::Cong;
use interval_dom::Interval;
use strided_dom::Strided;
use tm_cint::IntType;

/// The numbers from `first` to `first` and `extent` in steps of `step`.
#[derive(Clone, Copy)]
struct Steps {
    first: i128,
    extent: u128,
    step: u128,
}

/// The numbers of the interval and the class, met with the range of a signed type; an unsigned type wraps them.
pub(crate) fn fitted(ty: IntType, span: Interval, class: Cong) -> Strided
    requires narrow { (span.hi -ℤ span.lo) <ℤ pos (2 ^ 127) }
    ensures { IsExactly (IsFitted ty (IsMember (span_of span) class)) result }
{
    if ty.signed() {
        met(ty, span, class)
    } else {
        wrapped(ty, span, class)
    }
}

/// Whether some number of the interval and the class is no value of the type.
pub(crate) fn leaves(ty: IntType, span: Interval, class: Cong) -> bool
    requires narrow { (span.hi -ℤ span.lo) <ℤ pos (2 ^ 127) }
    ensures { IsTrue result ↔ HasOutside ty (IsMember (span_of span) class) }
{
    match members(span.lo, span.hi, class) {
        None => false,
        Some(row) => {
            if !ty.holds(row.first) {
                return true;
            }
            !ty.holds(row.first + row.extent as i128)
        }
    }
}

/// The numbers of the interval and the class that are values of the type.
fn met(ty: IntType, span: Interval, class: Cong) -> Strided
    requires narrow { (span.hi -ℤ span.lo) <ℤ pos (2 ^ 127) }
    ensures { IsExactly (IsMet ty (IsMember (span_of span) class)) result }
{
    match members(span.lo.max(ty.lo()), span.hi.min(ty.hi()), class) {
        None => Strided::empty(),
        Some(row) => progression(row.first, row.extent, row.step),
    }
}

/// The wrapping of the numbers of the interval and the class into an unsigned type.
fn wrapped(ty: IntType, span: Interval, class: Cong) -> Strided
    requires unsigned { is_signed ty ≡ false }
    requires narrow { (span.hi -ℤ span.lo) <ℤ pos (2 ^ 127) }
    ensures { IsExactly (IsWrapped ty (IsMember (span_of span) class)) result }
{
    match members(span.lo, span.hi, class) {
        None => Strided::empty(),
        Some(row) => placed(ty, turned(ty, row.first), row.extent, row.step),
    }
}

/// The value of an unsigned type that differs from `v` by some turns.
fn turned(ty: IntType, v: i128) -> i128
    requires { is_signed ty ≡ false }
    ensures in_type { IsIn ty result }
    ensures congruent { IsCongruent (2 ^ width_of ty) v result }
{
    let size = size(ty) as i128;
    let rest = v % size;
    if rest < 0 { rest + size } else { rest }
}

/// The numbers from `lo` to `hi` in the class, if there are some.
fn members(lo: i128, hi: i128, class: Cong) -> Option<Steps>
    requires narrow { (hi -ℤ lo) <ℤ pos (2 ^ 127) }
    ensures { MatchOption result ((v : ℤ) → ¬ IsMember (from_to lo hi) class v)
        (λ row. AreMembers (from_to lo hi) class row.first row.extent row.step) }
{
    let step = class.modulus.unsigned_abs();
    if hi < lo {
        return None;
    }
    if step == 0 {
        return residue_alone(lo, hi, class.residue);
    }
    let up = distance_up(lo, class.residue, step);
    let room = hi.abs_diff(lo);
    if room < up {
        return None;
    }
    let rest = (room - up) % step;
    Some(Steps {
        first: lo + up as i128,
        extent: room - up - rest,
        step,
    })
}

/// The residue, where it lies from `lo` to `hi`.
fn residue_alone(lo: i128, hi: i128, residue: i128) -> Option<Steps>
    ensures { MatchOption result ((v : ℤ) → ¬ IsMember (from_to lo hi)
        (record { residue = residue; modulus = pos 0 }) v)
        (λ row. AreMembers (from_to lo hi) (record {
          residue = residue;
          modulus = pos 0;
        }) row.first row.extent row.step) }
{
    if residue < lo {
        return None;
    }
    if hi < residue {
        return None;
    }
    Some(Steps {
        first: residue,
        extent: 0,
        step: 0,
    })
}

/// How far above `lo` the next number that is congruent to `residue` modulo `step` lies.
fn distance_up(lo: i128, residue: i128, step: u128) -> u128
    requires { 1 ≤ step }
    ensures below { result < step }
    ensures congruent { Divides (pos step) ((lo +ℤ pos result) -ℤ residue) }
{
    let rest = residue.abs_diff(lo) % step;
    if lo <= residue {
        return rest;
    }
    if rest == 0 {
        return 0;
    }
    step - rest
}
