//! Wrapping of a progression into a type.
ghost use Rattle.std.specs.Prelude.{◌≡◌, ◌≢◌, ℤ, pos, neg_ℤ, ◌+ℤ◌, ◌≤ℤ◌, ◌^◌};
ghost use Rattle.std.specs.Int.{◌∣◌};
ghost use Rattle.strided_dom.specs.Progression.{Has, IsExactly, IsSpaced};
ghost use Rattle.tm_cint.specs.IntTypes.{IsIn, width_of, hi_of};
ghost use Rattle.tm_cint.specs.declared.int_types.IntType.{IntType};
ghost use Rattle.transfer_int.specs.Values.{turns, IsWrapped, IsConverted};

use strided_dom::Strided;
use tm_cint::{IntType, convert};
use tm_numbers::gcd;

/// What a conversion of the members to `to` gives (C99 6.3.1.2, 6.3.1.3): 0 or 1 for `_Bool`; for another type the set
/// moved by turns of 2^width where all of it then lies in the type, else the numbers of the type that are congruent to
/// its members modulo the greatest common divisor of its stride and 2^width.
pub fn converted(to: IntType, a: &Strided) -> Strided
    ensures { IsExactly (IsConverted to a.now) result }
{
    match to {
        IntType::Bool => truths(a),
        _ => wrapped(to, a),
    }
}

/// The conversion to `_Bool`.
fn truths(a: &Strided) -> Strided
    ensures { IsExactly (IsConverted IntType.Bool a.now) result }
{
    if a.is_empty() {
        return *a;
    }
    if !a.has(0) {
        return Strided::one(1);
    }
    if a.lo() == a.hi() {
        return Strided::one(0);
    }
    Strided::range(0, 1, 1)
}

/// The conversion to another type.
fn wrapped(ty: IntType, a: &Strided) -> Strided
    requires { ty ≢ IntType.Bool }
    ensures { IsExactly (IsWrapped ty (Has a.now)) result }
{
    if a.is_empty() {
        return *a;
    }
    placed(
        ty,
        convert(a.lo(), ty),
        a.hi().abs_diff(a.lo()),
        a.stride() as u128,
    )
}

/// The wrapping of a progression that begins at `low` and some turns, and ends `extent` above.
pub(crate) fn placed(ty: IntType, low: i128, extent: u128, stride: u128) -> Strided
    requires in_type { IsIn ty low }
    requires congruent { stride ∣ extent }
    ensures { (first k : ℤ) → first ≡ low +ℤ turns ty k
        → IsExactly (IsWrapped ty (IsSpaced first (first +ℤ pos extent) stride)) result }
{
    if extent <= ty.hi().abs_diff(low) {
        return progression(low, extent, stride);
    }
    let step = gcd(stride, size(ty));
    let first = ty.lo() + (low.abs_diff(ty.lo()) % step) as i128;
    Strided::range(first, ty.hi(), step as i128)
}

/// The numbers from `low` to `low` and `extent` in steps of `stride`.
pub(crate) fn progression(low: i128, extent: u128, stride: u128) -> Strided
    requires from { neg_ℤ (pos (2 ^ 64)) ≤ℤ low }
    requires to { (low +ℤ pos extent) ≤ℤ pos (2 ^ 64) }
    requires congruent { stride ∣ extent }
    ensures { IsExactly (IsSpaced low (low +ℤ pos extent) stride) result }
{
    if extent == 0 {
        return Strided::one(low);
    }
    Strided::range(low, low + extent as i128, stride as i128)
}

/// 2 to the power of the width.
pub(crate) fn size(ty: IntType) -> u128
    ensures { result ≡ 2 ^ width_of ty }
{
    1 << ty.width()
}
