//! The rows of `+`, `-`, `*`, `/` and `%` (C99 6.5.5, 6.5.6).
ghost use Rattle.std.specs.Prelude.{◌*ℤ◌, ◌^◌, ◌≡◌, ◌≢◌, ◌≤◌, ◌≤ℤ◌, ◌<ℤ◌, int_div, pos, unsigned_abs};
ghost use Rattle.interval_dom.specs.Interval.{HasSignedValues, HasTypeValues, HasUnsignedValues, span_of};
ghost use Rattle.interval_dom.specs.Interval.{span_of_unsigned};
ghost use Rattle.interval_dom.specs.Rows.{HasDivisor, IsOneSided, add_row, div_row, mul_row, rem_limit, rem_row};
ghost use Rattle.interval_dom.specs.Rows.{spanned, sub_row};

use super::intervals::{Interval, IntervalU};

/// Every sum of a number of `a` and one of `b`.
pub fn add(a: Interval, b: Interval) -> Interval
    requires left { HasTypeValues a }
    requires right { HasTypeValues b }
    ensures { span_of result ≡ add_row (span_of a) (span_of b) }
{
    Interval {
        lo: a.lo + b.lo,
        hi: a.hi + b.hi,
    }
}

/// Every difference of a number of `a` and one of `b`.
pub fn sub(a: Interval, b: Interval) -> Interval
    requires left { HasTypeValues a }
    requires right { HasTypeValues b }
    ensures { span_of result ≡ sub_row (span_of a) (span_of b) }
{
    Interval {
        lo: a.lo - b.hi,
        hi: a.hi - b.lo,
    }
}

/// Every product of a number of `a` and one of `b`, both from -2^63 to 2^63 - 1: the least and the greatest of the four
/// products of ends.
pub fn mul(a: Interval, b: Interval) -> Interval
    requires left { HasSignedValues a }
    requires right { HasSignedValues b }
    ensures { span_of result ≡ mul_row (span_of a) (span_of b) }
{
    spanning(
        product(a.lo, b.lo),
        product(a.lo, b.hi),
        product(a.hi, b.lo),
        product(a.hi, b.hi),
    )
}

/// The same row for numbers from 0 to 2^64 - 1, whose products pass the range of `i128`.
pub fn mul_u(a: Interval, b: Interval) -> IntervalU
    requires left { HasUnsignedValues a }
    requires right { HasUnsignedValues b }
    ensures { span_of_unsigned result ≡ mul_row (span_of a) (span_of b) }
{
    IntervalU {
        lo: a.lo as u128 * b.lo as u128,
        hi: a.hi as u128 * b.hi as u128,
    }
}

/// Every truncated quotient of a number of `a` by one of `b`, which lies on one side of 0: the least and the greatest
/// of the four quotients of ends.
pub fn div(a: Interval, b: Interval) -> Interval
    requires left { HasTypeValues a }
    requires right { HasTypeValues b }
    requires side { IsOneSided (span_of b) }
    ensures { span_of result ≡ div_row (span_of a) (span_of b) }
{
    spanning(
        quotient(a.lo, b.lo),
        quotient(a.lo, b.hi),
        quotient(a.hi, b.lo),
        quotient(a.hi, b.hi),
    )
}

/// Every remainder of a number of `a` by a number of `b` other than 0, of which there is one: with M the greatest size
/// of a divisor less 1, from the greater of -M and min(lo, 0) to the lesser of M and max(hi, 0).
pub fn rem(a: Interval, b: Interval) -> Interval
    requires left { HasTypeValues a }
    requires right { HasTypeValues b }
    requires divisor { HasDivisor (span_of b) }
    ensures { span_of result ≡ rem_row (span_of a) (span_of b) }
{
    let limit = remainder_limit(b);
    Interval {
        lo: (-limit).max(a.lo.min(0)),
        hi: limit.min(a.hi.max(0)),
    }
}

// From the least to the greatest of four numbers.
pub(crate) fn spanning(p: i128, q: i128, r: i128, s: i128) -> Interval
    ensures { span_of result ≡ spanned p q r s }
{
    Interval {
        lo: p.min(q).min(r.min(s)),
        hi: p.max(q).max(r.max(s)),
    }
}

fn product(x: i128, y: i128) -> i128
    requires left { unsigned_abs x ≤ 2 ^ 63 }
    requires right { unsigned_abs y ≤ 2 ^ 63 }
    ensures { result ≡ x *ℤ y }
{
    x * y
}

fn quotient(x: i128, y: i128) -> i128
    requires dividend { unsigned_abs x ≤ 2 ^ 64 }
    requires divisor { y ≢ pos 0 }
    ensures { result ≡ int_div x y }
{
    x / y
}

// The greatest size of a divisor, less 1.
fn remainder_limit(b: Interval) -> i128
    requires range { HasTypeValues b }
    requires divisor { HasDivisor (span_of b) }
    ensures value { result ≡ rem_limit (span_of b) }
    ensures low { pos 0 ≤ℤ result }
    ensures high { result <ℤ pos (2 ^ 64) }
{
    (b.lo.unsigned_abs().max(b.hi.unsigned_abs()) - 1) as i128
}
