//! The rows of `<<` and `>>` (C99 6.5.7).
ghost use Rattle.std.specs.Prelude.{◌^◌, ◌≡◌, ◌≤ℤ◌, ◌<ℤ◌, pos};
ghost use Rattle.interval_dom.specs.Interval.{HasCounts, HasTypeValues, span_of};
ghost use Rattle.interval_dom.specs.Rows.{shift_left, shift_right, shl_row, shr_row};

use super::arithmetic::spanning;
use super::intervals::Interval;

/// Every product of a number of `a`, which has no negative one, and 2 to the power of a number of `n`.
pub fn shl(a: Interval, n: Interval) -> Interval
    requires left { HasTypeValues a }
    requires counts { HasCounts n }
    requires not_negative { pos 0 ≤ℤ a.lo }
    ensures { span_of result ≡ shl_row (span_of a) (span_of n) }
{
    Interval {
        lo: shifted_left(a.lo, n.lo),
        hi: shifted_left(a.hi, n.hi),
    }
}

/// Every quotient, rounded down, of a number of `a` by 2 to the power of a number of `n`: the least and the greatest of
/// the four at the ends.
pub fn shr(a: Interval, n: Interval) -> Interval
    requires left { HasTypeValues a }
    requires counts { HasCounts n }
    ensures { span_of result ≡ shr_row (span_of a) (span_of n) }
{
    spanning(
        shifted_right(a.lo, n.lo),
        shifted_right(a.lo, n.hi),
        shifted_right(a.hi, n.lo),
        shifted_right(a.hi, n.hi),
    )
}

fn shifted_left(x: i128, count: i128) -> i128
    requires low { pos 0 ≤ℤ x }
    requires high { x <ℤ pos (2 ^ 64) }
    requires count_low { pos 0 ≤ℤ count }
    requires count_high { count <ℤ pos 64 }
    ensures { result ≡ shift_left x count }
{
    x << count as u32
}

fn shifted_right(x: i128, count: i128) -> i128
    requires low { pos 0 ≤ℤ count }
    requires high { count <ℤ pos 64 }
    ensures { result ≡ shift_right x count }
{
    x >> count as u32
}
