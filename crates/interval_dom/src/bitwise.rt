//! The rows of `&`, `|` and `^` (C99 6.5.10 to 6.5.12): the intersection of the rows whose guards hold.
ghost use Rattle.std.specs.Prelude.{◌&&◌, ◌-◌, ◌^◌, ◌≡◌, ◌≤ℤ◌, ◌<ℤ◌, IsSome, Some, pos, unsigned_abs};
ghost use Rattle.interval_dom.specs.Bitwise.{bit_length};
ghost use Rattle.interval_dom.specs.Interval.{HasTypeValues, span_of};
ghost use Rattle.interval_dom.specs.Rows.{and_row, from_zero_to, has_one, is_not_negative, ones_over, only, or_row};
ghost use Rattle.interval_dom.specs.Rows.{xor_row};

use super::intervals::Interval;

/// Every `x & y`: from 0 to the greatest number of an operand that has no negative one, and the exact value where each
/// operand has one number. One of these has to apply.
pub fn and(a: Interval, b: Interval) -> Interval
    requires left { HasTypeValues a }
    requires right { HasTypeValues b }
    requires guard { IsSome (and_row (span_of a) (span_of b)) }
    ensures { and_row (span_of a) (span_of b) ≡ Some (span_of result) }
{
    if have_one(a, b) {
        return single(a.lo & b.lo);
    }
    if !no_negative(a) {
        return up_to(b.hi);
    }
    if !no_negative(b) {
        return up_to(a.hi);
    }
    up_to(a.hi.min(b.hi))
}

/// Every `x | y`: where no operand has a negative number, from the greater of the two least ones to 2^k - 1 for the
/// least k with both greatest ones below 2^k; the exact value where each operand has one number. One of these has to
/// apply.
pub fn or(a: Interval, b: Interval) -> Interval
    requires left { HasTypeValues a }
    requires right { HasTypeValues b }
    requires guard { IsSome (or_row (span_of a) (span_of b)) }
    ensures { or_row (span_of a) (span_of b) ≡ Some (span_of result) }
{
    if have_one(a, b) {
        return single(a.lo | b.lo);
    }
    Interval {
        lo: a.lo.max(b.lo),
        hi: highest(a, b),
    }
}

/// Every `x ^ y`: where no operand has a negative number, from 0 to 2^k - 1 for the least k with both greatest ones
/// below 2^k; the exact value where each operand has one number. One of these has to apply.
pub fn xor(a: Interval, b: Interval) -> Interval
    requires left { HasTypeValues a }
    requires right { HasTypeValues b }
    requires guard { IsSome (xor_row (span_of a) (span_of b)) }
    ensures { xor_row (span_of a) (span_of b) ≡ Some (span_of result) }
{
    if have_one(a, b) {
        return single(a.lo ^ b.lo);
    }
    up_to(highest(a, b))
}

fn single(value: i128) -> Interval
    ensures { span_of result ≡ only value }
{
    Interval {
        lo: value,
        hi: value,
    }
}

fn up_to(hi: i128) -> Interval
    requires { pos 0 ≤ℤ hi }
    ensures { span_of result ≡ from_zero_to hi }
{
    Interval { lo: 0, hi }
}

fn no_negative(a: Interval) -> bool
    ensures { result ≡ is_not_negative (span_of a) }
{
    a.lo >= 0
}

fn have_one(a: Interval, b: Interval) -> bool
    ensures { result ≡ (has_one (span_of a) && has_one (span_of b)) }
{
    a.lo == a.hi && b.lo == b.hi
}

// 2^k - 1 for the least k with both greatest numbers below 2^k.
fn highest(a: Interval, b: Interval) -> i128
    requires left { HasTypeValues a }
    requires right { HasTypeValues b }
    requires left_low { pos 0 ≤ℤ a.lo }
    requires right_low { pos 0 ≤ℤ b.lo }
    ensures { result ≡ ones_over (span_of a) (span_of b) }
{
    all_ones(a.hi.max(b.hi))
}

// 2^k - 1 for the least k with n below 2^k.
fn all_ones(n: i128) -> i128
    requires low { pos 0 ≤ℤ n }
    requires high { n <ℤ pos (2 ^ 64) }
    ensures { result ≡ pos (2 ^ bit_length (unsigned_abs n) - 1) }
{
    if n == 0 { 0 } else { (2 << n.ilog2()) - 1 }
}
