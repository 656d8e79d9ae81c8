//! Linear equations modulo a number, and common multiples.

ghost use Rattle.std.specs.Prelude.{◌<◌, MatchOption};
ghost use Rattle.strided_dom.specs.reading.Equations.{IsLeastFactor, HasNoFactor, IsCommonStride};

use tm_numbers::gcd;

/// The least t with a * t = m * k + c for some k, and that k.
pub fn least_factor(a: u128, c: u128, m: u128) -> Option<(u128, u128)>
    requires factor { a < m }
    requires rest { c < m }
    ensures answer { MatchOption result (HasNoFactor a c m)
        (λ r. IsLeastFactor a c m r.0 r.1) }
    ensures below { MatchOption result (Unit {0}) (λ r. r.0 < m) }
{
    if c == 0 {
        return Some((0, 0));
    }
    if a == 0 {
        return None;
    }
    let rest = c % a;
    if rest == 0 {
        return Some((c / a, 0));
    }
    match least_factor(m % a, a - rest, a) {
        None => None,
        Some((k, w)) => Some((m / a * k + c / a + w + 1, k)),
    }
}

/// The least common multiple, or 0 where it is above `limit` or one of the numbers is 0.
pub fn common_stride(m: u128, n: u128, limit: u128) -> u128
    ensures { IsCommonStride m n limit result }
{
    if m == 0 {
        return 0;
    }
    if n == 0 {
        return 0;
    }
    let step = m / gcd(m, n);
    if step > limit / n {
        return 0;
    }
    step * n
}
