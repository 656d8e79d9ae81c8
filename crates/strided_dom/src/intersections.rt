//! The intersection of two strided sets.

ghost use Rattle.std.specs.Prelude.{◌≡◌, ℕ, ℤ, ◌≤ℤ◌, MatchOption};
ghost use Rattle.strided_dom.specs.Progression.{Progression, IsExactly, IsLeastNumber, IsInReach};
ghost use Rattle.strided_dom.specs.Combinations.{IsInBoth};
ghost use Rattle.strided_dom.specs.reading.Fields.{AreEnds, AreEndsOf, IsCommon};

use crate::divisors::{common_stride, least_factor};
use crate::sets::{Ends, Strided};

impl Strided {
    /// The intersection: the set of the members of both.
    pub fn meet(&self, other: &Strided) -> Strided
        ensures { IsExactly (IsInBoth self.now other.now) result }
    {
        match self.ends() {
            None => *self,
            Some(s) => match other.ends() {
                None => *other,
                Some(t) => {
                    if s.lo <= t.lo {
                        meet_of(s, t)
                    } else {
                        meet_of(t, s)
                    }
                }
            },
        }
    }
}

/// The numbers of both, where `s` begins no later than `t`.
fn meet_of(s: Ends, t: Ends) -> Strided
    requires left { AreEnds s.lo s.hi s.stride }
    requires right { AreEnds t.lo t.hi t.stride }
    requires order { s.lo ≤ℤ t.lo }
    ensures { (a b : Progression) → AreEndsOf a s.lo s.hi s.stride → AreEndsOf b t.lo t.hi t.stride
        → IsExactly (IsInBoth a b) result }
{
    let top = s.hi.min(t.hi);
    if top < t.lo {
        return Strided::empty();
    }
    match first_common(s, t, top) {
        None => Strided::empty(),
        Some(first) => {
            let stride = common_stride(s.stride, t.stride, top.abs_diff(first));
            Strided::spaced(first, top, stride)
        }
    }
}

/// The least number of `t` up to `top` that is congruent to `s.lo` modulo the stride of `s`, which begins no later.
fn first_common(s: Ends, t: Ends, top: i128) -> Option<i128>
    requires left { IsInReach s.lo }
    requires right { IsInReach t.lo }
    requires high { IsInReach top }
    requires order { s.lo ≤ℤ t.lo }
    requires ordered { t.lo ≤ℤ top }
    ensures { MatchOption result
        ((v : ℤ) → ¬ IsCommon s.lo s.stride t.lo top t.stride v)
        (IsLeastNumber (IsCommon s.lo s.stride t.lo top t.stride)) }
{
    let gap = t.lo.abs_diff(s.lo);
    if gap == 0 {
        return Some(t.lo);
    }
    if s.stride == 0 {
        return None;
    }
    let rest = gap % s.stride;
    if rest == 0 {
        return Some(t.lo);
    }
    if t.stride == 0 {
        return None;
    }
    match least_factor(t.stride % s.stride, s.stride - rest, s.stride) {
        None => None,
        Some((steps, _)) => {
            if steps > top.abs_diff(t.lo) / t.stride {
                return None;
            }
            Some(t.lo + (steps * t.stride) as i128)
        }
    }
}
