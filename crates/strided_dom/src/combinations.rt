//! Join, intersection, sums and products of strided sets.

ghost use Rattle.std.specs.Prelude.{◌≡◌, ℕ, ℤ, ◌*ℤ◌, ◌+ℤ◌, ◌<ℤ◌, ◌≤ℤ◌};
ghost use Rattle.strided_dom.specs.Progression.{Progression, Has, IsExactly, IsHull, IsSpaced, IsInReach};
ghost use Rattle.strided_dom.specs.Combinations.{IsInEither, IsInBoth, IsAnother, IsSum, IsProduct};
ghost use Rattle.strided_dom.specs.reading.Fields.{AreEnds, AreEndsOf};

use crate::sets::{Ends, Strided};
use tm_numbers::gcd;

impl Strided {
    /// The join: the least strided set with the members of both.
    pub fn hull(&self, other: &Strided) -> Strided
        ensures { IsHull (IsInEither self.now other.now) result }
    {
        match self.ends() {
            None => *other,
            Some(s) => match other.ends() {
                None => *self,
                Some(t) => hull_of(s, t),
            },
        }
    }

    /// The least strided set with the members other than `v`.
    pub fn without(&self, v: i128) -> Strided
        ensures { IsHull (IsAnother self.now v) result }
    {
        if !self.has(v) {
            return *self;
        }
        match self.ends() {
            None => *self,
            Some(s) => without_member(s, v),
        }
    }

    /// The least strided set with all sums of a member and a member of `other`.
    pub fn sum(&self, other: &Strided) -> Strided
        requires { (v : ℤ) → IsSum self.now other.now v → IsInReach v }
        ensures { IsHull (IsSum self.now other.now) result }
    {
        match self.ends() {
            None => *self,
            Some(s) => match other.ends() {
                None => *other,
                Some(t) => sum_of(s, t),
            },
        }
    }

    /// The set of the products of a member with `n`.
    pub fn times(&self, n: i128) -> Strided
        requires { (v : ℤ) → IsProduct self.now n v → IsInReach v }
        ensures { IsExactly (IsProduct self.now n) result }
    {
        match self.ends() {
            None => *self,
            Some(s) => times_of(s, n),
        }
    }
}

/// The hull of the numbers of `s` and of `t`.
fn hull_of(s: Ends, t: Ends) -> Strided
    requires left { AreEnds s.lo s.hi s.stride }
    requires right { AreEnds t.lo t.hi t.stride }
    ensures { (a b : Progression) → AreEndsOf a s.lo s.hi s.stride → AreEndsOf b t.lo t.hi t.stride
        → IsHull (IsInEither a b) result }
{
    let apart = s.lo.abs_diff(t.lo);
    let stride = gcd(gcd(s.stride, t.stride), apart);
    Strided::between(s.lo.min(t.lo), s.hi.max(t.hi), stride)
}

/// The hull of the numbers of `s` other than `v`, which is one of them.
fn without_member(s: Ends, v: i128) -> Strided
    requires ends { AreEnds s.lo s.hi s.stride }
    requires member { IsSpaced s.lo s.hi s.stride v }
    ensures { (a : Progression) → AreEndsOf a s.lo s.hi s.stride → IsHull (IsAnother a v) result }
{
    if s.lo == s.hi {
        return Strided::empty();
    }
    let step = s.stride as i128;
    if v == s.lo {
        return Strided::between(s.lo + step, s.hi, s.stride);
    }
    if v == s.hi {
        return Strided::between(s.lo, s.hi - step, s.stride);
    }
    if s.hi.abs_diff(s.lo) == 2 * s.stride {
        return Strided::between(s.lo, s.hi, 2 * s.stride);
    }
    Strided::between(s.lo, s.hi, s.stride)
}

/// The hull of the sums of a number of `s` and a number of `t`.
fn sum_of(s: Ends, t: Ends) -> Strided
    requires left { AreEnds s.lo s.hi s.stride }
    requires right { AreEnds t.lo t.hi t.stride }
    requires low { IsInReach (s.lo +ℤ t.lo) }
    requires high { IsInReach (s.hi +ℤ t.hi) }
    ensures { (a b : Progression) → AreEndsOf a s.lo s.hi s.stride → AreEndsOf b t.lo t.hi t.stride
        → IsHull (IsSum a b) result }
{
    Strided::between(s.lo + t.lo, s.hi + t.hi, gcd(s.stride, t.stride))
}

/// The products of a number of `s` with `n`.
fn times_of(s: Ends, n: i128) -> Strided
    requires ends { AreEnds s.lo s.hi s.stride }
    requires low { IsInReach (s.lo *ℤ n) }
    requires high { IsInReach (s.hi *ℤ n) }
    ensures { (a : Progression) → AreEndsOf a s.lo s.hi s.stride → IsExactly (IsProduct a n) result }
{
    let first = s.lo * n;
    let last = s.hi * n;
    let stride = s.stride * n.unsigned_abs();
    Strided::between(first.min(last), first.max(last), stride)
}
