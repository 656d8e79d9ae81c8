//! The type of strided sets, and what is asked of one of them.

ghost use Rattle.std.specs.Prelude.{◌≡◌, ◌≢◌, ◌↔◌, ℕ, ℤ, pos, neg_ℤ, unsigned_abs, ◌+◌, ◌+ℤ◌, ◌≤ℤ◌, ◌≤◌, ◌^◌, IsTrue};
ghost use Rattle.std.specs.Prelude.{MatchOption};
ghost use Rattle.std.specs.Int.{◌∣◌};
ghost use Rattle.strided_dom.specs.Progression.{Progression, empty, single, Has, IsSubset, IsExactly, IsLeastNumber};
ghost use Rattle.strided_dom.specs.Progression.{IsGreatestNumber, IsSpaced, IsInReach, first_of, last_of, stride_of};
ghost use Rattle.tm_numbers.specs.Congruence.{IsCongruent};
ghost use Rattle.strided_dom.specs.reading.Fields.{AreEndsOf, AreEndsWithin};

use std::marker::Model;

/// A finite set of evenly spaced integers between -2^100 and 2^100: empty, one number, or lo, lo + stride, .., hi.
#[derive(Clone, Copy, PartialEq, Eq)]
pub struct Strided {
    lo: i128,
    hi: i128,
    stride: u128,
}

impl Model for Strided {
    ghost use Rattle.strided_dom.specs.Progression.{Progression};

    ghost Value = { Progression };

    ghost use Rattle.strided_dom.specs.reading.Fields.{progression_of, fields_of, IsKept};
    ghost use Rattle.strided_dom.specs.laws.FieldsLaws.{fields_of-progression_of};

    ghost view = { progression_of };

    ghost invariant = { IsKept };

    ghost inverse = { fields_of };

    ghost inverse_ok = { fields_of-progression_of };
}

/// The ends and the stride of a set that is not empty; the stride is 0 where there is one member.
#[derive(Clone, Copy)]
pub(crate) struct Ends {
    pub(crate) lo: i128,
    pub(crate) hi: i128,
    pub(crate) stride: u128,
}

impl Strided {
    /// The empty set.
    pub fn empty() -> Strided
        ensures { result ≡ empty }
    {
        Strided {
            lo: 1,
            hi: 0,
            stride: 0,
        }
    }

    /// The set of `v` alone.
    pub fn one(v: i128) -> Strided
        requires { IsInReach v }
        ensures { result ≡ single v }
    {
        Strided {
            lo: v,
            hi: v,
            stride: 0,
        }
    }

    /// The numbers `lo`, `lo` + `stride`, .. that are at most `hi`; none where `hi` is below `lo`.
    pub fn range(lo: i128, hi: i128, stride: i128) -> Strided
        requires positive { pos 1 ≤ℤ stride }
        requires in_reach { (v : ℤ) → IsSpaced lo hi (unsigned_abs stride) v → IsInReach v }
        ensures { IsExactly (IsSpaced lo hi (unsigned_abs stride)) result }
    {
        if hi < lo {
            return Strided::empty();
        }
        Strided::spaced(lo, hi.min(REACH), stride.unsigned_abs())
    }

    /// Whether the set has no member.
    pub fn is_empty(&self) -> bool
        ensures { IsTrue result ↔ (self.now ≡ empty) }
    {
        self.hi < self.lo
    }

    /// Whether `v` is a member.
    pub fn has(&self, v: i128) -> bool
        ensures { IsTrue result ↔ Has self.now v }
    {
        match self.ends() {
            None => false,
            Some(s) => is_among(s, v),
        }
    }

    /// The least member.
    pub fn lo(&self) -> i128
        requires { self.now ≢ empty }
        ensures least { IsLeastNumber (Has self.now) result }
        ensures value { result ≡ first_of self.now }
        ensures in_reach { IsInReach result }
    {
        self.lo
    }

    /// The greatest member.
    pub fn hi(&self) -> i128
        requires { self.now ≢ empty }
        ensures greatest { IsGreatestNumber (Has self.now) result }
        ensures value { result ≡ last_of self.now }
        ensures in_reach { IsInReach result }
    {
        self.hi
    }

    /// The distance from a member to the next, 0 where there is one member; at most 2^101.
    pub fn stride(&self) -> i128
        requires { self.now ≢ empty }
        ensures value { result ≡ pos (stride_of self.now) }
        ensures bound { result ≤ℤ pos (2 ^ 101) }
    {
        self.stride as i128
    }

    /// Whether each member is a member of `other`.
    pub fn below(&self, other: &Strided) -> bool
        ensures { IsTrue result ↔ IsSubset self.now other.now }
    {
        match self.ends() {
            None => true,
            Some(s) => match other.ends() {
                None => false,
                Some(t) => are_ends_within(s, t),
            },
        }
    }

    /// The ends and the stride, or none where the set is empty.
    pub(crate) fn ends(&self) -> Option<Ends>
        ensures { MatchOption result (self.now ≡ empty)
            (λ s. AreEndsOf self.now s.lo s.hi s.stride) }
    {
        if self.hi < self.lo {
            return None;
        }
        Some(Ends {
            lo: self.lo,
            hi: self.hi,
            stride: self.stride,
        })
    }

    /// The set from `lo` to `hi`, which are congruent modulo `stride`.
    pub(crate) fn between(lo: i128, hi: i128, stride: u128) -> Strided
        requires low { IsInReach lo }
        requires high { IsInReach hi }
        requires ordered { lo ≤ℤ hi }
        requires congruent { IsCongruent stride hi lo }
        ensures { IsExactly (IsSpaced lo hi stride) result }
    {
        if lo == hi {
            return Strided::one(lo);
        }
        Strided { lo, hi, stride }
    }

    /// The numbers from `lo` to `top` that are congruent to `lo` modulo `stride`.
    pub(crate) fn spaced(lo: i128, top: i128, stride: u128) -> Strided
        requires low { IsInReach lo }
        requires high { IsInReach top }
        requires ordered { lo ≤ℤ top }
        ensures { IsExactly (IsSpaced lo top stride) result }
    {
        Strided::between(lo, last_below(lo, top, stride), stride)
    }
}

/// The greatest number that a set may hold, 2^100.
pub(crate) const REACH: i128 = 1267650600228229401496703205376;

/// The greatest number from `lo` to `top` that is congruent to `lo` modulo `stride`.
pub(crate) fn last_below(lo: i128, top: i128, stride: u128) -> i128
    requires low { IsInReach lo }
    requires high { IsInReach top }
    requires ordered { lo ≤ℤ top }
    ensures { IsGreatestNumber (IsSpaced lo top stride) result }
{
    if stride == 0 {
        return lo;
    }
    let rest = top.abs_diff(lo) % stride;
    top - rest as i128
}

/// Whether `n` is a multiple of `d`; only 0 is one of 0.
pub(crate) fn is_multiple(n: u128, d: u128) -> bool
    ensures { IsTrue result ↔ (d ∣ n) }
{
    // Sets that are compared mostly have an end and the stride in common, and then need no division, which is slow.
    if n == 0 {
        return true;
    }
    if n == d {
        return true;
    }
    if d == 1 {
        return true;
    }
    if d == 0 {
        return false;
    }
    n % d == 0
}

/// Whether `v` is one of the numbers of `s`.
fn is_among(s: Ends, v: i128) -> bool
    ensures { IsTrue result ↔ IsSpaced s.lo s.hi s.stride v }
{
    if v < s.lo {
        return false;
    }
    if s.hi < v {
        return false;
    }
    is_multiple(v.abs_diff(s.lo), s.stride)
}

/// Whether the numbers of `s` are among those of `t`.
fn are_ends_within(s: Ends, t: Ends) -> bool
    ensures { IsTrue result ↔ AreEndsWithin s.lo s.hi s.stride t.lo t.hi t.stride }
{
    if s.lo < t.lo {
        return false;
    }
    if t.hi < s.hi {
        return false;
    }
    if !is_multiple(s.lo.abs_diff(t.lo), t.stride) {
        return false;
    }
    is_multiple(s.stride, t.stride)
}
