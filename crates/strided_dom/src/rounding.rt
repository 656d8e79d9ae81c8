//! Thresholds, and rounding of strided sets onto them.

ghost use Rattle.std.specs.Prelude.{◌≡◌, ◌↔◌, ◌≤ℤ◌, IsTrue, MatchOption};
ghost use Rattle.strided_dom.specs.Progression.{IsExactly, IsLeastNumber, IsInReach};
ghost use Rattle.strided_dom.specs.Rounding.{IsMarkList, IsLowered, IsRaised, IsInRounding};
ghost use Rattle.strided_dom.specs.reading.Classes.{IsSplitAt, IsInClass, IsInClassBetween};
ghost use Rattle.strided_dom.specs.reading.Fields.{AreEnds};

use crate::sets::{Ends, REACH, Strided};
use std::marker::Model;

/// Thresholds between -2^100 and 2^100, in ascending order and without repeats. A contract sees their list.
#[derive(Drop)]
pub struct Marks {
    ends: Vec<i128>,
}

impl Model for Marks {
    ghost use Rattle.std.specs.Prelude.{List, ℤ};
    ghost use Rattle.strided_dom.specs.Rounding.{IsMarkList};

    ghost Value = { List ℤ };

    ghost view = { λ m. m.ends.items };

    ghost invariant = { λ m. IsMarkList m.ends.items };
}

impl Marks {
    /// The thresholds `ends`.
    pub fn new(ends: Vec<i128>) -> Marks
        requires { IsMarkList ends.items }
        ensures { result ≡ ends.items }
    {
        Marks { ends }
    }

    /// The thresholds `ends`, or none where they are not in ascending order, repeat, or are out of reach.
    pub fn checked(ends: Vec<i128>) -> Option<Marks>
        ensures { MatchOption result (¬ IsMarkList ends.items) (λ marks. marks ≡ ends.items) }
    {
        if !is_mark_list(ends.as_slice()) {
            return None;
        }
        Some(Marks { ends })
    }

    /// The thresholds in ascending order.
    pub fn ends(&self) -> &[i128]
        ensures value { result.now ≡ self.now }
        ensures sorted { IsMarkList self.now }
    {
        self.ends.as_slice()
    }
}

impl Strided {
    /// The set with its least member moved down and its greatest moved up to the nearest threshold, where there is one
    /// on that side; the members between these ends are those that are congruent to the set's modulo its stride.
    pub fn round(&self, marks: &Marks) -> Strided
        ensures { IsExactly (IsInRounding marks.now self.now) result }
    {
        let ends = marks.ends();
        match self.ends() {
            None => *self,
            Some(s) => round_ends(s, lowered(ends, s.lo), raised(ends, s.hi)),
        }
    }
}

/// Whether numbers are thresholds in ascending order, without repeats, and in reach.
fn is_mark_list(ends: &[i128]) -> bool
    ensures { IsTrue result ↔ IsMarkList ends.now }
{
    let mut last = -REACH - 1;
    for i in 0..ends.len() {
        let end = ends[i];
        if end <= last {
            return false;
        }
        if end > REACH {
            return false;
        }
        last = end;
    }
    true
}

/// The numbers from `low` to `high` that are congruent to those of `s`.
fn round_ends(s: Ends, low: i128, high: i128) -> Strided
    requires ends { AreEnds s.lo s.hi s.stride }
    requires low_reach { IsInReach low }
    requires high_reach { IsInReach high }
    requires below { low ≤ℤ s.lo }
    requires above { s.hi ≤ℤ high }
    ensures { IsExactly (IsInClassBetween low high s.lo s.stride) result }
{
    Strided::spaced(first_above(low, s.lo, s.stride), high, s.stride)
}

/// The least number from `low` on that is congruent to `lo` modulo `stride`.
fn first_above(low: i128, lo: i128, stride: u128) -> i128
    requires low_reach { IsInReach low }
    requires lo_reach { IsInReach lo }
    requires ordered { low ≤ℤ lo }
    ensures { IsLeastNumber (IsInClass low lo stride) result }
{
    if stride == 0 {
        return lo;
    }
    low + (lo.abs_diff(low) % stride) as i128
}

/// The greatest mark that is at most `v`, or `v` where there is none.
fn lowered(marks: &[i128], v: i128) -> i128
    requires { IsMarkList marks.now }
    ensures { IsLowered marks.now v result }
{
    let n = count_at_most(marks, v);
    if n == 0 {
        return v;
    }
    marks[n - 1]
}

/// The least mark that is at least `v`, or `v` where there is none.
fn raised(marks: &[i128], v: i128) -> i128
    requires sorted { IsMarkList marks.now }
    requires in_reach { IsInReach v }
    ensures { IsRaised marks.now v result }
{
    let n = count_at_most(marks, v - 1);
    if n == marks.len() {
        return v;
    }
    marks[n]
}

/// How many marks are at most `v`, by halving.
fn count_at_most(marks: &[i128], v: i128) -> usize
    requires { IsMarkList marks.now }
    ensures { IsSplitAt marks.now v result }
{
    let mut low = 0;
    let mut high = marks.len();
    while low < high {
        let middle = low + (high - low) / 2;
        if marks[middle] <= v {
            low = middle + 1;
        } else {
            high = middle;
        }
    }
    low
}
