//! Which accesses of an object race with which. Those of one task and of one kind, under the same mutexes and to the
//! same points, race with the same ones: that is found once for all of them.
ghost use Rattle.std.specs.Prelude.{◌≡◌, ◌<◌, ◌↔◌, length, IfOk, IsTrue};
ghost use Rattle.access_partners.specs.reading.Pairs.{IsLike, IsSame, IsFirstSame, AreFirsts, AreAllByCells, ArePair, ArePairs};

use crate::meeting::do_meet;
use crate::points::Point;
use access_groups::ObjectAccess;
use std::alloc::Global;
use tm_lattice::NoMemory;

// Whether two are of one task and one kind, under the same mutexes.
fn is_like(one: ObjectAccess, other: ObjectAccess) -> bool
    ensures { IsTrue result → IsLike one other }
{
    one.task == other.task && one.stores == other.stores && one.held == other.held
}

// Whether two race with the same ones, since all that decides is the same.
fn is_same(
    one: ObjectAccess,
    one_points: &[Point],
    other: ObjectAccess,
    other_points: &[Point],
) -> bool
    ensures { IsTrue result → IsSame one one_points.now other other_points.now }
{
    if is_like(one, other) {
        return one_points == other_points;
    }
    false
}

// The first access that races with the same ones as that with this number.
fn first_same(accesses: &[ObjectAccess], points: &[Vec<Point>], at: usize) -> usize
    requires count { length points.now ≡ length accesses.now }
    requires at { at < length accesses.now }
    ensures { IsFirstSame accesses.now points.now at result }
{
    for earlier in 0..at {
        if is_same(
            accesses[earlier],
            &points[earlier],
            accesses[at],
            &points[at],
        ) {
            return earlier;
        }
    }
    at
}

/// For each access the first that races with the same ones.
pub(crate) fn firsts(
    alloc: Global,
    accesses: &[ObjectAccess],
    points: &[Vec<Point>],
) -> Result<Vec<usize>, NoMemory>
    requires { length points.now ≡ length accesses.now }
    ensures { IfOk result (λ firsts. AreFirsts accesses.now points.now firsts.items) }
{
    let mut firsts = Vec::new(alloc);
    for at in 0..accesses.len() {
        firsts.push(first_same(accesses, points, at))?;
    }
    Ok(firsts)
}

// Whether the access with the number `at` races with the one with the number `other`, where that is known for those
// before the latter.
fn is_pair(
    accesses: &[ObjectAccess],
    points: &[Vec<Point>],
    firsts: &[usize],
    at: usize,
    other: usize,
    known: &[bool],
) -> bool
    requires count { length points.now ≡ length accesses.now }
    requires by_cells { AreAllByCells points.now }
    requires firsts { AreFirsts accesses.now points.now firsts.now }
    requires at { at < length accesses.now }
    requires other { other < length accesses.now }
    requires known { ArePairs accesses.now points.now at other known.now }
    ensures { IsTrue result ↔ ArePair accesses.now points.now at other }
{
    let first = firsts[other];
    if first < other {
        return known[first];
    }
    do_meet(accesses[at], &points[at], accesses[other], &points[other])
}

/// For each access whether the one with this number races with it.
pub(crate) fn pairs_of(
    alloc: Global,
    accesses: &[ObjectAccess],
    points: &[Vec<Point>],
    firsts: &[usize],
    at: usize,
) -> Result<Vec<bool>, NoMemory>
    requires count { length points.now ≡ length accesses.now }
    requires by_cells { AreAllByCells points.now }
    requires firsts { AreFirsts accesses.now points.now firsts.now }
    requires at { at < length accesses.now }
    ensures { IfOk result (λ pairs. ArePairs accesses.now points.now at (length accesses.now) pairs.items) }
{
    let mut known = Vec::new(alloc);
    for other in 0..accesses.len() {
        let races = is_pair(accesses, points, firsts, at, other, &known);
        known.push(races)?;
    }
    Ok(known)
}
