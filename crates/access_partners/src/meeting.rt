//! Whether two accesses of an object race.
ghost use Rattle.std.specs.Prelude.{◌≡◌, ◌↔◌, IsTrue};
ghost use Rattle.access_partners.specs.reading.Points.{way_at, AreByCells, IsFirstFrom, Meets, DoMeet, may_race};

use crate::points::Point;
use access_groups::ObjectAccess;
use access_races::{Way, do_race};

// The way in which an access reaches a point.
fn way_at(access: ObjectAccess, point: Point) -> Way
    ensures { result ≡ way_at access point }
{
    Way {
        task: access.task,
        priority: point.priority,
        held: access.held,
        found: point.found,
        writes: access.stores,
    }
}

// How many points have cells below this one, by halving.
fn first_from(points: &[Point], cell: u32) -> usize
    requires { AreByCells points.now }
    ensures { IsFirstFrom points.now cell result }
{
    let mut low = 0;
    let mut high = points.len();
    while low < high {
        let middle = low + (high - low) / 2;
        if points[middle].cell < cell {
            low = middle + 1;
        } else {
            high = middle;
        }
    }
    low
}

// Whether an access to the cell in this way races with the other one.
fn meets(way: Way, cell: u32, other: ObjectAccess, points: &[Point]) -> bool
    requires { AreByCells points.now }
    ensures { IsTrue result ↔ Meets way cell other points.now }
{
    let first = first_from(points, cell);
    for at in first..points.len() {
        let point = points[at];
        if point.cell != cell {
            return false;
        }
        if do_race(way, way_at(other, point)) {
            return true;
        }
    }
    false
}

// Whether one of the points of an access races with one of those of the other one.
fn do_points_meet(
    one: ObjectAccess,
    one_points: &[Point],
    other: ObjectAccess,
    other_points: &[Point],
) -> bool
    requires { AreByCells other_points.now }
    ensures { IsTrue result ↔ DoMeet one one_points.now other other_points.now }
{
    for point in one_points {
        if meets(way_at(one, *point), point.cell, other, other_points) {
            return true;
        }
    }
    false
}

// Whether they race as far as their tasks, their kinds and the mutexes that are held tell.
fn may_race(one: ObjectAccess, other: ObjectAccess) -> bool
    ensures { result ≡ may_race one other }
{
    one.task != other.task && (one.stores || other.stores) && one.held & other.held == 0
}

// The same as `do_points_meet`: the shorter list is gone through, and the longer one is searched.
fn do_shorter_meet(
    one: ObjectAccess,
    one_points: &[Point],
    other: ObjectAccess,
    other_points: &[Point],
) -> bool
    requires one { AreByCells one_points.now }
    requires other { AreByCells other_points.now }
    ensures { IsTrue result ↔ DoMeet one one_points.now other other_points.now }
{
    let is_longer = other_points.len() < one_points.len();
    if is_longer {
        return do_points_meet(other, other_points, one, one_points);
    }
    do_points_meet(one, one_points, other, other_points)
}

/// Whether two accesses that reach these points race.
pub(crate) fn do_meet(
    one: ObjectAccess,
    one_points: &[Point],
    other: ObjectAccess,
    other_points: &[Point],
) -> bool
    requires one { AreByCells one_points.now }
    requires other { AreByCells other_points.now }
    ensures { IsTrue result ↔ DoMeet one one_points.now other other_points.now }
{
    if may_race(one, other) {
        return do_shorter_meet(one, one_points, other, other_points);
    }
    false
}
