//! What tells with which accesses one races.
ghost use Rattle.std.specs.Prelude.{◌≡◌, ◌↔◌, Contains, IfOk};
ghost use Rattle.access_partners.specs.reading.Points.{point_of, IsPointOf, ArePointsOf, ArePointsBy};
ghost use Rattle.access_partners.specs.declared.points.Point.{Point as APoint};

use access_groups::Site;
use std::alloc::Global;
use tm_lattice::NoMemory;

/// A cell that an access reaches, the mutexes that its task has found free on the way there, and the priority of the
/// task.
#[derive(Clone, Copy, PartialEq, Eq, PartialOrd, Ord)]
pub(crate) struct Point {
    pub(crate) cell: u32,
    pub(crate) found: u16,
    pub(crate) priority: u8,
}

// The point that it reaches.
fn point_of(site: Site) -> Point
    ensures { result ≡ point_of site }
{
    Point {
        cell: site.access.cell,
        found: site.access.way.found,
        priority: site.access.way.priority,
    }
}

// The points that these reach, in their order.
fn all_points(alloc: Global, sites: &[Site]) -> Result<Vec<Point>, NoMemory>
    ensures { IfOk result (λ points. (q : APoint) → Contains points.items q ↔ IsPointOf sites.now q) }
{
    let mut points = Vec::new(alloc);
    for site in sites {
        points.push(point_of(*site))?;
    }
    Ok(points)
}

// The points that these reach, by their cells and each once.
fn points_of(alloc: Global, sites: &[Site]) -> Result<Vec<Point>, NoMemory>
    ensures { IfOk result (λ points. ArePointsOf sites.now points.items) }
{
    let mut points = all_points(alloc, sites)?;
    points.sort_unstable();
    points.dedup();
    Ok(points)
}

/// The points that each access reaches.
pub(crate) fn points_by_access(
    alloc: Global,
    lists: &[Vec<Site>],
) -> Result<Vec<Vec<Point>>, NoMemory>
    ensures { IfOk result (λ points. ArePointsBy lists.now points.items) }
{
    let mut points = Vec::new(alloc);
    for at in 0..lists.len() {
        let found = points_of(alloc, &lists[at])?;
        points.push(found)?;
    }
    Ok(points)
}
