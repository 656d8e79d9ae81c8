//! What is told of the accesses of groups.
ghost use Rattle.std.specs.Prelude.{◌≡◌, length, All, IfOk};
ghost use Rattle.access_groups.specs.declared.object_access.AccessGroup.{AccessGroup as AGroup};
ghost use Rattle.access_races.specs.Rising.{AreRising};
ghost use Rattle.access_groups.specs.Order.{IsBefore};
ghost use Rattle.access_partners.specs.Lists.{AreEach};
ghost use Rattle.access_partners.specs.reading.Found.{AreListedDetails, AreFound, AreFoundOf};

use crate::access_sites::sites_by_access;
use crate::details::{AccessDetails, details_of};
use crate::partners::{Partners, partners_by_access};
use crate::points::points_by_access;
use access_groups::{AccessGroup, ObjectAccess, Site};
use access_races::Way;
use std::alloc::Global;
use tm_lattice::NoMemory;

// What is told of accesses that are made so and have these partners.
fn listed(
    alloc: Global,
    ways: &[Vec<Way>],
    lists: &[Vec<Site>],
    partners: &[Partners],
) -> Result<Vec<AccessDetails>, NoMemory>
    requires { length partners.now ≡ length lists.now }
    ensures { IfOk result (λ details. AreListedDetails ways.now lists.now partners.now (length lists.now) details.items) }
{
    let mut details = Vec::new(alloc);
    for at in 0..lists.len() {
        let told = details_of(alloc, ways, &lists[at], &partners[at])?;
        details.push(told)?;
    }
    Ok(details)
}

// What is told of an object's accesses, where these are all that reach its cells.
fn object_details(
    alloc: Global,
    ways: &[Vec<Way>],
    accesses: &[ObjectAccess],
    sites: &[Site],
) -> Result<Vec<AccessDetails>, NoMemory>
    requires { AreRising IsBefore accesses.now }
    ensures { IfOk result (λ details. AreFound ways.now accesses.now sites.now details.items) }
{
    let lists = sites_by_access(alloc, accesses, sites)?;
    let points = points_by_access(alloc, &lists)?;
    let partners = partners_by_access(alloc, accesses, &points)?;
    listed(alloc, ways, &lists, &partners)
}

// The same, where these are the accesses to each object.
fn group_details(
    alloc: Global,
    ways: &[Vec<Way>],
    by_object: &[Vec<Site>],
    group: &AccessGroup,
) -> Result<Vec<AccessDetails>, NoMemory>
    requires { AreRising IsBefore group.now.accesses.items }
    ensures { IfOk result (λ details. AreFoundOf ways.now by_object.now group.now details) }
{
    let object = group.object as usize;
    let is_there = object < by_object.len();
    if is_there {
        return object_details(alloc, ways, &group.accesses, &by_object[object]);
    }
    let none = Vec::new(alloc);
    object_details(alloc, ways, &group.accesses, &none)
}

/// What is told of the accesses of each group, where these are all accesses of tasks.
pub(crate) fn all_details(
    alloc: Global,
    ways: &[Vec<Way>],
    by_object: &[Vec<Site>],
    groups: &[AccessGroup],
) -> Result<Vec<Vec<AccessDetails>>, NoMemory>
    requires { All (λ (g : AGroup). AreRising IsBefore g.accesses.items) groups.now }
    ensures { IfOk result (λ details. AreEach (AreFoundOf ways.now by_object.now) groups.now details.items) }
{
    let mut details = Vec::new(alloc);
    for at in 0..groups.len() {
        let told = group_details(alloc, ways, by_object, &groups[at])?;
        details.push(told)?;
    }
    Ok(details)
}
