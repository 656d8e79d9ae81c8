//! What makes each access of an object.
ghost use Rattle.std.specs.Prelude.{◌≡◌, ◌<◌, length, IfOk, OnOk, IfSome, IfNone};
ghost use Rattle.access_races.specs.Rising.{AreRising};
ghost use Rattle.access_groups.specs.Order.{IsBefore};
ghost use Rattle.access_groups.specs.reading.Sites.{access_of};
ghost use Rattle.access_partners.specs.reading.Accesses.{AreSitesBy};
ghost use Rattle.access_partners.specs.reading.Search.{before_by_kind, is_before, IsFirstNotBefore, IsIndex, HasNoIndex, AreEmpty, IsSiteAdded};

use access_groups::{ObjectAccess, Site, is_alike};
use std::alloc::Global;
use tm_lattice::NoMemory;

// The access of an object that it makes; whether that races is left open.
fn access_of(site: Site) -> ObjectAccess
    ensures { result ≡ access_of site }
{
    ObjectAccess {
        place: site.access.place,
        task: site.access.way.task,
        stores: site.access.way.writes,
        held: site.access.way.held,
        free: site.access.way.found,
        racing: false,
    }
}

// The same by their kinds and the mutexes that are held, where all else is the same: a load comes before a store.
fn is_before_by_kind(one: ObjectAccess, other: ObjectAccess) -> bool
    ensures { result ≡ before_by_kind one other }
{
    !one.stores && other.stores
        || (one.stores && other.stores || !one.stores && !other.stores) && one.held < other.held
}

// Whether one comes before the other in the list of an object's accesses.
fn is_before(one: ObjectAccess, other: ObjectAccess) -> bool
    ensures { result ≡ is_before one other }
{
    one.place.line < other.place.line
        || one.place.line == other.place.line
            && (one.place.col < other.place.col
                || one.place.col == other.place.col
                    && (one.task < other.task
                        || one.task == other.task && is_before_by_kind(one, other)))
}

// How many come before it, by halving.
fn first_not_before(accesses: &[ObjectAccess], access: ObjectAccess) -> usize
    requires { AreRising IsBefore accesses.now }
    ensures { IsFirstNotBefore accesses.now access result }
{
    let mut low = 0;
    let mut high = accesses.len();
    while low < high {
        let middle = low + (high - low) / 2;
        if is_before(accesses[middle], access) {
            low = middle + 1;
        } else {
            high = middle;
        }
    }
    low
}

// The number of the first that does not come before it, if that is alike; else none is.
fn index_at(accesses: &[ObjectAccess], access: ObjectAccess, first: usize) -> Option<usize>
    requires rising { AreRising IsBefore accesses.now }
    requires first { IsFirstNotBefore accesses.now access first }
    requires within { first < length accesses.now }
    ensures found { IfSome result (λ n. IsIndex accesses.now access n) }
    ensures absent { IfNone result (HasNoIndex accesses.now access) }
{
    if is_alike(accesses[first], access) {
        return Some(first);
    }
    None
}

// The number of the one that is alike, if there is one.
fn index_of(accesses: &[ObjectAccess], access: ObjectAccess) -> Option<usize>
    requires { AreRising IsBefore accesses.now }
    ensures found { IfSome result (λ n. IsIndex accesses.now access n) }
    ensures absent { IfNone result (HasNoIndex accesses.now access) }
{
    let first = first_not_before(accesses, access);
    let is_there = first < accesses.len();
    if is_there {
        return index_at(accesses, access, first);
    }
    None
}

// This many empty lists.
fn empty_lists(alloc: Global, count: usize) -> Result<Vec<Vec<Site>>, NoMemory>
    ensures { IfOk result (λ lists. AreEmpty lists.items count) }
{
    let mut lists = Vec::new(alloc);
    for _ in 0..count {
        lists.push(Vec::new(alloc))?;
    }
    Ok(lists)
}

// Puts it behind those of its access.
fn add_site(
    accesses: &[ObjectAccess],
    site: Site,
    lists: &mut Vec<Vec<Site>>,
) -> Result<(), NoMemory>
    requires rising { AreRising IsBefore accesses.now }
    requires count { length lists.old.items ≡ length accesses.now }
    ensures { OnOk result (IsSiteAdded accesses.now site lists.old.items lists.new.items) }
{
    let Some(at) = index_of(accesses, access_of(site)) else {
        return Ok(());
    };
    lists[at].push(site)?;
    Ok(())
}

/// What makes each of an object's accesses, of these: a list for each.
pub(crate) fn sites_by_access(
    alloc: Global,
    accesses: &[ObjectAccess],
    sites: &[Site],
) -> Result<Vec<Vec<Site>>, NoMemory>
    requires { AreRising IsBefore accesses.now }
    ensures { IfOk result (λ lists. AreSitesBy accesses.now sites.now lists.items) }
{
    let mut lists = empty_lists(alloc, accesses.len())?;
    for site in sites {
        add_site(accesses, *site, &mut lists)?;
    }
    Ok(lists)
}
