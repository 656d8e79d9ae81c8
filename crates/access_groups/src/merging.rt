//! The accesses of an object in order, each once.
ghost use Rattle.std.specs.Prelude.{◌≡◌, ◌↔◌, IfOk, OnOk, IsTrue};
ghost use Rattle.access_groups.specs.Order.{sort_key};
ghost use Rattle.access_groups.specs.reading.Merging.{joined, IsAdded, IsSorting, AreMerged, HasRacing};

use crate::object_access::ObjectAccess;
use std::alloc::Global;
use tm_lattice::NoMemory;

/// Whether two stand at one place, and are of one task, of one kind and under the same mutexes.
pub fn is_alike(one: ObjectAccess, other: ObjectAccess) -> bool
    ensures { IsTrue result ↔ (sort_key one ≡ sort_key other) }
{
    one.place == other.place
        && one.task == other.task
        && one.stores == other.stores
        && one.held == other.held
}

// Both as one: free is what both have found free, and one of them races.
fn joined(one: ObjectAccess, other: ObjectAccess) -> ObjectAccess
    ensures { result ≡ joined one other }
{
    ObjectAccess {
        place: one.place,
        task: one.task,
        stores: one.stores,
        held: one.held,
        free: one.free & other.free,
        racing: one.racing || other.racing,
    }
}

// Joins it with the last one, where they are alike; else puts it behind.
fn add(merged: &mut Vec<ObjectAccess>, access: ObjectAccess) -> Result<(), NoMemory>
    ensures { OnOk result (IsAdded merged.old.items access merged.new.items) }
{
    let Some(last) = merged.pop() else {
        merged.push(access)?;
        return Ok(());
    };
    if is_alike(last, access) {
        merged.push(joined(last, access))?;
        return Ok(());
    }
    merged.push(last)?;
    merged.push(access)?;
    Ok(())
}

// The same ones in order.
fn sorted(alloc: Global, noted: &[ObjectAccess]) -> Result<Vec<ObjectAccess>, NoMemory>
    ensures { IfOk result (λ list. IsSorting noted.now list.items) }
{
    let mut list = noted.to_vec(alloc)?;
    list.sort()?;
    Ok(list)
}

/// In order, and those that are alike as one.
pub(crate) fn merged(alloc: Global, noted: &[ObjectAccess]) -> Result<Vec<ObjectAccess>, NoMemory>
    ensures { IfOk result (λ list. AreMerged noted.now list.items) }
{
    let ranked = sorted(alloc, noted)?;
    let mut merged = Vec::new(alloc);
    for access in ranked.iter() {
        add(&mut merged, *access)?;
    }
    Ok(merged)
}

/// Whether one of them races.
pub(crate) fn has_racing(accesses: &[ObjectAccess]) -> bool
    ensures { IsTrue result ↔ HasRacing accesses.now }
{
    for access in accesses {
        if access.racing {
            return true;
        }
    }
    false
}
