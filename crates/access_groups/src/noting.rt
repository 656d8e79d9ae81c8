//! What is noted of accesses, object by object.
ghost use Rattle.std.specs.Prelude.{◌≡◌, ◌≤◌, ◌^◌, ◌⊎◌, ◌↔◌, ℕ, length, Contains, IfOk, OnOk};
ghost use Rattle.tm_laid.specs.Layouts.{laid_tree};
ghost use Rattle.access_races.specs.reading.Ways.{list_at};
ghost use Rattle.access_groups.specs.declared.object_access.ObjectAccess.{ObjectAccess as AnObjectAccess};
ghost use Rattle.access_groups.specs.reading.Noted.{IsNotedAs, IsNotedIn};

use crate::object_access::ObjectAccess;
use crate::site::Site;
use access_races::{Access, Way, is_racing, make_room};
use std::alloc::Global;
use tm_laid::{Laid, abstract_at};
use tm_lattice::NoMemory;

// What is noted of an access.
fn noted(ways: &[Vec<Way>], access: Access) -> ObjectAccess
    ensures { IsNotedAs ways.now access result }
{
    ObjectAccess {
        place: access.place,
        task: access.way.task,
        stores: access.way.writes,
        held: access.way.held,
        free: access.way.found,
        racing: is_racing(ways, access),
    }
}

// Puts it behind what is noted of an object.
fn push_noted(
    alloc: Global,
    lists: &mut Vec<Vec<ObjectAccess>>,
    object: u32,
    access: ObjectAccess,
) -> Result<(), NoMemory>
    requires { length lists.old.items ≤ 2 ^ 32 }
    ensures small { OnOk result (length lists.new.items ≤ 2 ^ 32) }
    ensures added { OnOk result ((o : ℕ) (e : AnObjectAccess) → Contains (list_at lists.new.items o) e
        ↔ (Contains (list_at lists.old.items o) e ⊎ ((o ≡ object) × (e ≡ access)))) }
{
    make_room(alloc, lists, object)?;
    lists[object as usize].push(access)?;
    Ok(())
}

/// What is noted of the accesses to each object, by the number of the object.
pub(crate) fn noted_by_object(
    alloc: Global,
    laid: &Laid,
    ways: &[Vec<Way>],
    sites: &[Site],
) -> Result<Vec<Vec<ObjectAccess>>, NoMemory>
    ensures small { IfOk result (λ lists. length lists.items ≤ 2 ^ 32) }
    ensures exact { IfOk result (λ lists. (o : ℕ) (e : AnObjectAccess) → Contains (list_at lists.items o) e
        ↔ IsNotedIn ways.now (laid_tree laid.now) sites.now o e) }
{
    let mut lists = Vec::new(alloc);
    for site in sites {
        let object = abstract_at(laid, site.access.cell).object;
        push_noted(alloc, &mut lists, object, noted(ways, site.access))?;
    }
    Ok(lists)
}
