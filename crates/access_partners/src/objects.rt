//! The accesses to each object.
ghost use Rattle.std.specs.Prelude.{◌≡◌, ◌≤◌, ◌^◌, ◌⊎◌, ◌↔◌, ℕ, length, Contains, IfOk, OnOk};
ghost use Rattle.tm_laid.specs.Layouts.{laid_tree};
ghost use Rattle.access_races.specs.reading.Ways.{list_at};
ghost use Rattle.access_groups.specs.declared.site.Site.{Site as ASite};
ghost use Rattle.access_partners.specs.reading.Accesses.{IsSiteTo};

use access_groups::Site;
use access_races::make_room;
use std::alloc::Global;
use tm_laid::{Laid, abstract_at};
use tm_lattice::NoMemory;

// Puts an access behind those to an object.
fn push_site(
    alloc: Global,
    lists: &mut Vec<Vec<Site>>,
    object: u32,
    site: Site,
) -> Result<(), NoMemory>
    requires { length lists.old.items ≤ 2 ^ 32 }
    ensures small { OnOk result (length lists.new.items ≤ 2 ^ 32) }
    ensures added { OnOk result ((o : ℕ) (x : ASite) → Contains (list_at lists.new.items o) x
        ↔ (Contains (list_at lists.old.items o) x ⊎ ((o ≡ object) × (x ≡ site)))) }
{
    make_room(alloc, lists, object)?;
    lists[object as usize].push(site)?;
    Ok(())
}

/// The accesses to each object, by the number of the object.
pub(crate) fn sites_by_object(
    alloc: Global,
    laid: &Laid,
    sites: &[Site],
) -> Result<Vec<Vec<Site>>, NoMemory>
    ensures { IfOk result (λ lists. (o : ℕ) (x : ASite) → Contains (list_at lists.items o) x
        ↔ IsSiteTo sites.now (laid_tree laid.now) o x) }
{
    let mut lists = Vec::new(alloc);
    for site in sites {
        let object = abstract_at(laid, site.access.cell).object;
        push_site(alloc, &mut lists, object, *site)?;
    }
    Ok(lists)
}
