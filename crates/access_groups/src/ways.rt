//! The ways in which cells are accessed.
ghost use Rattle.std.specs.Prelude.{◌↔◌, ℕ, Contains, IfOk};
ghost use Rattle.access_races.specs.declared.accesses.Way.{Way as AWay};
ghost use Rattle.access_races.specs.reading.Ways.{list_at};
ghost use Rattle.access_groups.specs.reading.Sites.{IsWayOfSite};

use crate::site::Site;
use access_races::{Way, add_way};
use std::alloc::Global;
use tm_lattice::NoMemory;

/// The ways in which each cell is accessed, by the number of the cell.
pub fn ways_by_cell(alloc: Global, sites: &[Site]) -> Result<Vec<Vec<Way>>, NoMemory>
    ensures { IfOk result (λ ways. (c : ℕ) (w : AWay) → Contains (list_at ways.items c) w
        ↔ IsWayOfSite sites.now c w) }
{
    let mut ways = Vec::new(alloc);
    for site in sites {
        add_way(alloc, &mut ways, site.access)?;
    }
    Ok(ways)
}
