//! The accesses that race.
ghost use Rattle.std.specs.Prelude.{◌≡◌, ◌⊎◌, ◌↔◌, Contains, IfOk, OnOk};
ghost use Rattle.access_groups.specs.declared.site.Site.{Site as ASite};
ghost use Rattle.access_partners.specs.reading.Accesses.{IsRacingAmong, IsRacingSite};

use access_groups::Site;
use access_races::{Way, is_racing};
use std::alloc::Global;
use tm_lattice::NoMemory;

// Adds an access to those that race, if it does.
fn add_racing(ways: &[Vec<Way>], site: Site, racing: &mut Vec<Site>) -> Result<(), NoMemory>
    ensures { OnOk result ((x : ASite) → Contains racing.new.items x
        ↔ (Contains racing.old.items x ⊎ (IsRacingAmong ways.now site × (x ≡ site)))) }
{
    if is_racing(ways, site.access) {
        racing.push(site)?;
        return Ok(());
    }
    Ok(())
}

/// Those accesses that race, where these are the ways in which each cell is accessed.
pub(crate) fn racing_sites(
    alloc: Global,
    ways: &[Vec<Way>],
    sites: &[Site],
) -> Result<Vec<Site>, NoMemory>
    ensures { IfOk result (λ racing. (x : ASite) → Contains racing.items x ↔ IsRacingSite ways.now sites.now x) }
{
    let mut racing = Vec::new(alloc);
    for site in sites {
        add_racing(ways, *site, &mut racing)?;
    }
    Ok(racing)
}
