//! What is told of an access of an object that has races.
ghost use Rattle.std.specs.Prelude.{◌≡◌, IfOk};
ghost use Rattle.access_partners.specs.reading.Accesses.{AreSiteDetails};

use crate::numbers::{cells_of, edges_of};
use crate::partners::Partners;
use crate::ways::racing_sites;
use access_groups::{ObjectAccess, Site};
use access_races::Way;
use std::alloc::Global;
use tm_lattice::NoMemory;

/// What an access of an object reaches, where it races, and with which accesses of the object.
#[derive(Drop)]
pub struct AccessDetails {
    /// The numbers of the abstract cells that it reaches, rising.
    pub cells: Vec<u32>,
    /// Those at which it races, rising.
    pub racing: Vec<u32>,
    /// The numbers of the edges of its task's graph at which it races, rising, each once.
    pub edges: Vec<usize>,
    /// With how many accesses of its group it races.
    pub partner_count: usize,
    /// The first eight of these, in the order of the group.
    pub partners: Vec<ObjectAccess>,
}

/// What is told of the access that makes these, where these are the ways in which each cell is accessed, and these its
/// partners.
pub(crate) fn details_of(
    alloc: Global,
    ways: &[Vec<Way>],
    sites: &[Site],
    partners: &Partners,
) -> Result<AccessDetails, NoMemory>
    ensures found { IfOk result (λ d. AreSiteDetails ways.now sites.now d) }
    ensures count { IfOk result (λ d. d.partner_count ≡ partners.now.count) }
    ensures shown { IfOk result (λ d. d.partners.items ≡ partners.now.shown.items) }
{
    let cells = cells_of(alloc, sites)?;
    let racing_sites = racing_sites(alloc, ways, sites)?;
    let racing = cells_of(alloc, &racing_sites)?;
    let edges = edges_of(alloc, &racing_sites)?;
    let shown = partners.shown.to_vec(alloc)?;
    Ok(AccessDetails {
        cells,
        racing,
        edges,
        partner_count: partners.count,
        partners: shown,
    })
}
