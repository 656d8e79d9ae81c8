//! Numbers of cells and of edges, rising and each once.
ghost use Rattle.std.specs.Prelude.{◌↔◌, ℕ, Contains, IfOk};
ghost use Rattle.access_partners.specs.Lists.{AreListed};
ghost use Rattle.access_partners.specs.reading.Accesses.{IsCellOf, IsEdgeOf};

use access_groups::Site;
use std::alloc::Global;
use tm_lattice::NoMemory;

// The cells of accesses, in the order of these.
fn all_cells(alloc: Global, sites: &[Site]) -> Result<Vec<u32>, NoMemory>
    ensures { IfOk result (λ cells. (c : ℕ) → Contains cells.items c ↔ IsCellOf sites.now c) }
{
    let mut cells = Vec::new(alloc);
    for site in sites {
        cells.push(site.access.cell)?;
    }
    Ok(cells)
}

/// The cells of accesses, rising and each once.
pub(crate) fn cells_of(alloc: Global, sites: &[Site]) -> Result<Vec<u32>, NoMemory>
    ensures { IfOk result (λ cells. AreListed (IsCellOf sites.now) cells.items) }
{
    let mut cells = all_cells(alloc, sites)?;
    cells.sort_unstable();
    cells.dedup();
    Ok(cells)
}

// The edges of accesses, in the order of these.
fn all_edges(alloc: Global, sites: &[Site]) -> Result<Vec<usize>, NoMemory>
    ensures { IfOk result (λ edges. (n : ℕ) → Contains edges.items n ↔ IsEdgeOf sites.now n) }
{
    let mut edges = Vec::new(alloc);
    for site in sites {
        edges.push(site.edge)?;
    }
    Ok(edges)
}

/// The edges of accesses, rising and each once.
pub(crate) fn edges_of(alloc: Global, sites: &[Site]) -> Result<Vec<usize>, NoMemory>
    ensures { IfOk result (λ edges. AreListed (IsEdgeOf sites.now) edges.items) }
{
    let mut edges = all_edges(alloc, sites)?;
    edges.sort_unstable();
    edges.dedup();
    Ok(edges)
}
