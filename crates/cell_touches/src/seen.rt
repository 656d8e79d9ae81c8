//! Which objects and cells a body sees: those of static storage and those on its own call paths.
ghost use Rattle.std.specs.Prelude.{◌≡◌, ℕ, IsTrue, true, IfOk};
ghost use Rattle.tm_laid.specs.Layouts.{laid_tree};
ghost use Rattle.edge_actions.specs.Layouts.{is_reachable};
ghost use Rattle.cell_placings.specs.CellLists.{is_in};
ghost use Rattle.cell_touches.specs.Touches.{Sees};

use cell_placings::CellSet;
use std::alloc::Global;
use tm_laid::{Laid, object_at, path_at};
use tm_lattice::NoMemory;

/// Whether an object has static storage or is on a call path of the body.
pub(crate) fn is_reachable(laid: &Laid, body: usize, object: u32) -> bool
    ensures { result ≡ is_reachable (laid_tree laid.now) body object }
{
    match object_at(laid, object).owner {
        None => true,
        Some(path) => path_at(laid, path).body as usize == body,
    }
}

// Whether there is such a cell, and the body sees it.
fn is_seen(laid: &Laid, body: usize, cell: usize) -> bool
    ensures { IsTrue result → Sees (laid_tree laid.now) body cell }
{
    match laid.abstract_cells.get(cell) {
        None => false,
        Some(entry) => is_reachable(laid, body, entry.object),
    }
}

/// Those of some cells that the body sees.
pub(crate) fn seen_among(
    alloc: Global,
    laid: &Laid,
    body: usize,
    cells: &[usize],
) -> Result<CellSet, NoMemory>
    ensures { IfOk result (λ set. (x : ℕ) → is_in set x ≡ true → Sees (laid_tree laid.now) body x) }
{
    let mut seen = Vec::new(alloc);
    for cell in cells {
        if is_seen(laid, body, *cell) {
            seen.push(*cell)?;
        }
    }
    Ok(CellSet::from_cells(seen))
}
