//! The cells that count and that a node owns.
ghost use Rattle.std.specs.Prelude.{◌≡◌, ◌<◌, ◌&&◌, ℕ, length, true, IfOk};
ghost use Rattle.cell_placings.specs.CellLists.{is_in};
ghost use Rattle.cell_placings.specs.OwnerTrees.{owns_in};

use cell_placings::{CellPlacing, CellSet};
use std::alloc::Global;
use tm_lattice::NoMemory;

/// The cells that count and that the node owns.
pub fn own_cells(
    alloc: Global,
    placing: &CellPlacing,
    cells: &CellSet,
    node: usize,
) -> Result<CellSet, NoMemory>
    requires node { node < length placing.now.above }
    requires counted { (x : ℕ) → is_in cells.now x ≡ true → x < placing.now.cells }
    ensures { IfOk result (λ own. (x : ℕ) → is_in own x ≡ (is_in cells.now x && owns_in placing.now node x)) }
{
    if node == 0 {
        return Ok(counted_cells(alloc, cells.cells(), cells)?);
    }
    Ok(counted_cells(alloc, placing.owned(node), cells)?)
}

// Those of these cells that count.
fn counted_cells(alloc: Global, listed: &[usize], cells: &CellSet) -> Result<CellSet, NoMemory>
    ensures { IfOk result (λ counted. (x : ℕ) → is_in counted x ≡ (is_in listed.now x && is_in cells.now x)) }
{
    let mut counted = Vec::new(alloc);
    for cell in listed {
        if cells.has(*cell) {
            counted.push(*cell)?;
        }
    }
    Ok(CellSet::from_cells(counted))
}
