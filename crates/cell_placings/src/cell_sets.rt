//! Sets of cells.
ghost use Rattle.std.specs.Prelude.{◌≡◌, ℕ, []};
ghost use Rattle.std.specs.List.Sorted.{IsStrictlyIncreasing};
ghost use Rattle.cell_placings.specs.CellLists.{is_in};

use std::alloc::Global;
use std::marker::Model;

/// Some cells, by number: each once, in rising order.
#[derive(Drop)]
pub struct CellSet {
    cells: Vec<usize>,
}

impl Model for CellSet {
    ghost use Rattle.std.specs.Prelude.{List, ℕ};
    ghost use Rattle.std.specs.List.Sorted.{IsStrictlyIncreasing};

    ghost Value = { List ℕ };

    ghost view = { λ set. set.cells.items };

    ghost invariant = { λ set. IsStrictlyIncreasing set.cells.items };
}

impl CellSet {
    /// No cell.
    pub fn new(alloc: Global) -> CellSet
        ensures { result ≡ [] }
    {
        CellSet {
            cells: Vec::new(alloc),
        }
    }

    /// The cells of a list, in whatever order and however often they stand there.
    pub fn from_cells(mut cells: Vec<usize>) -> CellSet
        ensures { (x : ℕ) → is_in result x ≡ is_in cells.items x }
    {
        cells.sort_unstable();
        cells.dedup();
        CellSet { cells }
    }

    /// The cells in rising order.
    pub fn cells(&self) -> &[usize]
        ensures same { result.now ≡ self.now }
        ensures rising { IsStrictlyIncreasing self.now }
    {
        self.cells.as_slice()
    }

    /// Whether it has a cell. It takes time logarithmic in the number of its cells.
    pub fn has(&self, cell: usize) -> bool
        ensures { result ≡ is_in self.now cell }
    {
        self.cells.binary_search(&cell).is_ok()
    }
}
