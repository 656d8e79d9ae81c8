//! What a state says of one cell.
ghost use Rattle.std.specs.Prelude.{◌≡◌, ◌↔◌, IsTrue, IfOk};

use std::alloc::Global;
use tm_lattice::{Lattice, NoMemory};

/// A cell's own value, the mutexes that are pending there, and whether it is fresh and stored.
#[derive(Drop)]
pub struct CellState<V: Lattice> {
    /// The own value.
    pub value: V,
    /// The pending mutexes, as bits.
    pub pending: u16,
    /// Whether the cell is fresh.
    pub fresh: bool,
    /// Whether the cell was stored since it was cleared.
    pub stored: bool,
}

impl<V: Lattice> Lattice for CellState<V> {
    ghost use Rattle.cell_env.specs.Cells.{IsCell, IsCellBelow, joined_cell, rounded_cell};
    ghost use Rattle.cell_env.specs.laws.CellLaws.{cell_order, cell_join, cell_closure, cell_nothing};

    type Marks = V::Marks;

    ghost is_value = { IsCell V.is_value };

    ghost is_marks = { V.is_marks };

    ghost leq = { IsCellBelow V.leq };

    ghost joined = { joined_cell V.joined };

    ghost rounded = { λ marks. rounded_cell (V.rounded marks) };

    ghost nothing = { λ c. ⊥ };

    fn is_nothing(&self) -> bool {
        let _own = self.value.is_nothing();
        false
    }

    fn below(&self, other: &Self) -> bool {
        self.pending | other.pending == other.pending
            && (self.fresh || !other.fresh)
            && (self.stored || !other.stored)
            && self.value.below(&other.value)
    }

    fn join(&self, alloc: Global, other: &Self) -> Result<Self, NoMemory> {
        Ok(CellState {
            value: self.value.join(alloc, &other.value)?,
            pending: self.pending | other.pending,
            fresh: self.fresh && other.fresh,
            stored: self.stored && other.stored,
        })
    }

    fn round(&self, alloc: Global, marks: &V::Marks) -> Result<Self, NoMemory> {
        Ok(CellState {
            value: self.value.round(alloc, marks)?,
            pending: self.pending,
            fresh: self.fresh,
            stored: self.stored,
        })
    }

    fn copied(&self, alloc: Global) -> Result<Self, NoMemory> {
        Ok(CellState {
            value: self.value.copied(alloc)?,
            pending: self.pending,
            fresh: self.fresh,
            stored: self.stored,
        })
    }

    ghost order = { cell_order V.is_value V.leq V.order };

    ghost join_laws = { cell_join V.is_value V.leq V.joined V.order V.join_laws };

    ghost closure = { cell_closure V.is_value V.is_marks V.leq V.rounded V.order V.closure };

    ghost nothing_laws = { cell_nothing V.is_value V.is_marks V.leq V.rounded };
}
