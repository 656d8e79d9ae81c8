//! Which edges access which cells.
ghost use Rattle.std.specs.Prelude.{◌≡◌, ◌↔◌, Contains, IfOk, IsTrue};
ghost use Rattle.operand_orders.specs.declared.pairs.Pair.{Pair as APair};
ghost use Rattle.operand_orders.specs.Reached.{IsWithin};
ghost use Rattle.operand_orders.specs.reading.Touches.{AreAccesses, IsInOrder, HasAccess, IsTouched};

use crate::pairs::{Pair, all_swapped, between, has_between, in_order};
use path_origins::Span;
use std::alloc::Global;
use tm_lattice::NoMemory;

/// Accesses of one kind, each once: pairs of an edge and a cell, and of a cell and an edge.
pub(crate) struct Accesses {
    by_edge: Vec<Pair>,
    by_cell: Vec<Pair>,
}

// By hand: a function that lets one go calls this, and its check does not go through the fields.
impl Drop for Accesses {
    fn drop(self) {
        let Accesses {
            by_edge: _by_edge,
            by_cell: _by_cell,
        } = self;
    }
}

/// Accesses, given as pairs of an edge and a cell.
pub(crate) fn accesses_of(alloc: Global, pairs: Vec<Pair>) -> Result<Accesses, NoMemory>
    ensures { IfOk result (λ made. AreAccesses pairs.items made) }
{
    let by_edge = in_order(pairs);
    let others = all_swapped(alloc, &by_edge)?;
    let by_cell = in_order(others);
    Ok(Accesses { by_edge, by_cell })
}

impl Accesses {
    /// All of them, each a pair of an edge and a cell.
    pub(crate) fn all(&self) -> &[Pair]
        ensures { result.now ≡ self.now.by_edge.items }
    {
        &self.by_edge
    }

    /// Those of the edges of a span, each a pair of an edge and a cell.
    pub(crate) fn within(&self, span: Span) -> &[Pair]
        requires { IsInOrder self.now }
        ensures { (p : APair) → Contains result.now p ↔ (Contains self.now.by_edge.items p × IsWithin p.first span) }
    {
        between(&self.by_edge, span.first as usize, span.end as usize)
    }

    /// Whether an edge of a span accesses a cell.
    pub(crate) fn has(&self, span: Span, cell: u32) -> bool
        requires { IsInOrder self.now }
        ensures { IsTrue result ↔ IsTouched self.now span cell }
    {
        has_between(&self.by_cell, cell, span.first as usize, span.end as usize)
    }

    /// Those of an edge, each a pair of the edge and a cell.
    pub(crate) fn of_edge(&self, edge: u32) -> &[Pair]
        requires { IsInOrder self.now }
        ensures { (p : APair) → Contains result.now p ↔ (Contains self.now.by_edge.items p × (p.first ≡ edge)) }
    {
        between(&self.by_edge, edge as usize, edge as usize + 1)
    }

    /// Whether an edge accesses a cell.
    pub(crate) fn has_at(&self, edge: u32, cell: u32) -> bool
        requires { IsInOrder self.now }
        ensures { IsTrue result ↔ HasAccess self.now edge cell }
    {
        has_between(&self.by_cell, cell, edge as usize, edge as usize + 1)
    }
}
