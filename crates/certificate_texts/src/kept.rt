//! The lines of cells that were written last.
ghost use Rattle.std.specs.Prelude.{◌≡◌, ◌↔◌, [], IsTrue, IfOk, OnOk};
ghost use Rattle.certificate_texts.specs.reading.CellLines.{cells_lines};
ghost use Rattle.certificate_texts.specs.reading.Cuts.{with_lines};

use crate::pages::Page;
use cell_env::CellState;
use pointer_dom::AbsValue;
use state_tree::Tree;
use std::alloc::Global;
use tm_lattice::{Lattice, NoMemory};

/// Cells, and the text of their lines, as far as the limit.
#[derive(Drop)]
pub(crate) struct Kept {
    pub(crate) cells: Tree<CellState<AbsValue>>,
    pub(crate) text: Vec<u8>,
    pub ghost told: { text.items ≡ with_lines [] (cells_lines cells) },
}

// Whether two values are the same.
fn are_same<V: Lattice>(one: &V, other: &V) -> bool
    ensures { IsTrue result ↔ (one.now ≡ other.now) }
{
    // The calls tell that both are values.
    let _one = one.is_nothing();
    let _other = other.is_nothing();
    if !one.below(other) {
        return false;
    }
    other.below(one)
}

impl Kept {
    /// No cells, which have no lines.
    pub(crate) fn new(alloc: Global) -> Kept {
        Kept {
            cells: Tree::new(alloc),
            text: Vec::new(alloc),
        }
    }

    // These cells.
    fn of(alloc: Global, cells: &Tree<CellState<AbsValue>>) -> Result<Kept, NoMemory>
        ensures { IfOk result (λ kept. kept.cells ≡ cells.now) }
    {
        let mut page = Page::new(alloc);
        page.push_cells(cells)?;
        Ok(Kept {
            cells: cells.shared()?,
            text: page.text,
        })
    }

    /// Turns to these cells. Where they are the same, nothing is written anew.
    pub(crate) fn turn_to(&mut self, cells: &Tree<CellState<AbsValue>>) -> Result<(), NoMemory>
        ensures { OnOk result (self.new.cells ≡ cells.now) }
    {
        if are_same(&self.cells, cells) {
            return Ok(());
        }
        *self = Kept::of(*self.text.allocator(), cells)?;
        Ok(())
    }
}
