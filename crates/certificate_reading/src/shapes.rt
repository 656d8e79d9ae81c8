//! What a reader of states asks of a body again and again.
ghost use Rattle.std.specs.Prelude.{◌≡◌, ℕ, ◌+◌, ◌<◌, ◌≤◌, length, IfOk, OnOk};
ghost use Rattle.tm_laid.specs.Layouts.{laid_tree};
ghost use Rattle.edge_actions.specs.Layouts.{is_reachable};
ghost use Rattle.certificate_reading.specs.reading.Shapes.{IsShape, IsShapeBefore};

use crate::entries::file_set;
use edge_actions::{is_reachable, is_shared_cell};
use std::alloc::Global;
use temporary_extents::{Extent, scalar_extent};
use tm_laid::Laid;
use tm_lattice::NoMemory;

/// The cells that a body sees, those of them that are shared and the others, each by rising numbers; what each abstract
/// cell may hold, and whether the body sees it, by its number; and the set of all mutexes of the file, as bits.
#[derive(Drop)]
pub(crate) struct Shape {
    pub(crate) kinds: Vec<Extent>,
    pub(crate) seen: Vec<u32>,
    pub(crate) shared: Vec<u32>,
    pub(crate) local: Vec<u32>,
    pub(crate) marks: Vec<bool>,
    pub(crate) mask: u16,
}

impl Shape {
    /// That of no cell.
    fn new(alloc: Global, laid: &Laid) -> Shape
        ensures { (task : ℕ) → IsShapeBefore (laid_tree laid.now) task 0 result }
    {
        Shape {
            kinds: Vec::new(alloc),
            seen: Vec::new(alloc),
            shared: Vec::new(alloc),
            local: Vec::new(alloc),
            marks: Vec::new(alloc),
            mask: file_set(laid) as u16,
        }
    }

    /// Adds the next cell.
    fn push(&mut self, laid: &Laid, task: u32, cell: u32) -> Result<(), NoMemory>
        requires cell { cell < length laid.now.abstract_cells.items }
        requires before { IsShapeBefore (laid_tree laid.now) task cell self.old }
        ensures { OnOk result (IsShapeBefore (laid_tree laid.now) task (cell + 1) self.new) }
    {
        let of = laid.abstract_cells[cell as usize];
        let seen = is_reachable(laid, task, of.object);
        self.kinds.push(scalar_extent(of.scalar))?;
        self.marks.push(seen)?;
        if !seen {
            return Ok(());
        }
        self.seen.push(cell)?;
        if is_shared_cell(laid, cell) {
            self.shared.push(cell)?;
            return Ok(());
        }
        self.local.push(cell)?;
        Ok(())
    }
}

/// What is asked of a body: each abstract cell is looked at once.
pub(crate) fn shape_of(alloc: Global, laid: &Laid, task: u32) -> Result<Shape, NoMemory>
    requires cells { length laid.now.abstract_cells.items ≤ 65536 }
    ensures { IfOk result (λ shape. IsShape (laid_tree laid.now) task shape) }
{
    let mut shape = Shape::new(alloc, laid);
    for cell in 0..laid.abstract_cells.len() {
        shape.push(laid, task, cell as u32)?;
    }
    Ok(shape)
}
