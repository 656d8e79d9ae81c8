//! Marks of abstract cells.
ghost use Rattle.std.specs.Prelude.{◌≡◌, ◌↔◌, IsTrue};
ghost use Rattle.tm_laid.specs.Layouts.{laid_tree, object_at};
ghost use Rattle.operand_orders.specs.access_races.reading.Ways.{HasOne};
ghost use Rattle.open_choices.specs.reading.Marks.{mark_of, IsMarked};

use source_names::Inside;
use tm_laid::{Laid, object_at};

/// A mark for each abstract cell, and one for what stands in place of a cell that there is not: the first one of the
/// first object.
#[derive(Drop)]
pub struct Marks {
    pub cells: Vec<bool>,
    pub other: bool,
}

/// Which cells are declared `const`, and which are of enumerations that compilers may make unsigned (C99 6.7.2.2p4).
#[derive(Drop)]
pub struct CellMarks {
    pub constants: Marks,
    pub enumerated: Marks,
}

/// The cell at an offset of an object.
pub(crate) fn inside_at(laid: &Laid, object: u32, offset: u32) -> Inside
    ensures { result ≡ record { of = (object_at (laid_tree laid.now) object).of; cell = offset } }
{
    Inside {
        of: object_at(laid, object).of,
        cell: offset,
    }
}

// Whether a cell is marked.
fn is_marked(marks: &Marks, cell: u32) -> bool
    ensures { result ≡ mark_of marks.now cell }
{
    match marks.cells.get(cell as usize) {
        Some(is) => *is,
        None => marks.other,
    }
}

/// Whether one of these cells is marked.
pub(crate) fn marks_one(marks: &Marks, cells: &[u32]) -> bool
    ensures { IsTrue result ↔ HasOne (IsMarked marks.now) cells.now }
{
    for cell in cells {
        if is_marked(marks, *cell) {
            return true;
        }
    }
    false
}
