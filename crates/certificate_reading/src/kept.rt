//! The cells of the state of a body that was read last, with the bytes of their lines.
ghost use Rattle.std.specs.Prelude.{IfSome, IsTrue};
ghost use Rattle.tm_laid.specs.Layouts.{LaidTree};
ghost use Rattle.certificate_reading.specs.declared.shapes.Shape.{Shape};
ghost use Rattle.certificate_reading.specs.reading.Cells.{EndsCells, IsKept, IsKeptFront};

use crate::kept_rows::KeptRow;
use cell_env::CellState;
use pointer_dom::AbsValue;
use state_tree::Tree;
use std::alloc::Global;

/// The cells of the state that was read last, and the bytes that are their lines: no byte where there is no such state.
/// And lines of values of cells, each with the value that it tells.
#[derive(Drop)]
pub(crate) struct Kept<'a> {
    pub(crate) text: &'a [u8],
    pub(crate) rows: Vec<KeptRow<'a>>,
    pub(crate) cells: Tree<CellState<AbsValue>>,
}

/// Whether a text goes on, by its first byte, with no line of what is pending in a cell, nor of one that is fresh or
/// stored.
fn ends_cells(text: &[u8]) -> bool
    ensures { IsTrue result → EndsCells text.now }
{
    let Some(byte) = text.first() else {
        return true;
    };
    if *byte == b'p' {
        return false;
    }
    if *byte == b'f' {
        return false;
    }
    *byte != b's'
}

impl<'a> Kept<'a> {
    /// Of a body of which no state was read.
    pub(crate) fn new(alloc: Global) -> Kept<'a>
        ensures { (laid : LaidTree) (shape : Shape) → IsKept laid shape result }
    {
        Kept {
            text: &[],
            rows: Vec::new(alloc),
            cells: Tree::new(alloc),
        }
    }

    /// What stands behind the lines of the cells, where the text begins with the bytes of all of them, and goes on with
    /// no other line of cells.
    pub(crate) fn behind(&self, text: &'a [u8]) -> Option<&'a [u8]>
        ensures { IfSome result (λ more. IsKeptFront self.now.text.now text.now more.now) }
    {
        if self.text.is_empty() {
            return None;
        }
        let Some(more) = text.strip_prefix(self.text) else {
            return None;
        };
        if ends_cells(more) { Some(more) } else { None }
    }
}
