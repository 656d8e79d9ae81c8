//! Whether cells can be numbered.
ghost use Rattle.std.specs.Prelude.{◌≡◌, ◌<◌, ◌↔◌, ℕ, IsTrue, slice_index, EachIndex, true};
ghost use Rattle.cell_placings.specs.CellLists.{is_in, cells_at};
ghost use Rattle.slot_numbers.specs.Numbered.{IsNumberable};

use cell_placings::{CellGraph, CellPlacing, CellSet, cells_at};

/// Whether all cells that count are placed, and edges touch none but these and look at none but these.
pub fn is_numberable(graph: &CellGraph, placing: &CellPlacing, cells: &CellSet) -> bool
    ensures { IsTrue result ↔ IsNumberable graph.now placing.now cells.now }
{
    let edges = graph.links.len();
    let listed = cells.cells();
    let end = placing.cells();
    if !are_below(listed, end) {
        return false;
    }
    let touched = graph.touched.as_slice();
    if !are_counted(touched, edges, cells) {
        return false;
    }
    let looked = graph.looked.as_slice();
    are_counted(looked, edges, cells)
}

// Whether all of these cells are below a number.
fn are_below(listed: &[usize], end: usize) -> bool
    ensures { IsTrue result ↔ EachIndex listed.now (λ k. slice_index listed.now k < end) }
{
    listed.iter().all(|cell| *cell < end)
}

// Whether the first sets have no cells but those that count.
fn are_counted(sets: &[CellSet], count: usize, cells: &CellSet) -> bool
    ensures { IsTrue result ↔ ((k x : ℕ) → k < count → is_in (cells_at sets.now k) x ≡ true
        → is_in cells.now x ≡ true) }
{
    for k in 0..count {
        let listed = cells_at(sets, k);
        if !are_among(listed, cells) {
            return false;
        }
    }
    true
}

// Whether all of these cells count.
fn are_among(listed: &[usize], cells: &CellSet) -> bool
    ensures { IsTrue result ↔ ((x : ℕ) → is_in listed.now x ≡ true → is_in cells.now x ≡ true) }
{
    for cell in listed {
        if !cells.has(*cell) {
            return false;
        }
    }
    true
}
