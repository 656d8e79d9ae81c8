//! Bounds of objects, by those of their cells.
ghost use Rattle.std.specs.Prelude.{◌≡◌, ◌<◌, length, IfOk};
ghost use Rattle.tm_laid.specs.Layouts.{laid_tree};
ghost use Rattle.value_ranges.specs.reading.Notes.{AreWidened};
ghost use Rattle.value_ranges.specs.reading.CellEnds.{AreProper, IsEndOf, AreOfCells};

use crate::bounds::note;
use crate::cells::object_of;
use crate::notes::nothing;
use crate::object_bounds::ObjectBounds;
use std::alloc::Global;
use tm_laid::Laid;
use tm_lattice::NoMemory;

// Notes the bounds of a cell of its object, if it is an integer cell of static storage and has some.
fn note_cell(
    noted: &mut Vec<Option<ObjectBounds>>,
    laid: &Laid,
    cells: &[Option<ObjectBounds>],
    cell: usize,
)
    requires cell { cell < length cells.now }
    requires proper { AreProper cells.now }
    requires room { length noted.old.items ≡ length laid.now.objects.items }
    ensures { AreWidened (λ o n. IsEndOf (laid_tree laid.now) cells.now o n cell) noted.old.items noted.new.items }
{
    if let Some(bounds) = cells[cell] {
        if let Some(object) = object_of(laid, cell) {
            let mut more = bounds;
            more.object = object;
            note(noted, more);
        }
    }
}

/// What is noted of each object, by what is noted of each abstract cell.
pub(crate) fn grouped(
    alloc: Global,
    laid: &Laid,
    cells: &[Option<ObjectBounds>],
) -> Result<Vec<Option<ObjectBounds>>, NoMemory>
    requires { AreProper cells.now }
    ensures { IfOk result (λ noted. AreOfCells (laid_tree laid.now) cells.now noted.items) }
{
    let mut noted = nothing(alloc, laid.objects.len())?;
    for cell in 0..cells.len() {
        note_cell(&mut noted, laid, cells, cell);
    }
    Ok(noted)
}
