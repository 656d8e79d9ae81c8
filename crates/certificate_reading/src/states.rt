//! States from their lines.
ghost use Rattle.std.specs.Prelude.{◌≤◌, ◌^◌, length, IfOk, IfSome};
ghost use Rattle.tm_laid.specs.Layouts.{laid_tree};
ghost use Rattle.certificate_reading.specs.Values.{AreSizes};
ghost use Rattle.certificate_reading.specs.States.{IsReadState};
ghost use Rattle.certificate_reading.specs.reading.Shapes.{IsShape, RiseFrom};
ghost use Rattle.certificate_reading.specs.reading.Cells.{IsKept};

use crate::assembled::temps_with;
use crate::cells::cells_in;
use crate::kept::Kept;
use crate::rows::values_in;
use crate::shapes::Shape;
use cell_env::State;
use certificate_parts::{Ahead, Allowed, numbers_in};
use pointer_dom::AbsValue;
use std::alloc::Global;
use temporary_extents::Extent;
use tm_laid::Laid;
use tm_lattice::NoMemory;

/// Reads a state of a body with this number and shape, where these temporaries are live, each within its extent: none
/// where the lines are those of no such state. Its cells are kept for the next state of the body, and those that were
/// kept are shared where they are the same.
pub(crate) fn state_in<'a>(
    alloc: Global,
    ahead: &mut Ahead<'a>,
    laid: &Laid,
    task: u32,
    sizes: &[u32],
    shape: &Shape,
    extents: &[Extent],
    live: &[u32],
    kept: &mut Kept<'a>,
) -> Result<Option<State<AbsValue>>, NoMemory>
    requires sizes { AreSizes (laid_tree laid.now) sizes.now }
    requires few { length sizes.now ≤ 2 ^ 32 }
    requires cells { length laid.now.abstract_cells.items ≤ 65536 }
    requires shape { IsShape (laid_tree laid.now) task shape.now }
    requires live { RiseFrom 0 live.now }
    requires kept { IsKept (laid_tree laid.now) shape.now kept.old }
    ensures state { IfOk result (λ s. IsReadState (laid_tree laid.now) task extents.now live.now ahead.old s ahead.new) }
    ensures kept { IfOk result (λ found. IfSome found (λ s.
        IsKept (laid_tree laid.now) shape.now kept.new)) }
{
    let Some(values) = values_in(alloc, ahead, laid, sizes, b"t", live, extents)? else {
        return Ok(None);
    };
    let Some(cells) = cells_in(alloc, ahead, laid, sizes, shape, kept)? else {
        return Ok(None);
    };
    let copies = numbers_in(alloc, ahead, b"k", live, &Allowed::Marked(&shape.marks))?;
    let temps = temps_with(alloc, live, values, copies)?;
    Ok(Some(State::new(temps, cells)))
}
