//! The cells of states, from their lines.
ghost use Rattle.std.specs.Prelude.{◌≡◌, ◌≤◌, ◌^◌, length, IfOk, IfSome};
ghost use Rattle.tm_laid.specs.Layouts.{laid_tree};
ghost use Rattle.post_recheck.specs.state_fits.Fits.{file_set};
ghost use Rattle.certificate_reading.specs.Values.{AreSizes};
ghost use Rattle.certificate_reading.specs.reading.Shapes.{RiseFrom};
ghost use Rattle.certificate_reading.specs.reading.Cells.{AreReadCells, IsKept};

use crate::assembled::cells_over;
use crate::kept::Kept;
use crate::kept_rows::{ReadRows, before_rest, rows_again};
use crate::shapes::Shape;
use cell_env::CellState;
use certificate_parts::{Ahead, Allowed, marks_in, numbers_in};
use pointer_dom::AbsValue;
use state_tree::Tree;
use std::alloc::Global;
use tm_laid::Laid;
use tm_lattice::NoMemory;

/// Reads the cells of a state line by line, and keeps them.
fn cells_anew<'a>(
    alloc: Global,
    ahead: &mut Ahead<'a>,
    laid: &Laid,
    sizes: &[u32],
    shape: &Shape,
    kept: &mut Kept<'a>,
) -> Result<Option<Tree<CellState<AbsValue>>>, NoMemory>
    requires sizes { AreSizes (laid_tree laid.now) sizes.now }
    requires few { length sizes.now ≤ 2 ^ 32 }
    requires seen { RiseFrom 0 shape.now.seen.items }
    requires shared { RiseFrom 0 shape.now.shared.items }
    requires local { RiseFrom 0 shape.now.local.items }
    requires mask { shape.now.mask ≡ file_set (laid_tree laid.now) }
    requires kept { IsKept (laid_tree laid.now) shape.now kept.old }
    ensures cells { IfOk result (λ found. AreReadCells (laid_tree laid.now) shape.now ahead.old found ahead.new) }
    ensures kept { IfOk result (λ found. IfSome found (λ cells.
        IsKept (laid_tree laid.now) shape.now kept.new)) }
{
    let text = ahead.rest();
    let rows = std::mem::replace(&mut kept.rows, Vec::new(alloc));
    let Some(found) = rows_again(alloc, text, laid, sizes, &shape.seen, &shape.kinds, rows)? else {
        return Ok(None);
    };
    let ReadRows { rows, more } = found;
    ahead.turn_to(more)?;
    let allowed = Allowed::Within(shape.mask);
    let pending = numbers_in(alloc, ahead, b"p", &shape.shared, &allowed)?;
    let fresh = marks_in(alloc, ahead, b"f", &shape.seen)?;
    let stored = marks_in(alloc, ahead, b"s", &shape.local)?;
    let cells = cells_over(
        alloc,
        laid,
        &shape.seen,
        &kept.cells,
        &rows,
        pending,
        &fresh,
        stored,
    )?;
    kept.text = before_rest(text, ahead.rest());
    kept.rows = rows;
    kept.cells = cells.shared()?;
    Ok(Some(cells))
}

/// Reads the cells of a state: none where the value of one that is seen is missing. Where the bytes of all their lines
/// are those of the state that was read last, the cells are shared with it.
pub(crate) fn cells_in<'a>(
    alloc: Global,
    ahead: &mut Ahead<'a>,
    laid: &Laid,
    sizes: &[u32],
    shape: &Shape,
    kept: &mut Kept<'a>,
) -> Result<Option<Tree<CellState<AbsValue>>>, NoMemory>
    requires sizes { AreSizes (laid_tree laid.now) sizes.now }
    requires few { length sizes.now ≤ 2 ^ 32 }
    requires seen { RiseFrom 0 shape.now.seen.items }
    requires shared { RiseFrom 0 shape.now.shared.items }
    requires local { RiseFrom 0 shape.now.local.items }
    requires mask { shape.now.mask ≡ file_set (laid_tree laid.now) }
    requires kept { IsKept (laid_tree laid.now) shape.now kept.old }
    ensures cells { IfOk result (λ found. AreReadCells (laid_tree laid.now) shape.now ahead.old found ahead.new) }
    ensures kept { IfOk result (λ found. IfSome found (λ cells.
        IsKept (laid_tree laid.now) shape.now kept.new)) }
{
    match kept.behind(ahead.rest()) {
        None => cells_anew(alloc, ahead, laid, sizes, shape, kept),
        Some(more) => {
            ahead.turn_to(more)?;
            Ok(Some(kept.cells.shared()?))
        }
    }
}
