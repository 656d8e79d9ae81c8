//! Where the cells of a type stand in an object.
ghost use Rattle.std.specs.Prelude.{◌≡◌, ◌≤◌, length, option_map, slice_get};
ghost use Rattle.tm_typed.specs.TypedFiles.{typed_file_tree};
ghost use Rattle.tm_laid.specs.Layable.{IsLayable};
ghost use Rattle.tm_laid.specs.Layouts.{laid_tree, object_at, is_same_scalar, scalars_from, stands_at};
ghost use Rattle.cell_types.specs.reading.Descents.{is_same_cell};

use crate::descents::{cells_of, scalar_of};
use tm_laid::{Laid, is_same_scalar, object_at};
use tm_typed::Scalar;

// Whether a cell is there and has this type, where one is wanted.
fn is_same_cell(found: Option<Scalar>, wanted: Option<Scalar>) -> bool
    ensures { result ≡ is_same_cell found wanted }
{
    match wanted {
        None => true,
        Some(wanted) => match found {
            None => false,
            Some(found) => is_same_scalar(found, wanted),
        },
    }
}

// The scalar of a cell.
fn scalar_at(laid: &Laid, cell: usize) -> Option<Scalar>
    ensures { result ≡ option_map (λ c. c.scalar) (slice_get (laid_tree laid.now).cells cell) }
{
    match laid.cells.get(cell) {
        Some(entry) => Some(entry.scalar),
        None => None,
    }
}

// The scalar of a cell of an object, counted from an offset.
fn scalar_from(laid: &Laid, object: u32, offset: u32, cell: u32) -> Option<Scalar>
    ensures { result ≡ slice_get (scalars_from (laid_tree laid.now) object offset) cell }
{
    let entry = object_at(laid, object);
    let place = u64::from(offset) + u64::from(cell);
    if place < u64::from(entry.cells) {
        scalar_at(laid, entry.first_cell as usize + place as usize)
    } else {
        None
    }
}

/// Whether the cells of a type stand in order at an offset of an object. Condition: the file can be laid out, and there
/// are no more cells than its limit.
pub fn stands_at(laid: &Laid, object: u32, offset: u32, of: u32) -> bool
    requires layable { IsLayable (typed_file_tree laid.now.file) laid.now.file.order.items }
    requires few { length laid.now.cells.items ≤ 65536 }
    ensures { result ≡ stands_at (laid_tree laid.now) object offset of }
{
    let count = cells_of(&laid.file, of);
    if count > 65536 {
        return false;
    }
    for cell in 0..count {
        let found = scalar_from(laid, object, offset, cell);
        if !is_same_cell(found, scalar_of(&laid.file, of, cell)) {
            return false;
        }
    }
    true
}
