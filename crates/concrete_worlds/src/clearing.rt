//! What cells hold that are cleared.
ghost use Rattle.std.specs.Prelude.{◌≡◌, ◌+◌, slice_set};
ghost use Rattle.tm_laid.specs.Layouts.{laid_tree, object_at, cell_of, cell_at};
ghost use Rattle.concrete_steps.specs.Worlds.{cleared_content};
ghost use Rattle.concrete_worlds.specs.reading.Clearing.{cleared_cells, object_cleared};

use concrete_steps::Content;
use concrete_values::{Pointer, Value};
use tm_laid::{Laid, cell_at, object_at};
use tm_typed::Scalar;

/// What a cell of this type holds that is cleared.
pub(crate) fn cleared_content(scalar: Scalar) -> Content
    ensures { result ≡ cleared_content scalar }
{
    match scalar {
        Scalar::Int(_) => Content::Open,
        Scalar::Pointer(_) => Content::Is(Value::Pointer(Pointer::Invalid)),
    }
}

/// The cell at an offset of an object.
pub(crate) fn cell_of(laid: &Laid, object: u32, offset: u32) -> usize
    ensures { result ≡ cell_of (laid_tree laid.now) object offset }
{
    object_at(laid, object).first_cell as usize + offset as usize
}

/// The cell holds this.
pub(crate) fn put(contents: &mut Vec<Content>, cell: usize, content: Content)
    ensures { contents.new.items ≡ slice_set contents.old.items cell content }
{
    if let Some(place) = contents.get_mut(cell) {
        *place = content;
    }
}

// So many cells from the first one on are cleared.
#[tactic(auto, using(crate::proofs::Cleared::clear_none))]
fn clear_cells(laid: &Laid, first: u32, count: u32, contents: &mut Vec<Content>)
    ensures { contents.new.items ≡ cleared_cells (laid_tree laid.now) first count contents.old.items }
{
    for offset in 0..count {
        let cell = first as usize + offset as usize;
        put(contents, cell, cleared_content(cell_at(laid, cell).scalar));
    }
}

/// The cells of an object are cleared.
pub(crate) fn clear_object(laid: &Laid, object: u32, contents: &mut Vec<Content>)
    ensures { contents.new.items ≡ object_cleared (laid_tree laid.now) object contents.old.items }
{
    let first = object_at(laid, object).first_cell;
    let count = object_at(laid, object).cells;
    clear_cells(laid, first, count, contents);
}
