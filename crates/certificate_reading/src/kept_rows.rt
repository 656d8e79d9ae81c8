//! Lines of values of cells that are read again.
ghost use Rattle.std.specs.Prelude.{◌≡◌, ◌≤◌, ◌-◌, ◌^◌, length, take, IfOk, IfSome};
ghost use Rattle.tm_laid.specs.Layouts.{laid_tree};
ghost use Rattle.certificate_parts.specs.Runs.{AreDistinct};
ghost use Rattle.certificate_reading.specs.Values.{AreSizes};
ghost use Rattle.certificate_reading.specs.reading.KeptRows.{AreKeptRows, AreReadAgain, IsKeptRow, IsReadAgain, IsTakenOver};

use crate::rows::extent_at;
use crate::values::value_in;
use certificate_parts::behind;
use certificate_words::{Lines, Word};
use pointer_dom::AbsValue;
use std::alloc::Global;
use temporary_extents::Extent;
use tm_laid::Laid;
use tm_lattice::NoMemory;

/// The bytes of a line that was read, with the cell and the value that it tells.
#[derive(Drop)]
pub(crate) struct KeptRow<'a> {
    pub(crate) cell: u32,
    pub(crate) line: &'a [u8],
    pub(crate) value: AbsValue,
}

/// A line that was read, and what is left of the text behind it.
#[derive(Drop)]
pub(crate) struct ReadRow<'a> {
    pub(crate) row: KeptRow<'a>,
    pub(crate) more: &'a [u8],
}

/// What stands before the rest of a text, which is not longer.
pub(crate) fn before_rest<'a>(text: &'a [u8], rest: &[u8]) -> &'a [u8]
    requires { length rest.now ≤ length text.now }
    ensures { result.now ≡ take (length text.now - length rest.now) text.now }
{
    &text[..text.len() - rest.len()]
}

/// The kept line, where it is one of this cell and the text begins with its bytes.
fn taken_over<'a>(text: &'a [u8], cell: u32, kept: Option<KeptRow<'a>>) -> Option<ReadRow<'a>>
    ensures { IfSome result (IsTakenOver text.now cell kept.entry) }
{
    let Some(row) = kept else {
        return None;
    };
    if row.cell != cell {
        return None;
    }
    match text.strip_prefix(row.line) {
        None => None,
        Some(more) => Some(ReadRow { row, more }),
    }
}

/// The line of a cell with which a text begins.
fn row_anew<'a>(
    alloc: Global,
    text: &'a [u8],
    words: &mut Vec<Word<'a>>,
    laid: &Laid,
    sizes: &[u32],
    cell: u32,
    extents: &[Extent],
) -> Result<Option<ReadRow<'a>>, NoMemory>
    requires sizes { AreSizes (laid_tree laid.now) sizes.now }
    requires few { length sizes.now ≤ 2 ^ 32 }
    ensures { IfOk result (IsReadAgain (laid_tree laid.now) extents.now cell text.now) }
{
    let mut lines = Lines::new(text);
    if !lines.next(words)? {
        return Ok(None);
    }
    let Some(told) = behind(words, b"c", &[i128::from(cell)]) else {
        return Ok(None);
    };
    let Some(value) = value_in(alloc, told, laid, sizes, &extent_at(extents, cell))? else {
        return Ok(None);
    };
    let more = lines.rest();
    let line = before_rest(text, more);
    Ok(Some(ReadRow {
        row: KeptRow { cell, line, value },
        more,
    }))
}

/// The line of a cell with which a text begins: the kept one, where it has the same bytes.
fn row_again<'a>(
    alloc: Global,
    text: &'a [u8],
    words: &mut Vec<Word<'a>>,
    laid: &Laid,
    sizes: &[u32],
    cell: u32,
    extents: &[Extent],
    kept: Option<KeptRow<'a>>,
) -> Result<Option<ReadRow<'a>>, NoMemory>
    requires sizes { AreSizes (laid_tree laid.now) sizes.now }
    requires few { length sizes.now ≤ 2 ^ 32 }
    requires kept { IfSome kept (IsKeptRow (laid_tree laid.now) extents.now) }
    ensures { IfOk result (IsReadAgain (laid_tree laid.now) extents.now cell text.now) }
{
    match taken_over(text, cell, kept) {
        Some(found) => Ok(Some(found)),
        None => row_anew(alloc, text, words, laid, sizes, cell, extents),
    }
}

/// The lines of cells, one after the other, and what is left of the text behind them.
#[derive(Drop)]
pub(crate) struct ReadRows<'a> {
    pub(crate) rows: Vec<KeptRow<'a>>,
    pub(crate) more: &'a [u8],
}

/// For each cell its line, within the extent that belongs to it: none where a line is missing. The kept lines of cells
/// are in the same order, as far as there are some; one that stands there again is not read.
pub(crate) fn rows_again<'a>(
    alloc: Global,
    text: &'a [u8],
    laid: &Laid,
    sizes: &[u32],
    cells: &[u32],
    extents: &[Extent],
    kept: Vec<KeptRow<'a>>,
) -> Result<Option<ReadRows<'a>>, NoMemory>
    requires sizes { AreSizes (laid_tree laid.now) sizes.now }
    requires few { length sizes.now ≤ 2 ^ 32 }
    requires distinct { AreDistinct cells.now }
    requires kept { AreKeptRows (laid_tree laid.now) extents.now kept.items }
    ensures { IfOk result (AreReadAgain (laid_tree laid.now) extents.now cells.now text.now) }
{
    let mut words = Vec::new(alloc);
    let mut rows = Vec::new(alloc);
    let mut kept_left = kept.into_iter();
    let mut more = text;
    for cell in cells {
        let before = kept_left.next();
        match row_again(alloc, more, &mut words, laid, sizes, *cell, extents, before)? {
            None => return Ok(None),
            Some(found) => {
                let ReadRow { row, more: behind } = found;
                rows.push(row)?;
                more = behind;
            }
        }
    }
    Ok(Some(ReadRows { rows, more }))
}
