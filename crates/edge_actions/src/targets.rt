//! The abstract cells that an access reaches.
ghost use Rattle.std.specs.Prelude.{◌≡◌, ◌+◌, ◌++◌, min, eqb, pos, IfOk};
ghost use Rattle.std.specs.List.{list_all};
ghost use Rattle.tm_laid.specs.Layouts.{laid_tree, object_at};
ghost use Rattle.transfer_rows.specs.Accesses.{has_number, is_among, targets_at, single_of};
ghost use Rattle.edge_actions.specs.Layouts.{spots_of, is_smashed_cell};
ghost use Rattle.edge_actions.specs.reading.Spans.{IsSpanOf, cells_led, cell_of_type};

use crate::places::{is_reachable, is_smashed_cell};
use crate::views::Targets;
use pointer_dom::{Ends, Offsets, PointerSet};
use std::alloc::Global;
use tm_laid::{Laid, cell_at, is_same_scalar, object_at};
use tm_lattice::NoMemory;
use tm_typed::Scalar;

/// The abstract cells to which some pointers lead: of those objects that are static or the task's own the cells of the
/// type. Only the objects and offsets of the pointers are looked at. Each cell reached gives its abstract cell, so that
/// of a smashed array may come more than once.
pub fn targets_at(
    alloc: Global,
    laid: &Laid,
    task: u32,
    scalar: Scalar,
    pointers: &PointerSet,
) -> Result<Targets, NoMemory>
    ensures { IfOk result (λ targets. targets.items
        ≡ targets_at (spots_of (laid_tree laid.now) task scalar) pointers.now) }
{
    let mut targets = Targets::new(alloc);
    for (object, offsets) in pointers.objects().entries() {
        if is_reachable(laid, task, *object) {
            targets = with_targets(laid, scalar, *object, offsets, targets)?;
        }
    }
    Ok(targets)
}

// With the abstract cells to which the offsets lead in one object.
fn with_targets(
    laid: &Laid,
    scalar: Scalar,
    object: u32,
    offsets: &Offsets,
    before: Targets,
) -> Result<Targets, NoMemory>
    ensures { IfOk result (λ more. more.items ≡ before.items ++ cells_led (laid_tree laid.now) scalar object
        offsets.now.offsets (object_at (laid_tree laid.now) object).cells) }
{
    let span = span_of(offsets, object_at(laid, object).cells);
    let mut targets = before;
    for offset in span.first..span.end {
        if has_offset(offsets, offset) {
            targets = with_cell(laid, scalar, object, offset, targets)?;
        }
    }
    Ok(targets)
}

// With the abstract cell at an offset of an object, where the cell there has the type.
fn with_cell(
    laid: &Laid,
    scalar: Scalar,
    object: u32,
    offset: u32,
    targets: Targets,
) -> Result<Targets, NoMemory>
    ensures { IfOk result (λ more. more.items ≡ targets.items
        ++ cell_of_type (laid_tree laid.now) scalar object offset) }
{
    let mut targets = targets;
    let cell = cell_at(
        laid,
        object_at(laid, object).first_cell as usize + offset as usize,
    );
    if is_same_scalar(cell.scalar, scalar) {
        targets.push(cell.abstract_cell)?;
    }
    Ok(targets)
}

// Offsets from a first one on, up to an end.
#[derive(Clone, Copy)]
struct Span {
    first: u32,
    end: u32,
}

// One past the last offset, or the number of cells where that is less.
fn end_of(last: u32, cells: u32) -> u32
    ensures { result ≡ min (last + 1) cells }
{
    if last < cells { last + 1 } else { cells }
}

// Where the offsets below a number of cells begin and end.
fn span_of(offsets: &Offsets, cells: u32) -> Span
    ensures { IsSpanOf offsets.now.offsets cells result.first result.end }
{
    match offsets.ends() {
        None => Span { first: 0, end: 0 },
        Some(Ends { first, last }) => {
            let end = end_of(last, cells);
            Span {
                first: first.min(end),
                end,
            }
        }
    }
}

// Whether an offset is in a set.
fn has_offset(offsets: &Offsets, offset: u32) -> bool
    ensures { result ≡ has_number offsets.now.offsets (pos offset) }
{
    offsets.set().has(i128::from(offset))
}

// Whether all of them are this number.
fn are_all(number: u32, numbers: &[u32]) -> bool
    ensures { result ≡ list_all (eqb number) numbers.now }
{
    for other in numbers {
        if number != *other {
            return false;
        }
    }
    true
}

/// The target of an access that has one alone, which is not smashed.
pub fn single_of(laid: &Laid, targets: &[u32]) -> Option<u32>
    ensures { result ≡ single_of (is_smashed_cell (laid_tree laid.now)) targets.now }
{
    match targets {
        [] => None,
        [first, rest @ ..] => {
            if are_all(*first, rest) && !is_smashed_cell(laid, *first) {
                Some(*first)
            } else {
                None
            }
        }
    }
}

/// Whether a number is among these.
pub fn is_among(numbers: &[u32], number: u32) -> bool
    ensures { result ≡ is_among numbers.now number }
{
    for other in numbers {
        if number == *other {
            return true;
        }
    }
    false
}
