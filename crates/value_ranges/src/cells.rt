//! Integer cells of objects of static storage, and what they hold before the program runs.
ghost use Rattle.std.specs.Prelude.{◌≡◌, ◌<◌, ◌≤◌, ◌^◌, ◌↔◌, ℕ, true, length, Some, IsTrue, IfOk};
ghost use Rattle.tm_laid.specs.declared.objects.Initial.TheVariants as Initials;
ghost use Rattle.tm_laid.specs.Layouts.{laid_tree, is_shared};
ghost use Rattle.value_ranges.specs.declared.object_bounds.Grouping.TheVariants as Groupings;
ghost use Rattle.value_ranges.specs.Ranges.{IsInteger, IsIntegerCell, IsKeyOf, key_count};
ghost use Rattle.value_ranges.specs.reading.Notes.{AreIntegerCells, AreWidened, IsFirst, IsFirstBelow, first_bounds};

use crate::bounds::note;
use crate::object_bounds::{Grouping, ObjectBounds};
use std::alloc::Global;
use tm_laid::{Initial, Laid, Scalar};
use tm_lattice::NoMemory;

// An abstract cell of integer type, of an object of static storage, and of what its numbers are told: of this object, or
// of the cell itself.
#[derive(Clone, Copy)]
pub(crate) struct IntegerCell {
    pub(crate) cell: u32,
    pub(crate) object: u32,
}

// Whether a scalar is of an integer type.
fn is_integer(scalar: Scalar) -> bool
    ensures { IsTrue result ↔ IsInteger scalar }
{
    match scalar {
        Scalar::Int(_) => true,
        Scalar::Pointer(_) => false,
    }
}

// Whether there is an object with this number that has static storage.
fn is_static(laid: &Laid, object: u32) -> bool
    ensures { IsTrue result
        ↔ ((object < length laid.now.objects.items) × (is_shared (laid_tree laid.now) object ≡ true)) }
{
    match laid.objects.get(object as usize) {
        Some(found) => found.owner.is_none(),
        None => false,
    }
}

/// The object of an abstract cell of integer type that is of static storage.
pub(crate) fn object_of(laid: &Laid, cell: usize) -> Option<u32>
    ensures { (o : ℕ) → (result ≡ Some o) ↔ IsIntegerCell (laid_tree laid.now) o cell }
{
    match laid.abstract_cells.get(cell) {
        Some(found) => {
            if is_integer(found.scalar) {
                if is_static(laid, found.object) {
                    return Some(found.object);
                }
            }
            None
        }
        None => None,
    }
}

// An abstract cell by itself, if it is of integer type and of static storage.
#[tactic(auto, using(crate::proofs::Listing::no_cell_key))]
fn own_key(laid: &Laid, cell: usize) -> Option<u32>
    requires { cell < 2 ^ 32 }
    ensures { (key : ℕ) → (result ≡ Some key) ↔ IsKeyOf Groupings.Cells (laid_tree laid.now) key cell }
{
    match object_of(laid, cell) {
        Some(_) => Some(cell as u32),
        None => None,
    }
}

// What the numbers of an abstract cell are told of, if it is of integer type and of static storage.
fn key_of(laid: &Laid, grouping: Grouping, cell: usize) -> Option<u32>
    requires { cell < 2 ^ 32 }
    ensures { (key : ℕ) → (result ≡ Some key) ↔ IsKeyOf grouping (laid_tree laid.now) key cell }
{
    match grouping {
        Grouping::Objects => object_of(laid, cell),
        Grouping::Cells => own_key(laid, cell),
    }
}

/// Of how much numbers are told: how many objects there are, or abstract cells.
pub(crate) fn key_count(laid: &Laid, grouping: Grouping) -> usize
    ensures { result ≡ key_count grouping (laid_tree laid.now) }
{
    match grouping {
        Grouping::Objects => laid.objects.len(),
        Grouping::Cells => laid.abstract_cells.len(),
    }
}

/// The integer cells of objects of static storage.
pub(crate) fn integer_cells(
    alloc: Global,
    laid: &Laid,
    grouping: Grouping,
) -> Result<Vec<IntegerCell>, NoMemory>
    requires { length laid.now.abstract_cells.items ≤ 65536 }
    ensures { IfOk result (λ cells. AreIntegerCells grouping (laid_tree laid.now) cells.items) }
{
    let mut cells = Vec::new(alloc);
    for cell in 0..laid.abstract_cells.len() {
        if let Some(object) = key_of(laid, grouping, cell) {
            let found = IntegerCell {
                cell: cell as u32,
                object,
            };
            cells.push(found)?;
        }
    }
    Ok(cells)
}

// The bounds of what a cell of an object holds before the program runs, if it is a number.
fn first_bounds(object: u32, initial: Initial) -> Option<ObjectBounds>
    ensures { result ≡ first_bounds object initial }
{
    match initial {
        Initial::Number(number) => Some(ObjectBounds {
            object,
            low: number,
            high: number,
        }),
        Initial::Null => None,
        Initial::To { .. } => None,
    }
}

// Notes what a cell of an object holds before the program runs, if it is a number.
fn note_value(noted: &mut Vec<Option<ObjectBounds>>, object: u32, initial: Initial)
    requires { object < length noted.old.items }
    ensures { AreWidened (λ o n. (object ≡ o) × (initial ≡ Initials.Number n)) noted.old.items noted.new.items }
{
    if let Some(bounds) = first_bounds(object, initial) {
        note(noted, bounds);
    }
}

// Notes the number that a cell holds before the program runs, if it is an integer cell.
fn note_first(laid: &Laid, grouping: Grouping, cell: usize, noted: &mut Vec<Option<ObjectBounds>>)
    requires cell { cell < length laid.now.initial.items }
    requires room { length noted.old.items ≡ key_count grouping (laid_tree laid.now) }
    ensures { AreWidened (λ o n. IsFirst grouping (laid_tree laid.now) cell o n) noted.old.items noted.new.items }
{
    if cell < laid.cells.len() {
        if let Some(object) = key_of(laid, grouping, laid.cells[cell].abstract_cell as usize) {
            note_value(noted, object, laid.initial[cell]);
        }
    }
}

/// Notes the numbers that integer cells hold before the program runs: those of all cells for which an abstract cell
/// stands.
pub(crate) fn note_initial(laid: &Laid, grouping: Grouping, noted: &mut Vec<Option<ObjectBounds>>)
    requires { length noted.old.items ≡ key_count grouping (laid_tree laid.now) }
    ensures { AreWidened (λ o n. IsFirstBelow grouping (laid_tree laid.now) (length laid.now.initial.items) o n)
        noted.old.items noted.new.items }
{
    for cell in 0..laid.initial.len() {
        note_first(laid, grouping, cell, noted);
    }
}
