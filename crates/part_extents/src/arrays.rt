//! The arrays into which pointers point.
ghost use Rattle.std.specs.Prelude.{◌≡◌, IfOk, option_map};
ghost use Rattle.tm_laid.specs.Layouts.{laid_tree, object_at};
ghost use Rattle.tm_laid.specs.TypeCells.{entry_of};
ghost use Rattle.part_extents.specs.Parts.{deepest, alone, whole, below, next_part, array_within, array_with};
ghost use Rattle.part_extents.specs.Parts.{array_begun, array_ended, array_at};
ghost use Rattle.part_extents.specs.reading.Sought.{part_of, element_of, is_at, is_sought};

use crate::extents::Extent;
use crate::sizes::{cells_of_type, times};
use body_builder::more;
use source_names::{Down, Inside, step_down};
use tm_laid::{Laid, object_at};
use tm_lattice::NoMemory;
use tm_typed::Qualified;

// How deep types are made of others at most.
const DEEPEST: usize = 1024;

// A part of an object: the number of its type, the offset at which it begins, and the array of which it is an element.
#[derive(Clone, Copy)]
struct Part {
    number: u32,
    begin: u32,
    array: Extent,
}

// Where a part has to begin or to end.
#[derive(Clone, Copy)]
enum Edge {
    Begins(u32),
    Ends(u32),
}

// What is sought: a part of a type, but for `const`, that begins or ends there.
#[derive(Clone, Copy)]
struct Sought {
    target: u32,
    edge: Edge,
}

// The class of a type: the types that are the same but for `const`.
fn class_of(laid: &Laid, number: u32) -> u32
    ensures { result ≡ (entry_of (laid_tree laid.now).file number).class }
{
    match laid.file.types.get(number as usize) {
        Some(entry) => entry.class,
        None => 0,
    }
}

// A part that is an array of one.
fn alone(laid: &Laid, number: u32, begin: u32) -> Result<Part, NoMemory>
    ensures { IfOk result (λ p. part_of p ≡ alone (laid_tree laid.now) number begin) }
{
    let cells = cells_of_type(laid, number)?;
    let end = more(begin, cells)?;
    Ok(Part {
        number,
        begin,
        array: Extent { begin, end },
    })
}

// An object as a whole.
fn whole(laid: &Laid, object: u32) -> Result<Part, NoMemory>
    ensures { IfOk result (λ p. part_of p ≡ whole (laid_tree laid.now) object) }
{
    alone(laid, object_at(laid, object).of.number, 0)
}

// An element of an array that begins at an offset.
fn element(laid: &Laid, begin: u32, index: u32, length: u32, number: u32) -> Result<Part, NoMemory>
    ensures { IfOk result (λ p. part_of p ≡ element_of (laid_tree laid.now) begin index length number) }
{
    let cells = cells_of_type(laid, number)?;
    let before = times(index, cells)?;
    let all = times(length, cells)?;
    let here = more(begin, before)?;
    let end = more(begin, all)?;
    Ok(Part {
        number,
        begin: here,
        array: Extent { begin, end },
    })
}

// Where a step down leads.
fn below(laid: &Laid, part: Part, offset: u32, down: Option<Down>) -> Result<Option<Part>, NoMemory>
    ensures { IfOk result (λ p. option_map part_of p ≡ below (laid_tree laid.now) (part_of part) offset down) }
{
    match down {
        None => Ok(None),
        Some(
            Down::Element {
                index,
                length,
                inside,
            },
        ) => {
            let found = element(laid, part.begin, index, length, inside.of.number)?;
            Ok(Some(found))
        }
        Some(Down::Member { inside, .. }) => {
            let found = alone(laid, inside.of.number, offset.saturating_sub(inside.cell))?;
            Ok(Some(found))
        }
    }
}

// The part of a part in which the cell at an offset of the object stands.
fn next_part(laid: &Laid, part: Part, offset: u32) -> Result<Option<Part>, NoMemory>
    ensures { IfOk result (λ p. option_map part_of p ≡ next_part (laid_tree laid.now) (part_of part) offset) }
{
    let inside = Inside {
        of: Qualified {
            number: part.number,
            constant: false,
            volatile: false,
        },
        cell: offset.saturating_sub(part.begin),
    };
    let down = step_down(&laid.file, inside);
    below(laid, part, offset, down)
}

// Whether a part begins or ends so.
fn is_at(laid: &Laid, part: Part, edge: Edge) -> Result<bool, NoMemory>
    ensures { IfOk result (λ b. b ≡ is_at (laid_tree laid.now) edge (part_of part)) }
{
    match edge {
        Edge::Begins(offset) => Ok(part.begin == offset),
        Edge::Ends(offset) => {
            let cells = cells_of_type(laid, part.number)?;
            let end = more(part.begin, cells)?;
            Ok(end == offset)
        }
    }
}

// Whether a part is what is sought.
fn is_sought(laid: &Laid, sought: Sought, part: Part) -> Result<bool, NoMemory>
    ensures { IfOk result (λ b. b ≡ is_sought (laid_tree laid.now) sought (part_of part)) }
{
    if class_of(laid, part.number) == class_of(laid, sought.target) {
        is_at(laid, part, sought.edge)
    } else {
        Ok(false)
    }
}

// Of the parts in which the cell at an offset stands, from the one on, the array of the first that is sought.
fn array_within(
    laid: &Laid,
    sought: Sought,
    offset: u32,
    first: Part,
) -> Result<Option<Extent>, NoMemory>
    ensures { IfOk result (λ found. found ≡ array_within (laid_tree laid.now) deepest
        (is_sought (laid_tree laid.now) sought) offset (part_of first)) }
{
    let mut part = first;
    for _step in 0..DEEPEST {
        if is_sought(laid, sought, part)? {
            return Ok(Some(part.array));
        }
        match next_part(laid, part, offset)? {
            Some(next) => part = next,
            None => return Ok(None),
        }
    }
    Ok(None)
}

// The same in an object from the whole on.
fn array_with(
    laid: &Laid,
    object: u32,
    sought: Sought,
    offset: u32,
) -> Result<Option<Extent>, NoMemory>
    ensures { IfOk result (λ found. found ≡ array_with (laid_tree laid.now) object
        (is_sought (laid_tree laid.now) sought) offset) }
{
    if offset < object_at(laid, object).cells {
        let first = whole(laid, object)?;
        array_within(laid, sought, offset, first)
    } else {
        Ok(None)
    }
}

/// The array whose element of a type begins at an offset of an object.
pub fn array_begun(
    laid: &Laid,
    object: u32,
    target: u32,
    offset: u32,
) -> Result<Option<Extent>, NoMemory>
    ensures { IfOk result (λ found. found ≡ array_begun (laid_tree laid.now) object target offset) }
{
    let edge = Edge::Begins(offset);
    array_with(laid, object, Sought { target, edge }, offset)
}

// The one whose element ends there.
fn array_ended(
    laid: &Laid,
    object: u32,
    target: u32,
    offset: u32,
) -> Result<Option<Extent>, NoMemory>
    ensures { IfOk result (λ found. found ≡ array_ended (laid_tree laid.now) object target offset) }
{
    if offset == 0 {
        return Ok(None);
    }
    let edge = Edge::Ends(offset);
    array_with(laid, object, Sought { target, edge }, offset - 1)
}

/// The array of elements of a type into which a pointer at an offset of an object points: the one whose element begins
/// there, or else the one whose element ends there; none where there is neither.
pub fn array_at(
    laid: &Laid,
    object: u32,
    target: u32,
    offset: u32,
) -> Result<Option<Extent>, NoMemory>
    ensures { IfOk result (λ found. found ≡ array_at (laid_tree laid.now) object target offset) }
{
    match array_begun(laid, object, target, offset)? {
        Some(found) => Ok(Some(found)),
        None => array_ended(laid, object, target, offset),
    }
}
