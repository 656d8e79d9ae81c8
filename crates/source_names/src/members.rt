//! The members that accesses reach.
ghost use Rattle.std.specs.Prelude.{◌≡◌, length};

use crate::steps::{Down, Inside, step_down};
use notes_json::push_number;
use std::alloc::Global;
use tm_laid::Laid;
use tm_lattice::NoMemory;
use tm_terms::{Name, push_bytes, text_of};

// An array of so many elements and more is told apart in no element, so it is shown whole.
const SMASHED: u32 = 65;

// How deep members lie at most.
const DEEPEST: usize = 256;

// The subscripts that are reached.
#[derive(Clone, Copy)]
struct Subscripts {
    low: u32,
    high: u32,
}

// A step that all cells take together.
#[derive(Clone, Copy)]
enum Step {
    Elements(Subscripts),
    Member(Name),
    Apart,
}

// All subscripts of an array of this length.
fn all_of(length: u32) -> Subscripts {
    Subscripts {
        low: 0,
        high: length.saturating_sub(1),
    }
}

// One subscript, or all of them where an array is shown whole.
fn subscript(index: u32, length: u32, whole: bool) -> Subscripts {
    if whole || length >= SMASHED {
        return all_of(length);
    }
    Subscripts {
        low: index,
        high: index,
    }
}

// The subscripts from the lowest to the highest of both.
fn joined(one: Subscripts, other: Subscripts) -> Subscripts {
    Subscripts {
        low: one.low.min(other.low),
        high: one.high.max(other.high),
    }
}

// The step of one cell.
fn step_of(found: Option<Down>, whole: bool) -> Step {
    match found {
        None => Step::Apart,
        Some(Down::Member { name, .. }) => Step::Member(name),
        Some(Down::Element { index, length, .. }) => {
            Step::Elements(subscript(index, length, whole))
        }
    }
}

// The step that both steps are.
fn common(one: Step, other: Step) -> Step {
    match one {
        Step::Apart => Step::Apart,
        Step::Member(name) => match other {
            Step::Member(same) => { if same == name { one } else { Step::Apart } }
            _ => Step::Apart,
        },
        Step::Elements(subscripts) => match other {
            Step::Elements(further) => Step::Elements(joined(subscripts, further)),
            _ => Step::Apart,
        },
    }
}

// The step that all of them take.
fn common_step(laid: &Laid, cells: &[Inside], whole: bool) -> Step {
    let mut common_so_far = None;
    for cell in cells {
        let step = step_of(step_down(&laid.file, *cell), whole);
        common_so_far = Some(match common_so_far {
            None => step,
            Some(before) => common(before, step),
        });
    }
    common_so_far.unwrap_or(Step::Apart)
}

// A cell one step down.
fn below(laid: &Laid, cell: Inside) -> Inside {
    match step_down(&laid.file, cell) {
        Some(Down::Element { inside, .. }) => inside,
        Some(Down::Member { inside, .. }) => inside,
        None => cell,
    }
}

// Each of them one step down.
fn descend(laid: &Laid, cells: &mut Vec<Inside>)
    ensures { length cells.new.items ≡ length cells.old.items }
{
    for at in 0..cells.len() {
        cells[at] = below(laid, cells[at]);
    }
}

// Appends subscripts.
fn push_subscripts(
    alloc: Global,
    text: &mut Vec<u8>,
    subscripts: Subscripts,
) -> Result<(), NoMemory> {
    push_number(alloc, text, b"[", subscripts.low as u64)?;
    if subscripts.low != subscripts.high {
        push_number(alloc, text, b"..", subscripts.high as u64)?;
    }
    push_bytes(text, b"]")
}

// Appends a step, if it is one that all take.
fn push_step(alloc: Global, bytes: &[u8], text: &mut Vec<u8>, step: Step) -> Result<(), NoMemory> {
    match step {
        Step::Elements(subscripts) => push_subscripts(alloc, text, subscripts),
        Step::Member(name) => {
            push_bytes(text, b".")?;
            push_bytes(text, text_of(bytes, name))
        }
        Step::Apart => Ok(()),
    }
}

// Whether the cells go apart.
fn is_apart(step: Step) -> bool {
    match step {
        Step::Apart => true,
        _ => false,
    }
}

// The text behind the name of an object for these cells of it.
fn member_text(
    alloc: Global,
    bytes: &[u8],
    laid: &Laid,
    cells: &mut Vec<Inside>,
    whole: bool,
) -> Result<Vec<u8>, NoMemory> {
    let mut text = Vec::new(alloc);
    for _step in 0..DEEPEST {
        let step = common_step(laid, cells, whole);
        if is_apart(step) {
            return Ok(text);
        }
        push_step(alloc, bytes, &mut text, step)?;
        descend(laid, cells);
    }
    Ok(text)
}

// An abstract cell in its object.
fn inside(laid: &Laid, cell: u32) -> Option<Inside> {
    let found = laid.abstract_cells.get(cell as usize)?;
    let object = laid.objects.get(found.object as usize)?;
    Some(Inside {
        of: object.of,
        cell: found.offset,
    })
}

/// The text behind the name of an object for some of its abstract cells: the steps down that all of them take, with all
/// subscripts of arrays that are reached, or with those of whole arrays.
pub fn member_of(
    alloc: Global,
    bytes: &[u8],
    laid: &Laid,
    cells: &[u32],
    whole: bool,
) -> Result<Vec<u8>, NoMemory> {
    let mut insides = Vec::new(alloc);
    for cell in cells {
        if let Some(found) = inside(laid, *cell) {
            insides.push(found)?;
        }
    }
    member_text(alloc, bytes, laid, &mut insides, whole)
}

/// Whether what stands in an abstract cell is volatile.
pub fn is_volatile(laid: &Laid, cell: u32) -> bool {
    let Some(start) = inside(laid, cell) else {
        return false;
    };
    let mut at = start;
    for _step in 0..DEEPEST {
        match step_down(&laid.file, at) {
            Some(Down::Element { inside, .. }) => at = inside,
            Some(Down::Member { inside, .. }) => at = inside,
            None => return at.of.volatile,
        }
    }
    at.of.volatile
}
