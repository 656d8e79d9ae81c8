//! Which cells the copies of a body's edges touch and carry, and at which they look.
ghost use Rattle.std.specs.Prelude.{◌≡◌, ℕ, length, IfOk};
ghost use Rattle.tm_laid.specs.Layouts.{LaidTree, laid_tree};
ghost use Rattle.cell_placings.specs.CellLists.{is_in, cells_at};
ghost use Rattle.cell_touches.specs.Touches.{AreSeen, IsWithin};

use crate::cell_lists::push_all;
use crate::operations::{carries_cells, is_idle, leaves_cells};
use crate::scheduled::Scheduled;
use crate::seen::seen_among;
use cell_placings::{CellSet, cells_at};
use flow_graph::{Edge, Operation};
use graph_facts::{UsedTemporaries, used};
use mutex_configs::EdgeCopy;
use row_checks::Traces;
use std::alloc::Global;
use tm_laid::{Laid, object_at};
use tm_lattice::NoMemory;

/// What the edges of a body may do with abstract cells: for each copy of an edge those that it may change by what else
/// there is, those that it carries, so changes one by one, and those at which it may look, the first among them; and
/// what states may say of cells.
#[derive(Drop)]
pub struct BodyTouches {
    pub touched: Vec<CellSet>,
    pub carried: Vec<CellSet>,
    pub looked: Vec<CellSet>,
    pub traces: Traces,
}

// The cells that a copy of an edge may change, those that it carries, and those at which it may look.
#[derive(Drop)]
struct CopyCells {
    touched: CellSet,
    carried: CellSet,
    looked: CellSet,
}

/// For each copy of an edge the cells that it may change, those that it carries, and those at which it may look.
#[derive(Drop)]
pub(crate) struct CopiesCells {
    pub(crate) touched: Vec<CellSet>,
    pub(crate) carried: Vec<CellSet>,
    pub(crate) looked: Vec<CellSet>,
}

/// What is known of a body: the cells that its edges reach, what states may say of cells, and what its locks, unlocks,
/// yields and probes carry.
#[derive(Clone, Copy)]
pub(crate) struct Known<'a> {
    pub(crate) targets: &'a [CellSet],
    pub(crate) traces: &'a Traces,
    pub(crate) scheduled: &'a Scheduled,
}

// A list of these cells.
fn listed(alloc: Global, cells: &[usize]) -> Result<Vec<usize>, NoMemory> {
    let list = Vec::from_slice(alloc, cells)?;
    Ok(list)
}

// The abstract cells of an object.
fn object_cells(alloc: Global, laid: &Laid, object: u32) -> Result<Vec<usize>, NoMemory> {
    let entry = object_at(laid, object);
    let first = entry.first_abstract as usize;
    let mut cells = Vec::new(alloc);
    for cell in first..first + entry.abstract_cells as usize {
        cells.push(cell)?;
    }
    Ok(cells)
}

// The cells of which a temporary may be a copy.
fn copied_by(traces: &Traces, temporary: Option<u32>) -> &[usize] {
    match temporary {
        None => &[],
        Some(temporary) => cells_at(&traces.copies, temporary as usize),
    }
}

// The cells of which the temporaries that an operation uses may be copies.
fn tested_cells(
    alloc: Global,
    traces: &Traces,
    used: UsedTemporaries,
) -> Result<Vec<usize>, NoMemory> {
    let mut cells = listed(alloc, copied_by(traces, used.first))?;
    push_all(&mut cells, copied_by(traces, used.second))?;
    Ok(cells)
}

// The cells that an edge of a body may change or at which it may look, by its number. Where it probes, the mutex is
// found free.
fn cells_of_edge(
    alloc: Global,
    laid: &Laid,
    known: Known,
    number: usize,
    operation: Operation,
) -> Result<Vec<usize>, NoMemory> {
    match operation {
        Operation::Load { .. } | Operation::Store { .. } => {
            listed(alloc, cells_at(known.targets, number))
        }
        Operation::Clear { object } => object_cells(alloc, laid, object),
        Operation::Usable { .. } | Operation::Assume { .. } => {
            tested_cells(alloc, known.traces, used(operation))
        }
        Operation::Lock { mutex, .. } => listed(alloc, known.scheduled.locked(mutex)),
        Operation::Unlock { mutex, .. } => listed(alloc, known.scheduled.unlocked(mutex)),
        Operation::Probe { mutex, .. } => listed(alloc, known.scheduled.found_free(mutex)),
        Operation::Yield => listed(alloc, known.traces.fresh.cells()),
        _ => Ok(Vec::new(alloc)),
    }
}

/// For each edge of a body the cells that it may change or at which it may look. Where it probes, the mutex is found
/// free.
pub(crate) fn cells_of_edges(
    alloc: Global,
    laid: &Laid,
    known: Known,
    body: usize,
    edges: &[Edge],
) -> Result<Vec<CellSet>, NoMemory>
    ensures { IfOk result (λ sets. AreSeen (laid_tree laid.now) body sets.items) }
{
    let mut sets = Vec::new(alloc);
    for number in 0..edges.len() {
        let cells = cells_of_edge(alloc, laid, known, number, edges[number].op)?;
        sets.push(seen_among(alloc, laid, body, &cells)?)?;
    }
    Ok(sets)
}

// The same cells once more.
fn copied(alloc: Global, cells: &[usize]) -> Result<CellSet, NoMemory>
    ensures { IfOk result (λ set. (x : ℕ) → is_in set x ≡ is_in cells.now x) }
{
    let list = Vec::from_slice(alloc, cells)?;
    Ok(CellSet::from_cells(list))
}

// The cells of a copy of an edge with this operation that may change these cells, or look at them.
fn cells_of_copy(
    alloc: Global,
    operation: Operation,
    answer: bool,
    cells: &[usize],
) -> Result<CopyCells, NoMemory>
    ensures within { IfOk result (λ both. IsWithin both.touched both.looked) }
    ensures among { IfOk result (λ both. IsWithin both.looked cells.now) }
    ensures carried { IfOk result (λ both. IsWithin both.carried cells.now) }
{
    if is_idle(operation, answer) {
        return Ok(CopyCells {
            touched: CellSet::new(alloc),
            carried: CellSet::new(alloc),
            looked: CellSet::new(alloc),
        });
    }
    if carries_cells(operation) {
        return Ok(CopyCells {
            touched: CellSet::new(alloc),
            carried: copied(alloc, cells)?,
            looked: CellSet::new(alloc),
        });
    }
    let looked = copied(alloc, cells)?;
    let touched = if leaves_cells(operation) {
        CellSet::new(alloc)
    } else {
        copied(alloc, cells)?
    };
    Ok(CopyCells {
        touched,
        carried: CellSet::new(alloc),
        looked,
    })
}

// The operation of an edge; that of one that there is not does nothing.
fn operation_at(edges: &[Edge], number: usize) -> Operation {
    match edges.get(number) {
        None => Operation::Skip,
        Some(edge) => edge.op,
    }
}

/// For each copy of a body's edges the cells that it may change, those that it carries and those at which it may look,
/// of the cells that the edges may change or at which they may look.
pub(crate) fn cells_of_copies(
    alloc: Global,
    edges: &[Edge],
    copies: &[EdgeCopy],
    cells: &[CellSet],
) -> Result<CopiesCells, NoMemory>
    ensures touched { IfOk result (λ all. length all.touched.items ≡ length copies.now) }
    ensures carried { IfOk result (λ all. length all.carried.items ≡ length copies.now) }
    ensures looked { IfOk result (λ all. length all.looked.items ≡ length copies.now) }
    ensures within { IfOk result (λ all. (k : ℕ) → IsWithin (cells_at all.touched.items k) (cells_at all.looked.items k)) }
    ensures seen { IfOk result (λ all. (laid : LaidTree) (body : ℕ) → AreSeen laid body cells.now
        → AreSeen laid body all.looked.items) }
    ensures seen_carried { IfOk result (λ all. (laid : LaidTree) (body : ℕ) → AreSeen laid body cells.now
        → AreSeen laid body all.carried.items) }
{
    let mut touched = Vec::new(alloc);
    let mut carried = Vec::new(alloc);
    let mut looked = Vec::new(alloc);
    for copy in copies {
        let both = cells_of_copy(
            alloc,
            operation_at(edges, copy.edge),
            copy.answer,
            cells_at(cells, copy.edge),
        )?;
        touched.push(both.touched)?;
        carried.push(both.carried)?;
        looked.push(both.looked)?;
    }
    Ok(CopiesCells {
        touched,
        carried,
        looked,
    })
}
