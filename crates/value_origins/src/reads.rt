//! The cells that loads and stores reach.
use crate::bodies::{Analysed, copies_at, node_before, state_before};
use crate::extents::{Extent, extent_of, joined, no_extent};
use alarm_contexts::ContextEdge;
use cell_env::State;
use edge_actions::{Targets, is_shared_cell, targets_at};
use pointer_dom::AbsValue;
use std::alloc::Global;
use tm_laid::Scalar;
use tm_lattice::NoMemory;

/// An access of an edge to cells of a scalar type, at the address that a temporary has, told by its number.
#[derive(Clone, Copy)]
pub struct Access {
    pub edge: ContextEdge,
    pub address: u32,
    pub scalar: Scalar,
}

// The abstract cells that an access reaches in a state.
fn targets_in(
    alloc: Global,
    analysed: Analysed<'_>,
    access: Access,
    state: &State<AbsValue>,
) -> Result<Targets, NoMemory> {
    let Some(entry) = state.temp(access.address) else {
        return Ok(Targets::new(alloc));
    };
    let Some(pointers) = entry.value.pointers() else {
        return Ok(Targets::new(alloc));
    };
    let laid = &analysed.program.laid;
    targets_at(alloc, laid, access.edge.body, access.scalar, pointers)
}

// Adds the abstract cells that an access reaches in a state.
fn add_targets(
    alloc: Global,
    analysed: Analysed<'_>,
    access: Access,
    state: &State<AbsValue>,
    cells: &mut Vec<u32>,
) -> Result<(), NoMemory> {
    let targets = targets_in(alloc, analysed, access, state)?;
    cells.extend_from_slice(targets.as_slice())?;
    Ok(())
}

/// The numbers of the abstract cells that an access reaches, rising, each once. The only error is want of memory.
pub fn cells_at(
    alloc: Global,
    analysed: Analysed<'_>,
    access: Access,
) -> Result<Vec<u32>, NoMemory> {
    let (first, end) = copies_at(analysed, access.edge);
    let mut cells = Vec::new(alloc);
    for copy in first..end {
        if let Some(state) = state_before(analysed, access.edge.body, copy) {
            add_targets(alloc, analysed, access, state, &mut cells)?;
        }
    }
    cells.sort()?;
    cells.dedup();
    Ok(cells)
}

// The body's own values of some cells in a state.
fn own_values(state: &State<AbsValue>, cells: &[u32]) -> Extent {
    let mut all = no_extent();
    for cell in cells {
        if let Some(entry) = state.cell(*cell) {
            all = joined(&all, &extent_of(&entry.value));
        }
    }
    all
}

/// The body's own values of the cells that a load reaches, without what other tasks may store meanwhile. The only error
/// is want of memory.
pub fn own_loaded(alloc: Global, analysed: Analysed<'_>, load: Access) -> Result<Extent, NoMemory> {
    let (first, end) = copies_at(analysed, load.edge);
    let mut all = no_extent();
    for copy in first..end {
        if let Some(state) = state_before(analysed, load.edge.body, copy) {
            let targets = targets_in(alloc, analysed, load, state)?;
            all = joined(&all, &own_values(state, targets.as_slice()));
        }
    }
    Ok(all)
}

// Whether a cell of a local object may never have been stored.
fn is_open_in(analysed: Analysed<'_>, state: &State<AbsValue>, cell: u32) -> bool {
    match state.cell(cell) {
        None => false,
        Some(entry) => !entry.stored && !is_shared_cell(&analysed.program.laid, cell),
    }
}

// Whether one of some cells is such a one.
fn has_open(analysed: Analysed<'_>, state: &State<AbsValue>, cells: &[u32]) -> bool {
    for cell in cells {
        if is_open_in(analysed, state, *cell) {
            return true;
        }
    }
    false
}

/// Whether one of some cells is of a local object and may never have been stored before an edge.
pub fn may_be_open(analysed: Analysed<'_>, edge: ContextEdge, cells: &[u32]) -> bool {
    let (first, end) = copies_at(analysed, edge);
    for copy in first..end {
        if let Some(state) = state_before(analysed, edge.body, copy) {
            if has_open(analysed, state, cells) {
                return true;
            }
        }
    }
    false
}

/// Whether a cell is fresh in all states before an edge.
pub(crate) fn is_fresh(analysed: Analysed<'_>, edge: ContextEdge, cell: u32) -> bool {
    let (first, end) = copies_at(analysed, edge);
    for copy in first..end {
        if let Some(state) = state_before(analysed, edge.body, copy) {
            if let Some(entry) = state.cell(cell) {
                if !entry.fresh {
                    return false;
                }
            }
        }
    }
    true
}

/// The mutexes that a body holds, and those that it has found free, on each way to an edge; as bits.
#[derive(Clone, Copy)]
pub(crate) struct Mutexes {
    pub(crate) held: u16,
    pub(crate) found: u16,
}

// With those of one more node.
fn with_node(analysed: Analysed<'_>, body: u32, node: u32, before: Mutexes) -> Mutexes {
    match analysed.program.configured.get(body as usize) {
        None => before,
        Some(configured) => match configured.nodes.as_slice().get(node as usize) {
            None => before,
            Some(found) => Mutexes {
                held: before.held & found.held,
                found: before.found & found.found,
            },
        },
    }
}

/// Those of an edge.
pub(crate) fn mutexes_at(analysed: Analysed<'_>, edge: ContextEdge) -> Mutexes {
    let (first, end) = copies_at(analysed, edge);
    let mut all = Mutexes {
        held: u16::MAX,
        found: u16::MAX,
    };
    for copy in first..end {
        if let Some(node) = node_before(analysed, edge.body, copy) {
            all = with_node(analysed, edge.body, node, all);
        }
    }
    all
}
