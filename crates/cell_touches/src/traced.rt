//! What the states of a body may say of its cells: of which of them temporaries are copies, which are fresh, and which
//! mutexes are pending.

use crate::cell_lists::{add_mutexes, mutexes_at, no_mutexes, push_all};
use crate::operations::{is_store, loaded_by, temporaries_in};
use cell_placings::{CellSet, cells_at, sets_of};
use edge_actions::is_shared_cell;
use flow_graph::Edge;
use mutex_configs::ConfiguredGraph;
use row_checks::Traces;
use std::alloc::Global;
use tm_laid::Laid;
use tm_lattice::NoMemory;

// So many empty lists.
fn no_lists(alloc: Global, count: usize) -> Result<Vec<Vec<usize>>, NoMemory> {
    let mut lists = Vec::new(alloc);
    for _ in 0..count {
        lists.push(Vec::new(alloc))?;
    }
    Ok(lists)
}

// For each temporary the cells that its loads reach.
fn loaded_cells(
    alloc: Global,
    edges: &[Edge],
    targets: &[CellSet],
) -> Result<Vec<Vec<usize>>, NoMemory> {
    let mut lists = no_lists(alloc, temporaries_in(edges))?;
    for number in 0..edges.len() {
        if let Some(temporary) = loaded_by(edges[number].op) {
            if let Some(list) = lists.get_mut(temporary as usize) {
                push_all(list, cells_at(targets, number))?;
            }
        }
    }
    Ok(lists)
}

// Marks cells.
fn mark_all(marks: &mut [bool], cells: &[usize]) {
    for cell in cells {
        if *cell < marks.len() {
            marks[*cell] = true;
        }
    }
}

// The cells that are marked.
fn marked(alloc: Global, marks: &[bool]) -> Result<CellSet, NoMemory> {
    let mut cells = Vec::new(alloc);
    for cell in 0..marks.len() {
        if marks[cell] {
            cells.push(cell)?;
        }
    }
    Ok(CellSet::from_cells(cells))
}

// The cells that the stores of a body reach.
fn stored_cells(
    alloc: Global,
    laid: &Laid,
    edges: &[Edge],
    targets: &[CellSet],
) -> Result<CellSet, NoMemory> {
    let mut marks = vec![in alloc; false; laid.abstract_cells.len()]?;
    for number in 0..edges.len() {
        if is_store(edges[number].op) {
            mark_all(&mut marks, cells_at(targets, number));
        }
    }
    marked(alloc, &marks)
}

// For each edge the mutexes that may be held where it begins.
fn held_sets(
    alloc: Global,
    edges: &[Edge],
    configured: &ConfiguredGraph,
) -> Result<Vec<u16>, NoMemory> {
    let mut held = no_mutexes(alloc, edges.len())?;
    for copy in &configured.copies {
        if let Some(node) = configured.nodes.get_index(copy.from as usize) {
            add_mutexes(&mut held, copy.edge, node.held);
        }
    }
    Ok(held)
}

// Adds mutexes at those of some cells that are shared.
fn add_pending(laid: &Laid, pending: &mut [u16], cells: &[usize], held: u16) {
    for cell in cells {
        if let Ok(number) = u32::try_from(*cell) {
            if is_shared_cell(laid, number) {
                add_mutexes(pending, *cell, held);
            }
        }
    }
}

/// For each abstract cell the mutexes that may be pending there: those held at stores that reach it.
pub(crate) fn pending_sets(
    alloc: Global,
    laid: &Laid,
    edges: &[Edge],
    configured: &ConfiguredGraph,
    targets: &[CellSet],
) -> Result<Vec<u16>, NoMemory> {
    let held = held_sets(alloc, edges, configured)?;
    let mut pending = no_mutexes(alloc, laid.abstract_cells.len())?;
    for number in 0..edges.len() {
        let mutexes = mutexes_at(&held, number);
        if is_store(edges[number].op) && mutexes != 0 {
            add_pending(laid, &mut pending, cells_at(targets, number), mutexes);
        }
    }
    Ok(pending)
}

/// What the states of a body may say of its cells, where its edges reach these.
pub(crate) fn body_traces(
    alloc: Global,
    laid: &Laid,
    edges: &[Edge],
    configured: &ConfiguredGraph,
    targets: &[CellSet],
) -> Result<Traces, NoMemory> {
    Ok(Traces {
        copies: sets_of(alloc, loaded_cells(alloc, edges, targets)?)?,
        fresh: stored_cells(alloc, laid, edges, targets)?,
        pending: pending_sets(alloc, laid, edges, configured, targets)?,
    })
}
