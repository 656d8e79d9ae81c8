//! The cells that the loads and stores of a body reach.

use crate::operations::{Reached, reached_by};
use crate::pointing::Pointing;
use cell_placings::CellSet;
use flow_graph::{Edge, Operation};
use std::alloc::Global;
use tm_laid::Laid;
use tm_lattice::NoMemory;

// The cells that an operation reaches, if it loads or stores.
fn targets_of(
    alloc: Global,
    laid: &Laid,
    pointing: &Pointing,
    body: usize,
    operation: Operation,
) -> Result<CellSet, NoMemory> {
    match reached_by(operation) {
        None => Ok(CellSet::new(alloc)),
        Some(Reached { address, scalar }) => {
            let cells = pointing.cells(alloc, laid, body, address, scalar)?;
            Ok(CellSet::from_cells(cells))
        }
    }
}

/// For each edge of a body the cells that it reaches, if it loads or stores.
pub(crate) fn body_targets(
    alloc: Global,
    laid: &Laid,
    pointing: &Pointing,
    body: usize,
    edges: &[Edge],
) -> Result<Vec<CellSet>, NoMemory> {
    let mut targets = Vec::new(alloc);
    for edge in edges {
        targets.push(targets_of(alloc, laid, pointing, body, edge.op)?)?;
    }
    Ok(targets)
}
