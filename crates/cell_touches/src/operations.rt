//! What operations do with cells, as far as it does not depend on where pointers lead.

use flow_graph::{Edge, Operation};
use graph_facts::given;
use tm_laid::Scalar;

/// An access to cells of a type, by the temporary with its address.
#[derive(Clone, Copy)]
pub(crate) struct Reached {
    pub(crate) address: u32,
    pub(crate) scalar: Scalar,
}

/// The access of a load or a store. A load of a volatile cell does not look at it.
pub(crate) fn reached_by(operation: Operation) -> Option<Reached> {
    match operation {
        Operation::Load {
            address,
            scalar,
            ..
        }
        | Operation::Store {
            address,
            scalar,
            ..
        } => Some(Reached { address, scalar }),
        _ => None,
    }
}

/// One more than the greatest temporary that edges give; 0 where they give none.
pub(crate) fn temporaries_in(edges: &[Edge]) -> usize {
    let mut count = 0;
    for edge in edges {
        if let Some(temporary) = given(edge.op) {
            count = count.max(temporary as usize + 1);
        }
    }
    count
}

/// The temporary for which an operation loads.
pub(crate) fn loaded_by(operation: Operation) -> Option<u32> {
    match operation {
        Operation::Load { to, .. } => Some(to),
        _ => None,
    }
}

/// Whether an operation stores.
pub(crate) fn is_store(operation: Operation) -> bool {
    matches!(operation, Operation::Store { .. })
}

/// Whether the copy of an edge with this answer does nothing to cells: it probes a mutex and finds it held.
pub(crate) fn is_idle(operation: Operation, answer: bool) -> bool {
    match operation {
        Operation::Probe { .. } => answer,
        _ => false,
    }
}

/// Whether an operation changes each cell by itself, whatever stands in others and in temporaries.
pub(crate) fn carries_cells(operation: Operation) -> bool {
    matches!(
        operation,
        Operation::Lock { .. }
            | Operation::Unlock { .. }
            | Operation::Yield
            | Operation::Probe { .. }
    )
}

/// Whether an operation leaves the cells at which it looks.
pub(crate) fn leaves_cells(operation: Operation) -> bool {
    matches!(operation, Operation::Load { .. })
}
