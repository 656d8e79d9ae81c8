//! Numbers of what may hold pointers.

use crate::operations::temporaries_in;
use flow_graph::Graph;
use std::alloc::Global;
use tm_lattice::NoMemory;

/// Numbers of what may hold pointers: the temporaries of all bodies, body by body, then the groups of cells.
#[derive(Drop)]
pub(crate) struct Holders {
    // For each body its first temporary.
    firsts: Vec<usize>,
    first_group: usize,
    count: usize,
}

// The sum, unless it is beyond all numbers.
fn sum(one: usize, other: usize) -> Result<usize, NoMemory> {
    match one.checked_add(other) {
        None => Err(NoMemory),
        Some(sum) => Ok(sum),
    }
}

/// The numbers of the temporaries of these graphs, and of so many groups.
pub(crate) fn holders_of(
    alloc: Global,
    graphs: &[Graph],
    groups: usize,
) -> Result<Holders, NoMemory> {
    let mut firsts = Vec::new(alloc);
    let mut count = 0;
    for graph in graphs {
        firsts.push(count)?;
        count = sum(count, temporaries_in(&graph.edges))?;
    }
    Ok(Holders {
        firsts,
        first_group: count,
        count: sum(count, groups)?,
    })
}

impl Holders {
    /// How many there are.
    pub(crate) fn count(&self) -> usize {
        self.count
    }

    /// The number of a temporary of a body.
    pub(crate) fn temporary(&self, body: usize, temporary: u32) -> usize {
        match self.firsts.get(body) {
            None => usize::MAX,
            Some(first) => first.saturating_add(temporary as usize),
        }
    }

    /// The number of a group.
    pub(crate) fn group(&self, group: usize) -> usize {
        self.first_group.saturating_add(group)
    }
}
