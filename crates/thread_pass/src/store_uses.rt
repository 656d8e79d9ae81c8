//! Which edges of a task look into the store, and which add to it. A pass that goes on from an earlier table applies
//! the former alone, until a node rises; and what the others contribute is nothing.
ghost use Rattle.std.specs.Prelude.{◌≡◌, ◌<◌, length, map, IfOk};
ghost use Rattle.program_equality.specs.program_equations.Programs.{body_at};
ghost use Rattle.program_systems.specs.ReadPrograms.{program_of};
ghost use Rattle.thread_pass.specs.StoreUses.{adds_along, adds_to_store, reads_along, reads_store, AreUses};

use crate::analyses::Analysis;
use flow_graph::{Edge, Operation};
use mutex_configs::EdgeCopy;
use std::alloc::Global;
use tm_lattice::NoMemory;

/// Of each copy of a task's edges whether it looks into the store, and whether it adds to it.
#[derive(Drop)]
pub(crate) struct StoreUses {
    pub(crate) reads: Vec<bool>,
    pub(crate) adds: Vec<bool>,
}

/// The uses of the store by the edges of a task. Condition: there is such a task.
pub(crate) fn store_uses(
    alloc: Global,
    analysis: &Analysis,
    task: u32,
) -> Result<StoreUses, NoMemory>
    requires { task < analysis.now.tasks }
    ensures { IfOk result (λ uses. AreUses (body_at (program_of analysis.now) task) uses.reads.items uses.adds.items) }
{
    let edges = &analysis.program.graphs.graphs[task as usize].edges;
    let copies = &analysis.program.configured[task as usize].copies;
    Ok(StoreUses {
        reads: readers(alloc, edges, copies)?,
        adds: adders(alloc, edges, copies)?,
    })
}

// Of each copy whether it looks into the store.
fn readers(alloc: Global, edges: &[Edge], copies: &[EdgeCopy]) -> Result<Vec<bool>, NoMemory>
    ensures { IfOk result (λ marks. marks.items ≡ map (reads_along edges.now) copies.now) }
{
    let mut marks = Vec::new(alloc);
    for copy in copies {
        marks.push(reads_along(edges, *copy))?;
    }
    Ok(marks)
}

// Whether a copy of an edge looks into the store.
#[tactic(auto, unfolding(crate::specs::StoreUses::reads_store))]
fn reads_along(edges: &[Edge], copy: EdgeCopy) -> bool
    ensures { result ≡ reads_along edges.now copy }
{
    match edges.get(copy.edge) {
        None => false,
        Some(edge) => reads_store(edge.op),
    }
}

// Of each copy whether it adds to the store.
fn adders(alloc: Global, edges: &[Edge], copies: &[EdgeCopy]) -> Result<Vec<bool>, NoMemory>
    ensures { IfOk result (λ marks. marks.items ≡ map (adds_along edges.now) copies.now) }
{
    let mut marks = Vec::new(alloc);
    for copy in copies {
        marks.push(adds_along(edges, *copy))?;
    }
    Ok(marks)
}

// Whether a copy of an edge adds to the store.
#[tactic(auto, unfolding(crate::specs::StoreUses::adds_to_store))]
fn adds_along(edges: &[Edge], copy: EdgeCopy) -> bool
    ensures { result ≡ adds_along edges.now copy }
{
    match edges.get(copy.edge) {
        None => false,
        Some(edge) => adds_to_store(edge.op),
    }
}

// Whether what the operation brings depends on the store.
#[tactic(auto, unfolding(crate::specs::StoreUses::reads_store))]
fn reads_store(operation: Operation) -> bool
    ensures { result ≡ reads_store operation }
{
    matches!(
        operation,
        Operation::Load { .. } | Operation::Lock { .. } | Operation::Probe { .. }
    )
}

// Whether the operation adds to the store.
#[tactic(auto, unfolding(crate::specs::StoreUses::adds_to_store))]
fn adds_to_store(operation: Operation) -> bool
    ensures { result ≡ adds_to_store operation }
{
    matches!(
        operation,
        Operation::Store { .. } | Operation::Unlock { .. }
    )
}
