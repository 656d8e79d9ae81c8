//! The operations of an expression whose values are computed again.
use alarm_contexts::ContextEdge;
use flow_graph::Operation;
use graph_facts::used;
use std::alloc::Global;
use tm_lattice::NoMemory;
use value_origins::{Analysed, Use, only_giver, operation_at};

// Of how many operations of an expression the operands are looked at.
const MOST_PARTS: usize = 24;

/// An operation that gives a temporary, and the edge that uses this.
#[derive(Clone, Copy, PartialEq, Eq, PartialOrd, Ord)]
pub(crate) struct Part {
    pub(crate) giver: usize,
    pub(crate) user: usize,
    pub(crate) temp: u32,
}

// Whether what an operation gives is computed again.
fn is_part(operation: Operation) -> bool {
    match operation {
        Operation::Copy { .. }
        | Operation::Convert { .. }
        | Operation::Un { .. }
        | Operation::Bin { .. }
        | Operation::Load { .. } => true,
        _ => false,
    }
}

// Whether the operation gives what it computes of its operands alone.
fn is_inner(operation: Operation) -> bool {
    match operation {
        Operation::Load { .. } => false,
        _ => true,
    }
}

// Adds the operation that gives a temporary, if it is computed again.
fn add_giver(
    analysed: Analysed<'_>,
    edge: ContextEdge,
    temp: Option<u32>,
    parts: &mut Vec<Part>,
) -> Result<(), NoMemory> {
    let Some(temp) = temp else {
        return Ok(());
    };
    let Some(giver) = only_giver(analysed, Use { edge, temp }) else {
        return Ok(());
    };
    let at = ContextEdge {
        body: edge.body,
        edge: giver,
    };
    if is_part(operation_at(analysed, at)) {
        let part = Part {
            giver,
            user: edge.edge,
            temp,
        };
        parts.push(part)?;
    }
    Ok(())
}

// Adds the operations that give the operands of an edge, if they are computed again.
fn add_givers(
    analysed: Analysed<'_>,
    edge: ContextEdge,
    parts: &mut Vec<Part>,
) -> Result<(), NoMemory> {
    let operation = operation_at(analysed, edge);
    if is_inner(operation) {
        let temps = used(operation);
        add_giver(analysed, edge, temps.first, parts)?;
        add_giver(analysed, edge, temps.second, parts)?;
    }
    Ok(())
}

/// The operations that give the operands of an edge and their operands, each before those that use it. Of long
/// expressions those that stand deepest are left out.
pub(crate) fn parts_of(
    alloc: Global,
    analysed: Analysed<'_>,
    edge: ContextEdge,
) -> Result<Vec<Part>, NoMemory> {
    let mut parts: Vec<Part> = Vec::new(alloc);
    add_givers(analysed, edge, &mut parts)?;
    for number in 0..MOST_PARTS {
        if let Some(part) = parts.get(number).copied() {
            let at = ContextEdge {
                body: edge.body,
                edge: part.giver,
            };
            add_givers(analysed, at, &mut parts)?;
        }
    }
    parts.sort()?;
    parts.dedup();
    Ok(parts)
}
