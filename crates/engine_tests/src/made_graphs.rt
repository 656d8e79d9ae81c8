//! Graphs by hand, and whether they can be configured.
ghost use Rattle.std.specs.Prelude.{◌≡◌, IsTrue, All, IfOk};
ghost use Rattle.mutex_configs.specs.Graphs.{IsGraph};
ghost use Rattle.mutex_configs.specs.Sets.{IsOfSixteen};
ghost use Rattle.engine_tests.specs.Checks.{IsEdge};

use concrete_values::Value;
use flow_graph::{Edge, Graph, Operation, Test};
use std::alloc::Global;
use std::test::Fail;
use tm_terms::Place;

const PLACE: Place = Place { line: 1, col: 1 };

/// An operation by its letter, on a mutex: a lock, an unlock, a probe, a yield, or nothing.
pub fn operation(letter: u8, mutex: u32) -> Operation {
    match letter {
        b'L' => Operation::Lock {
            mutex,
            place: PLACE,
        },
        b'U' => Operation::Unlock {
            mutex,
            place: PLACE,
        },
        b'P' => Operation::Probe {
            to: 0,
            mutex,
            place: PLACE,
        },
        b'Y' => Operation::Yield,
        b'T' => Operation::Assume {
            test: Test::Truth {
                holds: true,
                value: 0,
            },
        },
        b'F' => Operation::Assume {
            test: Test::Truth {
                holds: false,
                value: 0,
            },
        },
        b'C' => Operation::Const {
            to: 0,
            value: Value::Number(1),
        },
        _ => Operation::Skip,
    }
}

// Whether a mutex that an operation names is one of sixteen.
#[tactic(auto, unfolding(mutex_configs::specs::Sets::IsOfSixteen))]
fn is_of_sixteen(op: Operation) -> bool
    ensures { IsTrue result → IsOfSixteen op }
{
    match op {
        Operation::Lock { mutex, .. } => mutex < 16,
        Operation::Unlock { mutex, .. } => mutex < 16,
        Operation::Probe { mutex, .. } => mutex < 16,
        _ => true,
    }
}

fn is_edge(edge: Edge, nodes: u32) -> bool
    ensures { IsTrue result → IsEdge nodes edge }
{
    edge.from < nodes && edge.to < nodes && is_of_sixteen(edge.op)
}

fn are_edges(edges: &[Edge], nodes: u32) -> bool
    ensures { IsTrue result → All (IsEdge nodes) edges.now }
{
    for edge in edges {
        if !is_edge(*edge, nodes) {
            return false;
        }
    }
    true
}

/// Whether a graph can be configured.
pub fn is_graph(graph: &Graph) -> bool
    ensures { IsTrue result → IsGraph graph.now }
{
    graph.nodes > 0 && are_edges(&graph.edges, graph.nodes)
}

// So many edges in a row from a place on, and the place where they end. (The list is filled by reference: each way out of
// a function that owns one has a proof of how it is let go.)
fn push_row(edges: &mut Vec<Edge>, from: u32, count: u32) -> Result<u32, Fail> {
    let mut at = from;
    for _ in 0..count {
        edges.push(edge(at, at.wrapping_add(1), b'S'))?;
        at = at.wrapping_add(1);
    }
    Ok(at)
}

// Two ways from a place on, of which one locks the mutex 0, and the place where they meet.
fn push_fork(edges: &mut Vec<Edge>, at: u32) -> Result<u32, Fail> {
    edges.push(edge(at, at.wrapping_add(1), b'T'))?;
    edges.push(edge(at, at.wrapping_add(2), b'F'))?;
    edges.push(edge(at.wrapping_add(1), at.wrapping_add(3), b'L'))?;
    edges.push(edge(at.wrapping_add(2), at.wrapping_add(3), b'S'))?;
    Ok(at.wrapping_add(3))
}

// The edges of a graph in a row, and its last place.
fn push_all(edges: &mut Vec<Edge>, before: u32, forked: bool, places: u32) -> Result<u32, Fail> {
    let mut at = push_row(edges, 0, before)?;
    if forked {
        at = push_fork(edges, at)?;
    }
    push_row(edges, at, places.saturating_sub(1))
}

/// A graph that begins with so many edges in a row; then, where `forked`, two ways of which one locks the mutex 0, and
/// which meet; and from there so many places in a row.
pub fn in_a_row(alloc: Global, before: u32, forked: bool, places: u32) -> Result<Graph, Fail> {
    let mut edges = Vec::new(alloc);
    let last = push_all(&mut edges, before, forked, places)?;
    Ok(Graph {
        body: 0,
        nodes: last.wrapping_add(1),
        edges,
    })
}

/// An edge with an operation on the mutex 0.
pub fn edge(from: u32, to: u32, letter: u8) -> Edge {
    Edge {
        from,
        to,
        op: operation(letter, 0),
    }
}
