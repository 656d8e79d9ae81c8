//! Graphs of bodies.
use crate::operations::Operation;

/// An edge between two nodes, with its operation.
#[derive(Clone, Copy)]
pub struct Edge {
    pub from: u32,
    pub to: u32,
    pub op: Operation,
}

/// The graph of a body, by the number of that body: how many nodes it has, and its edges in order. A run begins at
/// node 0.
pub struct Graph {
    pub body: u32,
    pub nodes: u32,
    pub edges: Vec<Edge>,
}

// By hand: a function that lets one go calls this, and its check does not go through the fields.
impl Drop for Graph {
    fn drop(self) {
        let Graph {
            body: _body,
            nodes: _nodes,
            edges: _edges,
        } = self;
    }
}

/// For each body its graph, in the order of the bodies.
#[derive(Drop)]
pub struct Graphs {
    pub graphs: Vec<Graph>,
}
