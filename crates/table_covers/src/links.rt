//! The edges of a graph.

/// An edge from a node to a node.
#[derive(Clone, Copy)]
pub struct Link {
    /// The node that it leaves.
    pub from: usize,
    /// The node to which it leads.
    pub to: usize,
}
