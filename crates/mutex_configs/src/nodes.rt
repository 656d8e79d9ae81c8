//! Nodes of a configured graph and copies of edges, as plain data.
use indexmap::IndexSet;

/// A place of a body, with the mutexes that the task holds there and those that it has found free and may still count
/// on, as sets of at most sixteen: bit m stands for the mutex with the number m.
#[derive(Clone, Copy, PartialEq, Eq, PartialOrd, Ord, Hash)]
pub struct ConfiguredNode {
    pub place: u32,
    pub held: u16,
    pub found: u16,
}

/// A copy of an edge of a body's graph.
#[derive(Clone, Copy)]
pub struct EdgeCopy {
    /// The number of the edge.
    pub edge: usize,
    /// The number of the node that it leaves.
    pub from: u32,
    /// What a probe answers: whether some task holds the mutex. No other operation looks at it.
    pub answer: bool,
    /// The number of the node to which it leads; none where the task would lock a mutex that it holds, unlock one that
    /// it does not hold, or find one free that it holds.
    pub to: Option<u32>,
}

/// The configured graph of a body.
pub struct ConfiguredGraph {
    /// The nodes that are reached, by rising place, then held set, then found set; each with its number, which is its
    /// index.
    pub nodes: IndexSet<ConfiguredNode>,
    /// For each edge in order its copies, in the order of the nodes that they leave; of a probe first the answer that
    /// the mutex is held.
    pub copies: Vec<EdgeCopy>,
}

// By hand: a function that lets one go calls this, and its check does not go through the fields.
impl Drop for ConfiguredGraph {
    fn drop(self) {
        let ConfiguredGraph {
            nodes: _nodes,
            copies: _copies,
        } = self;
    }
}
