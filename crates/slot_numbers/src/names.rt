//! What numbers stand for.

/// A variable: what its value says something of.
#[derive(Clone, Copy)]
pub enum Variable {
    /// The front of a node.
    Front(usize),
    /// Whether an edge is open.
    Open(usize),
    /// What stands at a cell at a node that owns it.
    Slot {
        /// The node.
        node: usize,
        /// The cell.
        cell: usize,
    },
}

/// A constraint: what brings values to variables.
#[derive(Clone, Copy)]
pub enum Rule {
    /// What stands at the entry comes there.
    Entered,
    /// An edge brings what it leads to.
    Row(usize),
    /// A cell passes an edge that does not touch it, to an end that owns it.
    Flow {
        /// The edge.
        edge: usize,
        /// The cell.
        cell: usize,
    },
}

/// A cell at a node that owns it.
#[derive(Clone, Copy)]
pub struct OwnedCell {
    /// The node.
    pub node: usize,
    /// The cell.
    pub cell: usize,
}

/// A cell that passes an edge.
#[derive(Clone, Copy)]
pub struct FlowingCell {
    /// The edge.
    pub edge: usize,
    /// The cell.
    pub cell: usize,
}
