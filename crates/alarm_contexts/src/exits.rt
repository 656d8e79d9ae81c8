//! Copies of edges at which classes are not excluded.
use tm_terms::Alarm;

/// A copy of an edge out of a node that is reached.
#[derive(Clone, Copy, PartialEq, Eq, PartialOrd, Ord)]
pub(crate) struct Exit {
    /// The number of the body.
    pub(crate) body: u32,
    /// The number of the edge in the graph of the body.
    pub(crate) edge: usize,
    /// The number of the copy.
    pub(crate) copy: usize,
    /// Whether control does not go on behind it.
    pub(crate) ends: bool,
}

/// An alarm whose class is not excluded at a copy of an edge.
#[derive(Clone, Copy, PartialEq, Eq, PartialOrd, Ord)]
pub(crate) struct Context {
    pub(crate) alarm: Alarm,
    pub(crate) exit: Exit,
}
