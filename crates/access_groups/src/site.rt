//! Accesses with the edges that make them.
use access_races::Access;

/// An access of a task to a cell, and the number of the edge of the task's graph that makes it.
#[derive(Clone, Copy, PartialEq, Eq)]
pub struct Site {
    pub access: Access,
    pub edge: usize,
}
