//! An edge at a configuration of its task.
use flow_graph::Operation;
use smallvec::SmallVec;
use tm_laid::Laid;

/// The abstract cells that an access reaches: mostly a few.
pub type Targets = SmallVec<u32, 4>;

/// An edge of a task's graph, with the mutexes that the task holds and found free at the node that it leaves.
#[derive(Clone, Copy)]
pub struct EdgeView<'a> {
    pub operation: Operation,
    pub task: u32,
    /// The mutexes held, as bits.
    pub held: u16,
    /// Those found free since the task last waited, as bits.
    pub found: u16,
    /// Of an edge that tests a temporary for its truth: whether it holds pointers.
    pub tests_pointer: bool,
    /// Of an edge that probes a mutex: the answer of this copy of it.
    pub answer: bool,
    pub laid: &'a Laid,
    /// The priorities of the tasks.
    pub priorities: &'a [u8],
    /// The temporaries that are live where the edge leads.
    pub live: &'a [u32],
}
