//! What the calls of the core answer.
use crate::contributions::Contribution;
use crate::snapshots::Snapshot;
use tm_lattice::Warm;

/// What a worker that asks for a task is told.
#[derive(Drop)]
pub enum Taken<P: Warm> {
    /// It is lent this task.
    Next(Snapshot<P>),
    /// It is lent the task of this number already.
    Holding(u32),
    /// Each task that is not settled is lent to another worker.
    Others,
    /// Every task is settled, and none is lent.
    AllQuiet,
}

/// What a publication did.
#[derive(Clone, Copy)]
pub struct Grew {
    /// The version since then.
    pub version: u64,
    /// Whether the store changed, and so the version rose.
    pub raised: bool,
}

/// Why nothing was published.
#[derive(Drop)]
pub enum Refused<P: Warm> {
    /// Nothing is lent to the worker.
    NotLent,
    /// What is lent to the worker is another program, task or store than what it brought.
    Stranger {
        lent: Snapshot<P>,
        brought: Contribution<P>,
    },
    /// Memory ran out.
    NoMemory,
}
