//! What happened to the shared store.
use std::sync::Arc;
use tm_lattice::Passer;

/// What happened to the shared store. Workers and tasks are numbered from 0, versions count from 0.
#[derive(Drop)]
pub enum Event<P: Passer> {
    /// The worker was lent the task at this version.
    Read {
        worker: u32,
        task: u32,
        version: u64,
    },
    /// The worker published what the task adds to this version, and `after` is the version since then.
    Publish {
        worker: u32,
        task: u32,
        version: u64,
        after: u64,
        added: Arc<P::Store>,
    },
}
