// What may hold a worker back between its steps.

/// Is told when a worker begins a task and when it has ended it, and may let the worker wait there.
/// It has no content and cannot fail.
pub trait Gate: Send + Sync {
    /// The worker has taken the task, and has not yet begun to compute.
    fn began(&self, worker: u32, task: u32);

    /// The worker has computed its result for the task, and has not yet published it.
    fn ended(&self, worker: u32, task: u32);
}

/// A gate at which no one waits.
#[derive(Clone, Copy, PartialEq, Eq, Debug)]
pub struct OpenGate;

impl Gate for OpenGate {
    fn began(&self, _worker: u32, _task: u32) {}

    fn ended(&self, _worker: u32, _task: u32) {}
}
