//! How what is built for a body ends.

/// A function ends in a node where control comes together; a task only where it holds a `return`.
#[derive(Clone, Copy)]
pub enum End {
    Function,
    Task,
}
