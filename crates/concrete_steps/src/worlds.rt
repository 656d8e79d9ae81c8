//! What worlds are made of: contents of cells, standings of tasks, choices and what they lead to.
use concrete_values::Value;
use tm_cint::Class;
use tm_terms::Place;

/// What a cell holds: a value, or it is open, where each read gives any value of its integer type.
#[derive(Clone, Copy)]
pub enum Content {
    Open,
    Is(Value),
}

/// Where a task stands.
#[derive(Clone, Copy)]
pub enum Status {
    /// It waits to be woken.
    Waiting,
    /// It may run where no task that is ready is more urgent.
    Ready,
    /// It waits for a mutex that another task holds.
    Blocked(u32),
    /// Its body is at its end.
    Done,
}

/// A choice of a run: a task is woken, or it runs with this number, which is 0 where its action leaves nothing open.
#[derive(Clone, Copy)]
pub enum Choice {
    Wake { task: u32 },
    Run { task: u32, value: i128 },
}

/// What a choice led to.
#[derive(Clone, Copy)]
pub enum Stepped {
    Done,
    NotAllowed,
    Stopped { class: Class, place: Place },
}
