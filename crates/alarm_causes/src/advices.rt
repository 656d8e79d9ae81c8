//! What is advised on an alarm.
use tm_terms::Place;

/// How many steps a way has at most.
pub const LONGEST: usize = 24;

/// What a step of a way back comes to.
#[derive(Clone, Copy, PartialEq, Eq)]
pub enum StepKind {
    /// A load.
    Load,
    /// A store to a cell that was loaded.
    Store,
    /// An operator that computes the values.
    Computed,
    /// An edge at which the way has been.
    Loop,
    /// An edge at which another alarm stands.
    Alarm,
    /// Any value of a type: an input, or the result of a function that ends without `return`.
    Input,
    /// A load of a volatile object.
    Volatile,
    /// A load of a local object that may never have been stored.
    Open,
    /// A load of what an object of static storage holds before the program runs.
    Initial,
    /// The result of a function that ends without `return`, a pointer.
    Unset,
    /// A constant.
    Constant,
    /// Whether a task holds a mutex.
    IsLocked,
    /// The address of an object.
    Address,
}

/// A step of a way back, with the values that go from there to the step before it.
#[derive(Clone, Copy)]
pub struct Step {
    pub kind: StepKind,
    /// Where its operation stands in the source; none of one at which no error and no access may stand, as a constant.
    pub place: Option<Place>,
    /// The number of its body: a task by its number, the initial section behind them.
    pub task: u32,
    /// The least and the greatest of its numbers; none where it has no number.
    pub bounds: Option<(i128, i128)>,
    /// Whether the null pointer is among its values.
    pub null: bool,
    /// Whether the invalid pointer is among its values.
    pub invalid: bool,
    /// The least of the numbers of the abstract cells that are loaded; none of a step that neither loads nor stores.
    pub cell: Option<u32>,
    /// The number of the object of that cell.
    pub object: Option<u32>,
}

/// What is found at the end of a way.
#[derive(Clone, Copy, PartialEq, Eq)]
pub enum Cause {
    /// The values that go wrong come in by the store of another task, after this task has looked.
    Interference,
    /// The way came back to itself: a value that changes from turn to turn.
    Loop,
    /// There stands another alarm, which is to be mended first.
    Alarm,
    /// An input, or the result of a function that ends without `return`, a number.
    Input,
    /// A volatile object.
    Volatile,
    /// A local object that may never have been stored.
    Open,
    /// The result of a function that ends without `return`, a pointer.
    Unset,
    /// The null pointer, as a constant.
    Null,
    /// What an object holds before the program runs, and no store.
    Initial,
    /// None of these.
    Values,
}

/// What is advised on an alarm.
#[derive(Drop)]
pub struct Advice {
    /// The position of the operand to blame among those of the alarm; none where it has none, as one of locks.
    pub blamed: Option<usize>,
    pub cause: Cause,
    /// Of interference the position of the group with the races by which the values come in, if there is one.
    pub race: Option<usize>,
    /// The way back from the operand to blame, at most 24 steps.
    pub trace: Vec<Step>,
}
