//! What each operation of a graph does to the state of a task: the state after it, or none where control does not go
//! on, what it adds to the store of interferences, which cells an access reaches, and which classes of errors are not
//! excluded. All of it is definitions, with their laws: smaller states and stores give smaller ones, and every step
//! that a task can take lies in what the rows give. It knows no graph, no layout and no code: an edge is told by
//! numbers of temporaries, of mutexes and of abstract cells.
//!
//! What the edge of a graph has to hand over: its operation as an `Action`, where an access has its list of spots,
//! which are the cells of the accessed type whose object is static or the task's own, by object, offset and abstract
//! cell; and `Around`, which is the task with its held and found sets and the priorities, which abstract cells are
//! shared and which smashed, and which temporaries are live at the node to which the edge leads. The initial section
//! has an empty store, so it hears nobody, and what it adds is left out.
//!
//! A small example: `x=v;` where the address leads to `x` alone, `x` is shared, and v is {1, 2}. The own value of `x`
//! becomes {1, 2}, the mutexes held are pending there, `x` is fresh, copies of `x` end, and {1, 2} is added to the
//! weak entry of `x` under the task and its held set.
#![tactic(auto)]

mod coverage;
mod passing;
mod rises;

pub use coverage::{
    accesses_are_covered, calculations_are_covered, classes_are_listed, clearings_are_covered,
    filters_are_covered, mutexes_are_covered, waiting_is_covered,
};
pub use passing::{accesses_pass, calculations_pass, mutexes_pass};
pub use rises::{additions, premises_are_met, reports_rise, rows_give_states, rows_rise};
