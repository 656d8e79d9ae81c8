//! The tables and the store of an analysis, as the theorem of soundness reads them: what they hold in terms of members,
//! that those of a solution of a program's equations cover each step that a task can take, that the tasks enter with
//! what memory holds, and that what the tables list is an alarm of the report. It knows the bodies of a program, their
//! configured graphs and rows; of runs it knows nothing, and it holds no code but laws.
//!
//! In `int x; __task(1) void t(void) { x = 7; }` the edge that stores 7 leaves a node whose state gives 7 to the
//! temporary that is stored. So wherever the temporaries of a run lie in that state, the state behind the edge has 7
//! among the own values of `x`, and the store has it in the weak entry of `x` under the task and no mutex.
#![tactic(auto)]

mod laws;

pub use laws::{
    listed_are_alarms, operations_mean, pairs_cover, sections_hand_over, shapes_are_lawful,
    tasks_enter,
};
