//! What single edges do to the state of their task, as code: the state where an edge leads, what it adds to the store
//! of interferences, which abstract cells it reaches, and which classes of errors it does not exclude. Here are the
//! edges that do nothing, give a temporary without a look at memory, or load; those that test, store, clear or use
//! mutexes stand in crates of their own. They know no graph and no table of states.
//!
//! An edge that loads by an address that leads to the shared cell `x` alone, where the task knows {1} there and sees
//! {2} of another task, leads to a state in which the temporary is {1, 2} and a copy of `x`; it reaches `x`, and adds
//! nothing to the store.
#![tactic(auto)]

mod givings;
mod loads;
mod temps;
mod views;

pub use calculations::{
    Calculated, Followed, compared, complemented, converted, copied, dereferenced, element, moved,
    negated, no_classes, numbers_assumed, numbers_of, operated, part, pointers_assumed,
    pointers_of, usable, value_of,
};
pub use edge_actions::{EdgeView, is_reachable, is_shared_cell, open_cell};
pub use givings::{give, pointer_value, skip};
pub use loads::{load, load_any, reached};
pub use temps::{Ending, arrived_state, given_state, live_temps, with_temp, with_temps};
pub use views::{After, plain};
