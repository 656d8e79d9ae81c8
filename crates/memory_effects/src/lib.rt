//! What the edges that change cells do to the state of their task, as code: stores, clearings, locks, unlocks, waits,
//! and probes, which ask whether a mutex is held. Each gives the state where it leads, what it adds to the store of
//! interferences, the abstract cells that it reaches, and the classes of errors that it does not exclude. Cells that
//! an edge leaves as they are stay shared with the state before it. It knows no graph and no table of states.
//!
//! A task that holds mutex 0 stores {3} by an address that leads to the shared cell `x` alone, where it knew {1}: it
//! knows {3} there, `x` is fresh and mutex 0 pending at it, temporaries are no longer copies of `x`, and {3} is added
//! to the weak entry of `x` under the task and the set {0}. Where the address leads to `x` and `y`, each of both is
//! joined with {3}, and so it is {1, 3} that the task knows of `x`. When the task then unlocks mutex 0, what it knows
//! of the cells where this mutex is pending is added to its sync entries, and the mutex is pending nowhere.
#![tactic(auto)]

mod changes;
mod clears;
mod contributions;
mod mutexes;
mod stores;
mod writes;

pub use changes::next_cell;
pub use clears::clear;
pub use edge_actions::{EdgeView, numbers_between};
pub use edge_effects::{
    After, Calculated, Followed, compared, complemented, converted, copied, dereferenced, element,
    give, load, load_any, moved, negated, no_classes, operated, part, pointer_value, skip,
};
pub use mutexes::{lock, probe, unlock, yields};
pub use stores::store;
