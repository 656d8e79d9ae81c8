//! Soundness of the report: every error that occurs in some run that the scheduler allows is an alarm of every solution
//! of the program's equations.
//!
//! Two tasks store to `x` and hold no mutex. In the world in which both stand before their stores they race; in each
//! solution both stores reach the abstract cell of `x` from nodes where nothing is held, so that both places are alarms
//! of the class Race.
//!
//! On the way stand laws on every world that a run reaches: the concurrent invariant holds there, tasks that wait for
//! each other in a circle stand at circular requests, and so at places that are listed, and what cells hold is told by
//! every solution: so numbers lie within the bounds of their objects and cells. Nobody acts at a dead place. And what tasks are
//! about to access stands in the groups of objects with races, both sides of each race among it; and where a run stops
//! with an error, the contexts of the alarm tell the edge and the values.
#![tactic(auto)]

mod laws;

pub use laws::{
    accesses_are_listed, circles_are_requested, contents_are_told, errors_are_alarms,
    foundations_are_kept, none_listed_no_ring, numbers_are_within, numbers_are_within_cells,
    objects_are_listed, places_are_reached, rings_are_listed, stops_are_listed, worlds_are_known,
};
