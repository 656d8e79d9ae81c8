//! The equations of a body over a store: its nodes are those of its configured graph, and its links the copies of
//! edges, each of which brings what the rows of transfers say; at the heads of loops the cells that are written in the
//! loop are rounded onto thresholds. They are a system of equations with a least solution. How a least solution is
//! found, and what several tasks give together, this crate does not know.
//!
//! In `int x; __task(1) void t(void) { while (x < 9) x = x + 1; }` the edge from the test to the body brings the states
//! in which `x` is less than 9, the edge back brings them with `x` one greater, and at the head `x` is rounded: from
//! {0} and {1} onto the thresholds 0 and 8, then onto 0 and 9.
#![tactic(auto)]

mod laws;

pub use laws::{configured_bodies_are_bodies, equations_are_lawful};
