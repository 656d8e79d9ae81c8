//! What the commands `waits` and `ranges` print of a solution: the lines of places at which tasks may wait for each
//! other, of the bounds of objects, and of dead places. How these are found it does not know.
//!
//! The places 2:34 and 3:34 are the text `2:34 WAIT`, `3:34 WAIT`, `waits 2`. An object `x`, declared at 1:5, whose
//! numbers lie from -3 to 9, has the line `1:5 x -3 9`.
#![tactic(auto)]

mod lines;

pub use lines::{push_dead_places, push_range, waits_text};
