//! The operators on values as functions. The crates of values describe what an operator gives by a relation, which its
//! code meets; here stands, for each of them, the function that gives the one set so described, so that what an edge of
//! a graph does to a state can be a function too. They know no state, no object and no program.
//!
//! So `operated Add Int {1, 2} {10}` is {11, 12}: the set with exactly the values of `IsValue Add Int {1, 2} {10}`. A
//! law of this crate says for each function that it is what the relation says (`is`), and that nothing else is (`one`).
#![tactic(auto)]

mod classes;
mod integers;
mod pointers;

pub use classes::{integer_classes, pointer_classes};
pub use integers::{integer_comparisons, integer_conversions, integer_operators};
pub use pointers::{advanced_pointers, common_values, compared_pointers, reached_pointers};
