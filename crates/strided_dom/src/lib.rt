//! Strided sets: finite sets of evenly spaced integers, with their join, intersection, sums, products and rounding,
//! each the exact or the least set that its definition determines. They know nothing of C's types and operators.
//!
//! So the join of {0, 4} and {10} is {0, 2, .., 10}, the least such set with all three, and rounding it onto the
//! thresholds 1 and 127 gives {0, 2, .., 126}.
#![tactic(auto)]

mod combinations;
mod divisors;
mod intersections;
pub mod laws;
mod rounding;
mod sets;

pub use rounding::Marks;
pub use sets::Strided;
