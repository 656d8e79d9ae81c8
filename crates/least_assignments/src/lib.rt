//! Least assignments of systems of constraints over variables, found by a work list that applies constraints until
//! none brings more. A constraint reads some variables and brings values to others; what stands at a variable is the
//! join of what is brought there, rounded. Where a state of many parts changes in few of them, each part may be a
//! variable of its own, and a step costs what it reads and changes. What values are and what a constraint does, this
//! crate does not know, nor what variables stand for.
//!
//! Three variables of numbers up to 9, with the order of numbers. A constraint brings 1 to variable 0; one brings to
//! variable 1 the number at 0, and one to variable 2 the sum of those at 0 and 1, up to 9. The first gives 1 at 0, then
//! 1 comes to 1, and 2 to 2; no constraint reads variable 2, so nothing is left, and the least assignment is 1, 1, 2.
#![tactic(auto)]

mod bringing;
mod constraint_systems;
mod pending;
mod raising;
mod work_list;

pub use constraint_systems::ConstraintSystem;
pub use work_list::{least_assignment, settle};
