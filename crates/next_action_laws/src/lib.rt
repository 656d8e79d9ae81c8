//! What the next actions of typed files keep to, after every list of answers that fits, and so in every world that is
//! reached: each law is the contract of a function that does nothing. A load or a store goes to a cell of its type, in
//! an object that the task may use; a stored value is one of that type; a task clears its own objects alone, and names
//! mutexes of the file. Cells of static storage begin with values of their types. How graphs run, this crate does not
//! know.
//!
//! In `int x; int a[2]; __task(1) void t(void) { a[x] = 7; }` the load of `x` comes first. Where it is answered by 0 or
//! 1, a store to that cell of `a` is next; by any other `int`, an error; and no pointer fits.
#![tactic(auto)]

mod laws;

pub use laws::{
    actions_are_proper, bodies_are_regular, elements_stand, initial_values_fit, never_misfit,
    parts_stand, starts_hold, worlds_are_proper,
};
