//! That the program of a typed file keeps what its equations ask. How the equations are solved, and what their
//! solutions say of runs, this crate does not know; it holds no code but laws.
//!
//! In `int x = 5; __task(1) void t(void) { if (x < 9) x = 7; }` the cell of `x` holds 5 at first, which is an `int`;
//! the store of 7 reaches this cell, whose abstract cell has the values of an `int`; and the edges from the test ask
//! `<` and `>=`, which are comparisons. So the equations of this program have one least solution.
#![tactic(auto)]

mod laws;

pub use laws::{
    files_are_layable, prepared_programs_are_analysable, prepared_programs_are_programs,
    thresholds_have_ends,
};
