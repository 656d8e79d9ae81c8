//! Soundness of the list of assumptions: what it promises of each run that comes to a place where no assumption stands.
//!
//! In
//! ```c
//! int r;
//! __task(1) void t(void) { int *p; { int v = 1; p = &v; } r = *p; }
//! ```
//! the list has LIFETIME at the `*`, for the runs that come there follow a pointer to `v` outside of its block. Had it
//! none there, each object to which the pointer leads in a run would be open.
//!
//! It knows no code: its laws are of definitions alone, over every solution.
#![tactic(auto)]

mod laws;

pub use laws::{
    access_choices_are_listed, beginnings_are_listed, choices_are_listed, enumerations_are_listed,
};
