//! What fits a program: states at the places of a body, whose cells have values of their types and whose temporaries
//! hold such values as they may, and stores; operations that fit the types of temporaries; and the greatest state of
//! each place. What a temporary may hold is told by its extent, which code can test, and its type, which the operators
//! ask for, follows. The laws: what an edge brings fits the place to which it leads, states that fit are joined and
//! rounded to states that fit, and each lies below the greatest one of its place. What a body's graph is and how its
//! equations are solved, this crate does not know.
//!
//! In `int x; __task(1) void t(void) { x = 1; }` the state with the temporary 0 that leads to `x`, the temporary 1 that
//! is 1, and `x` that is 0 fits the place before the store, where both temporaries are live. Behind the store none is,
//! and the state in which `x` is 1 fits.
#![tactic(auto)]

mod laws;

pub use laws::{edges_keep_fitting, extents_are_kinds, places_are_closed, places_have_tops};
