//! What the temporaries of a graph may hold, by the operations that give them: numbers between two ends, or pointers.
//! By extents, code tells whether a value fits a temporary, whose type a graph does not keep. It knows no state and no
//! store; that copies are settled in the graphs of files, as the second law asks, it does not know.
//!
//! In `x = 5 + y` the temporary of the constant holds 5 alone, that of the load of the `int` y any `int`, and that of
//! the sum any `int`; those of the addresses of x and y hold pointers.
#![tactic(auto)]

mod extents;
mod laws;

pub use extents::{Extent, extents_in, scalar_extent};
pub use laws::{extents_are_closed, extents_are_typed};
