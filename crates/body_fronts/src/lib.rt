//! The equations of a body as constraints of fronts and cells: its states are made of a table of temporaries and one
//! value for each cell that it sees, and each of these is a lattice of finite height by itself. So what is proved of
//! systems with fronts and slots holds of bodies: the least assignment of the constraints is the least solution of the
//! equations. Where cells are kept, which cells an edge touches and how variables are numbered, this crate does not
//! know: that is chosen and checked by code; it holds no code but the law.
//!
//! In `int x, y; __task(1) void t(void) { x = 1; y = 2; }` the body sees the cells of `x` and `y`. Behind the first store
//! its state is the table without temporaries, that `x` is 1 and that `y` is 0.
#![tactic(auto)]

mod laws;

pub use laws::bodies_are_sparse;
