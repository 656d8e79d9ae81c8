//! Initialisers: which cells of an object they give, and which typed expressions are constants before the program runs.
//! Which objects are declared, and what names mean, this crate does not know.
//!
//! In `int a[3] = {1, 2};` the cells 0 and 1 are given; behind `static int *p = &a[1] + 1;` the cell 0 of `p` holds the
//! address of the cell 2 of `a`.
#![tactic(auto)]

mod addresses;
mod initialisers;
mod parts;
mod scalars;
mod static_values;

pub use initialisers::initial;
pub use static_values::static_value;
