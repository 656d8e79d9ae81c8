//! The parts of an object, from the whole down to a cell: the type of a cell, whether it is declared `const` or of an
//! enumeration that compilers may make unsigned, and the array into which a pointer of some type points (C99
//! 6.5.6p7-8). What points there, this crate does not know.
//!
//! In `struct S { int a[2]; int b[2]; } s;` a pointer to `int` at offset 2 of `s` points into the array `s.b`, which
//! begins at 2 and ends at 4: an element of `s.b` begins there, so that it is not taken for the end of `s.a`.
#![tactic(auto)]

mod arrays;
mod cells;
mod extents;
mod sizes;

pub use arrays::{array_at, array_begun};
pub use cells::{cell_type, is_constant, is_of_enumeration, unenumerated};
pub use extents::Extent;
pub use sizes::{cells_of_type, type_at};
