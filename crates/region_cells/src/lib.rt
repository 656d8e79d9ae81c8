//! The abstract cells that are written in the regions of heads. A store through a pointer writes all cells of its type:
//! each operation marks an object or a scalar type, and each cell is looked at once for a region. What an analysis does
//! with these cells, this crate does not know.
//!
//! In the region of `while (x) { x = x - 1; *p = 1; }` with `int x; int y; int *p;` the cells of `x` and `y` are
//! written, and that of `p` is not.
#![tactic(auto)]

mod covers;
mod marks;
mod slots;
mod writes;

pub use writes::written_cells;
