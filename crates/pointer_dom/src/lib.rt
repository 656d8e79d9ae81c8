//! Sets of pointers with all their operations, and abstract values: what a scalar cell may hold, numbers and pointers.
//! An object is a number with a size in cells; what its cells are, and whether it is alive, the caller's `Layout` says.
//!
//! So a pointer to an object of 10 cells at the offset 4, moved by {1, 2} steps of 3 cells, is at 7 or 10, one past the
//! last cell.
#![tactic(auto)]

mod abs_value;
mod addresses;
mod advances;
mod arithmetic;
mod comparisons;
mod dereferences;
pub mod laws;
mod offsets;
pub mod operation_laws;
mod pointer_set;
mod removals;

pub use abs_value::{AbsValue, Parts};
pub use advances::Reached;
pub use arithmetic::distances;
pub use comparisons::{PointerValue, equality};
pub use dereferences::Layout;
pub use offsets::{Ends, Offsets};
pub use pointer_set::{ObjectTable, PointerSet};
