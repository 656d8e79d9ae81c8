//! Laws of what is laid out. Code that works on a layout may count on its limits: numbers of cells, paths, tasks and
//! mutexes fit their types. How a layout is computed, this crate does not know.
//!
//! A file with `char a[65536];` is laid out, and its layout has 65,536 cells; one with `char a[65537];` has no layout.
#![tactic(auto)]

mod limits;

pub use limits::limits_are_kept;
