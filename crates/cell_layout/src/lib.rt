//! The layout of a typed file: its call paths, objects, cells and abstract cells, or the first limit that is exceeded.
//! What runs on them, this crate does not know.
//!
//! Of `char a[65536];` the cells are laid out; of `char a[65537];` the answer is the limit `cells`.
#![tactic(auto)]

mod cells;
mod cores;
mod counts;
mod initial;
pub mod laws;
mod layouts;
mod limits;
mod objects;
mod paths;
mod placing;
mod tables;

pub use layouts::lay;
