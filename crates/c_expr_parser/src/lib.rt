//! From tokens to the longest expression that they begin with, exactly by the grammar, of height at most 500. It knows
//! the names of typedefs, and neither the types nor the objects of a source.
//!
//! The tokens of `a = b + 1; c` begin with the expression `a = b + 1` of height 3, and the `;` follows it.
#![tactic(auto)]

mod descents;
pub mod found;
pub mod laws;
pub mod levels;
pub mod marks;
mod nodes;
mod operators;
mod parses;
pub mod spec_lists;
pub mod type_names;

pub use parses::{MAX_HEIGHT, Parsed, parse_at, parse_expr, read_at};
