//! Calls among functions: an order in which each function stands behind those that it calls, or else the first function
//! that reaches itself. What a function is besides the list of those that it calls, this crate does not know.
//!
//! With the calls `[[], [0], [1, 0]]` the order is 0, 1, 2. With `[[1], [0]]` and the definitions 1, 0 the first
//! function that reaches itself is 1.
#![tactic(auto)]

mod graphs;
pub mod laws;
mod orders;
mod reaching;
mod searches;

pub use orders::{CallOrder, call_order};
