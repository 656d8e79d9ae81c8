//! The state of typing as code: what is visible, the objects of static storage and their linkage, and what later
//! layers need of the text; with the two ways in which an expression is typed in a state. Which declarations and
//! statements there are, and which of them are refused, this crate does not know.
//!
//! In the state behind `int f(void); int x;` the call `typed_in` of `x + f()` gives a `Binary`, and leaves the uses of
//! `x` and `f`, and that one call stands before; `measured` of `sizeof x` gives a constant and leaves nothing behind.
#![tactic(auto)]

mod blocks;
mod evaluation;
mod names;
mod sizes;
mod states;
mod statics;
mod structures;

pub use evaluation::folded_value;
pub use names::is_declared_here;
pub use states::{State, Tables};
