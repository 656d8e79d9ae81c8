//! The rules of expressions: for each construct, from its typed parts to its typed form or to the first row of its
//! rules that it meets. How parts are reached in a tree, and what type names name, this crate does not know.
//!
//! For `p - q` of two pointers `infix` answers Unsupported at the `-`; for `p - 1` it answers a `Move` backwards.
#![tactic(auto)]

mod assignments;
mod binary;
mod calls;
mod casts;
mod choices;
mod compounds;
mod conversions;
mod forms;
mod members;
mod operators;
mod pointers;
mod primaries;
mod sizes;
mod steps;
mod unary;

pub use calls::{call, callee};
pub use casts::cast;
pub use choices::conditional;
pub use conversions::{given, valued};
pub use members::subscript;
pub use operators::{infix, member, postfix, prefix};
pub use primaries::{bound, character, input, integer, islocked, name};
pub use sizes::sizeof_type;
