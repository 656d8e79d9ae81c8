//! What an expression leaves behind for later layers: the functions and static objects that its evaluated parts use,
//! and the values of its folded parts. How expressions are typed, this crate does not know.
//!
//! `f(x) + sizeof(y)` uses the function `f` and the object `x`, but not `y`; its constants are those of its typed form,
//! here the size of `y`.
#![tactic(auto)]

mod constants;
mod uses;

pub use constants::push_constants;
pub use uses::push_uses;
