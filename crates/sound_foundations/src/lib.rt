//! What the soundness of the report stands on, of files that are typed and laid out: what the graphs of bodies clear,
//! in which types their operators work, and which of their temporaries hold pointers. What an error is, and that each
//! is an alarm, this crate does not know; it holds no code.
//!
//! In `_Bool b; int x = ~b;` the operand of `~` is promoted to `int`, so that its operation works in `int`; and the
//! graph of the body clears the objects of `b` and of `x`, which are of the body's own call path.
#![tactic(auto)]

mod laws;

pub use laws::{complements_are_promoted, own_objects_are_cleared, truths_are_told};
