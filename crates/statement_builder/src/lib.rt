//! What statements become in the graph of their body: edges and marks, as the definition of lowering says, behind what
//! is built so far; and the nodes from which control leaves them. What an expression becomes the crate below knows; how
//! bodies are put together this one does not know.
//!
//! Of `while (x) { if (y) break; f(); }` there are built the head, the test of `x`, the test of `y`, a node behind the
//! `break` to which no edge leads, the mark of the call, the way back to the head, and the exit, to which the other way
//! of the test of `x` and the node of the `break` lead.
#![tactic(auto)]

mod labels;
mod leaving;
mod locals;
mod loops;
mod meeting;
mod passed;
mod selections;
mod statements;
mod steps;

pub use meeting::meet_all;
pub use passed::{Passed, Pending, Way};
pub use statements::build_statements;
