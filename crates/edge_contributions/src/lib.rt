//! The join of what the edges of a table contribute, in rounds: each joins the first and the second, the third and the
//! fourth, and so on, so that nothing is joined more often than the number of edges has digits. Which edges are known to
//! contribute nothing, this crate is told.
//!
//! Where three edges contribute {1}, {2} and {4}, a round gives {1, 2} and {4}, and the next one {1, 2, 4}.
#![tactic(auto)]

mod contributions;
mod joins;

pub use contributions::joined_contributions;
