//! Lowering: the graph of each body of a laid out program, as a definition, with the law that it runs as the body does.
//! What operations do with values, how a graph is analysed, and how code computes it, this crate does not know.
//!
//! So `while (x) x = x - 1;` becomes a head; the address and the load of `x`, and two tests; behind the first one the
//! addresses, the load, the constant, the operator and the store, and the way back; behind the second one the exit.
#![tactic(auto)]

mod laws;

pub use laws::{clears_own, is_plain, nothing_live, runs_along_next, runs_as_next};
