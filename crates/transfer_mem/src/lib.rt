//! One edge of a graph as a whole: the state where it leads, what it adds to the store of interferences, which abstract
//! cells it reaches, and which classes of errors it does not exclude. It goes by the operation of the edge to the code
//! of that operation, in the crates below. It knows no graph, no table of states and no other edge; that smaller states
//! and stores give less is a law here.
//!
//! The edge of `x=1;` in a state where the address leads to the shared cell of `x` alone leads to a state in which the
//! own value of `x` is {1} and `x` is fresh; it reaches `x`, and adds {1} to the weak entry of `x` under the task and
//! the mutexes that it holds.
#![tactic(auto)]

mod applying;
mod giving;
mod laws;

pub use applying::apply;
pub use edge_filters::{After, EdgeView, is_reachable, is_shared_cell, open_cell, pointer_value};
pub use giving::{Given, calculated};
pub use laws::{edges_give_states, edges_rise};
