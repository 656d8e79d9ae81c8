//! The places of locks at which tasks may wait for each other in a ring: those of circular requests; and for each of
//! them a shortest ring of requests. A request is a lock of a mutex that a task does not hold, from a configured node
//! that has a state. What the state is, where it comes from, and what a task does besides, this crate does not know.
//!
//! Where one task locks `m` and then `n`, and another one `n` and then `m`, the second lock of each is listed, and the
//! ring at each of them is these two requests. Where both do so under a third mutex, none is.
#![tactic(auto)]

mod bodies;
mod copies;
mod laws;
mod waits;

pub use laws::waits_are_one;
pub use waits::{circular, rings};
