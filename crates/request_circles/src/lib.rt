//! Requests for mutexes, the places of those that lead back to themselves, and for each of these places a shortest ring
//! of requests. Where requests come from, this crate does not know.
//!
//! A task that holds the mutex 0 asks for the mutex 1 at 2:34, and another one that holds 1 asks for 0 at 3:34: each
//! request leads to the other, so both places are listed, and the two requests are the ring at each of them. Where both
//! tasks hold a third mutex besides, neither request leads to the other, and no place is listed.
#![tactic(auto)]

mod circles;
mod classes;
mod distances;
mod numbers;
mod places;
mod requests;
mod rings;
mod searches;
mod trims;

pub use places::circular_places;
pub use requests::{Request, has_mutex, push_request};
pub use rings::{Ring, shortest_rings};
