//! What the accesses of objects that have races reach, where they race and with which accesses, as the tables of a
//! program and a store tell. Which objects have races, and which accesses they have, it is told; of source texts and of
//! notes it does not know.
//!
//! In `__mutex m; int x; __task(1) void a(void) { x = 1; }` with
//! `__task(2) void b(void) { x = 2; __lock(m); x = 3; __unlock(m); }` the object `x` has three accesses, and each reaches
//! its one cell and races there. The store of `a` races with two accesses, the stores of `b`; each of these races with
//! one, the store of `a`.
#![tactic(auto)]

mod access_sites;
mod details;
mod groups;
mod laws;
mod meeting;
mod numbers;
mod objects;
mod pairs;
mod partners;
mod points;
mod tables;
mod ways;

pub use details::AccessDetails;
pub use laws::partners_are_mutual;
pub use tables::access_details;
