//! The accesses of objects that have races, as the tables of a program and a store tell: each object with a race on one
//! of its cells, and all accesses of tasks to it, racing or not, with the mutexes that are held there and those that
//! were found free. What they are made of, all accesses of tasks with the edges that make them, is `sites_in`. Where
//! tables and a store come from, and what is alarmed besides, this crate does not know.
//!
//! In `__mutex m; int x; int y; __task(1) void a(void) { __lock(m); x = 1; __unlock(m); y = x; }` with
//! `__task(2) void b(void) { __lock(m); x = 2; __unlock(m); y = 3; }` both objects have a group. That of `x` has its
//! stores, one in each task, under `m`, and the load of `a` under nothing, which races with the store of `b`; the store
//! of `a` does not. That of `y` has two stores under nothing, which race with each other.
#![tactic(auto)]

mod copies;
mod grouping;
mod laws;
mod merging;
mod noting;
mod object_access;
mod site;
mod tasks;
mod ways;

pub use grouping::groups;
pub use laws::{alarms_are_grouped, groups_are_one};
pub use merging::is_alike;
pub use object_access::{AccessGroup, ObjectAccess};
pub use site::Site;
pub use tasks::sites_in;
pub use ways::ways_by_cell;
