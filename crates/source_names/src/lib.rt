//! What notes name beside layouts: the places of the calls of each function, the tags of structures, the words of C
//! types, the ways from objects to their members, and call paths. What it is named for, this crate does not know.
//!
//! In `struct s { int a, b[2]; } x; int f(void); __task(1) void t(void) { f(); f(); }` the calls of `t` stand at 1:73
//! and 1:78, the first structure has the tag `s`, the type of `x` is `struct s`, and the cells of `x` are `.a` and
//! `.b[0..1]`.
#![tactic(auto)]

mod calls;
mod members;
mod paths;
mod steps;
mod tags;
mod words;

pub use calls::call_places;
pub use members::{is_volatile, member_of};
pub use paths::{NotedPath, function_of, noted_paths, path_of};
pub use steps::{Down, Inside, step_down};
pub use tags::structure_tags;
pub use words::push_type;
