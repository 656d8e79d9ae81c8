//! Worlds of a laid out program, and their steps: what a program does. A world that starts with a layout alone is the
//! plain model: for each step it is asked anew what a task does after all its answers, so that a long run takes the
//! square of its length; it is made to be compared with. In a world that starts with the graphs too each task keeps its
//! position along its graph, so that a step costs what is done in it, and nothing recurs through calls. How a program
//! is analysed, and how its graphs are made, this crate does not know.
//!
//! In `int x; __task(1) void t(void) { x = 1 / x; }` the choices wake 0 and run 0 0 are done, the second with the load
//! of `x`; then run 0 0 stops with DIV at the sign `/`, and after that no choice is allowed.
#![tactic(auto)]

mod accesses;
mod clearing;
mod held;
pub mod laws;
mod races;
mod standings;
mod starts;
mod steps;
mod task_runs;
mod worlds;

pub use held::Held;
pub use standings::TaskStanding;
pub use worlds::World;
