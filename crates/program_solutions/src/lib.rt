//! The least solution of a program, found on one thread, and the report of that solution: the tasks pass over one
//! store in turn, until as many passes one after another as there are tasks have added nothing to it. What a pass
//! computes, and which alarms a solution has, this crate does not know.
//!
//! In `int x; int y; __task(1) void a(void) { x = 1; } __task(1) void b(void) { y = x; }` the first pass of `a` adds
//! {1} for `x`, and that of `b` adds {0, 1} for `y`. Then `a` and `b` pass once more and add nothing: their tables and
//! the store are the least solution. Its report has two alarms, a race at each of the two accesses to `x`.
#![tactic(auto)]

mod laws;
mod reports;
mod solutions;
mod tables;
mod turns;

pub use laws::least_reports_are_one;
pub use program_reports::{Solution, Table};
pub use reports::{least_report, solution_report};
pub use solutions::{least_pair, solution};
pub use tables::{completed, copied_table};
pub use thread_pass::Analysis;
