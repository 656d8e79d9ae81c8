//! The least solution of a program by several workers, and the report of that solution: they end in a quiet store, the
//! tables that their last passes kept are the least ones over it, and so both are the least solution. How workers share
//! a store, what a pass computes, and which alarms a solution has, this crate does not know.
//!
//! In `int x; int y; __task(1) void a(void) { x = 1; } __task(1) void b(void) { y = x; }` two workers pass `a` and `b`
//! side by side. Whoever publishes first, the report has two alarms, a race at each of the two accesses to `x`.
#![tactic(auto)]

mod reports;
mod solutions;
mod tables;

pub use program_solutions::{Analysis, Solution, least_report, solution};
pub use reports::{WorkedOut, report_by_workers};
pub use solutions::solution_by_workers;
