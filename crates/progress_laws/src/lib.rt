//! Progress: that a run goes on. In each world that is reached whoever's turn it is may act, whatever its action leaves
//! open, and is led on or to the error of its action; while the initial section is not done it is its turn, and then
//! each task that waits may be woken. So a run ends where all are done, or wait for mutexes that others hold, and
//! nowhere else. Each law is the contract of a function that does nothing. What an action may be, this crate takes from
//! the laws of next actions; it holds no code.
//!
//! In `volatile int x; int y; __task(1) void t(void) { y = x; }` the task may be woken at the start. Then it is its
//! turn, and each `int` is a choice: a step that allowed none of them would make each claim of the analysis true.
#![tactic(auto)]

mod laws;

pub use laws::{
    actions_are_answerable, blocked_await_holders, ends_are_done, progress_is_made,
    runs_end_at_rest,
};
