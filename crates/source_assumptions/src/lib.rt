//! The list of the assumptions of a source: the places whose meaning in a compiled program depends on a choice that C99
//! leaves open, or that compilers make otherwise than the definitions of what a program does. How a solution is found,
//! and what is left open where, the crates below know; so they do which kinds are looked for.
//!
//! Of `int x; int f(void) { x = 5; return 1; } __task(1) void t(void) { x += f(); }` the list is `1:68 ORDER`,
//! `assumptions 1`.
#![tactic(auto)]

mod lines;
mod replies;

pub use replies::{AssumptionReply, Opened, assumptions_reply, opened_of};
