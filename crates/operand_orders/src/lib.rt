//! A body with the states of a solution, edge by edge; and the operands whose order C99 leaves open (C99 6.5p2,
//! 6.5.2.2p10, 6.5.16p4, 6.7.8p23), and which touch the same, wait, or read what may not be there. Where tables and a
//! store come from, this crate does not know.
//!
//! In `int x; int f(void) { x = 5; return 1; } __task(1) void t(void) { x += f(); }` there is one place, the sign
//! `+=`: a compiler may load `x` before the call or behind it.
#![tactic(auto)]

mod accesses;
mod lists;
mod marks;
mod order;
mod others;
mod overlaps;
mod pairs;
mod reached;
mod scopes;
mod touches;
mod views;

pub use order::add_order;
pub use scopes::{ObjectLives, is_open, is_static, is_within, lives_of};
pub use views::{BodyView, copies_by_edge};
