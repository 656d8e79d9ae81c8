//! That the passes of a program's tasks come to an end, and so that each program has a least solution. A store that
//! fits a program stands no higher than a limit that the program tells, and each publication that changes the store
//! makes it higher. In which order a caller lets tasks pass, this crate does not know; it holds no code but laws.
//!
//! In `int x; __task(1) void t(void) { x = 5; }` the store begins with no entry. The pass of `t` adds that `t` may have
//! written 5 to `x` with no mutex held: the store is then of height 4, since the entries of the task, of the held set
//! and of the cell count one each, and the value has one number. The next pass adds nothing, so the passes have ended,
//! and the store with the least table of `t` over it is the least solution.
#![tactic(auto)]

mod laws;

pub use laws::{
    histories_go_on, passes_end, programs_have_least_solutions, publications_climb,
    quiet_stores_are_closed, rises_are_bounded, stores_are_bounded,
};
