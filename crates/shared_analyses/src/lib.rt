//! The whole solution of an analysis by several workers, each in a thread of its own where one can be made; and that
//! analyses and what passes keep may be sent to other threads, and be shared by them. How workers share a store, this
//! crate does not know.
//!
//! In `int x; int y; __task(1) void a(void) { x = 1; } __task(1) void b(void) { y = x; }` one worker passes `a` while
//! another one passes `b`. Whoever publishes first, the store ends with {1} for `x` and {0, 1} for `y`.
#![tactic(auto)]

mod solving;

pub use solving::solved_by;
