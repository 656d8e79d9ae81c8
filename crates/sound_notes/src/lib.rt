//! Soundness of notes: what the contexts of alarms say of each run that comes to their edges, not only of those that
//! stop there.
//!
//! In
//! ```c
//! int x;
//! __task(1) void a(void) { int d = __input(0, 3); x = 8 / d; }
//! ```
//! the alarm of DIV has one edge, with the operands 8, and 0 to 3. A run that divides by 2 comes before this edge, and
//! goes on; 8 and 2 lie in these operands. Were `d` always 0, the alarm would be one of always: no run would go on.
//!
//! It knows no code: its laws are of definitions alone, over every solution.
#![tactic(auto)]

mod laws;

pub use laws::{always_ends, locks_stop, operands_are_listed};
