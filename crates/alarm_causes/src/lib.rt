//! Advice on the alarms of a program's tables: which operand is to blame, and the way back from it to where its values
//! first come from, of several always to the one with the most values: through temporaries, loads, and the stores whose
//! values may arrive there, at most 24 steps; with a word for what is found there. What the steps say is read off the
//! tables and promised by no clause, which speak of the form of the advice alone; where tables come from, which edge
//! gives a value, which store may have put it where it is loaded, and how advice is written, this crate does not know.
//!
//! In `int x; int y; __task(1) void a(void) { if (x) { y = 8 / x; } } __task(2) void b(void) { x = 0; x = 1; }` the
//! divisor is to blame, and the way leads to the load of `x` behind the test and on to the store of `b`. Each load of
//! `x` alone, without what `b` stores meanwhile, would exclude the DIV: so the cause is the interference of another
//! task, and the race to mend is that of `x`.
#![tactic(auto)]

mod advices;
mod expressions;
mod finding;
mod interference;
mod marks;
mod objects;
mod own_values;
mod ways;

pub use advices::{Advice, Cause, LONGEST, Step, StepKind};
pub use finding::advice_on_alarms;
pub use objects::objects_named;
