//! Why an alarm stands in the report of a program's tables and a store: the edges at which its class is not excluded,
//! the values of their operands there, all together, what is wrong with the pointers among these, and whether control
//! goes on behind one of them. Alarms of races have no such edges and are left out. Where tables and a store come from,
//! this crate does not know.
//!
//! In `int x; int f(int d) { return 8 / d; } __task(1) void a(void) { x = f(0); x = f(2); }` the DIV at the sign `/`
//! has one edge, that of the first call: behind it control does not go on, so the alarm is one of always. Its operands
//! are 8 and 0; that the second call divides by 2 is not told, for there the class is excluded.
#![tactic(auto)]

mod alarm_context;
mod bodies;
mod copies;
mod exits;
mod finding;
mod flaws;
mod laws;
mod merging;
mod operands;
mod pointers;

pub use alarm_context::{AlarmContexts, ContextEdge};
pub use finding::alarm_contexts;
pub use flaws::{Flaw, ObjectFlaw};
pub use laws::{contexts_are_alarms, contexts_are_one};
