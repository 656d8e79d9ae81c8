//! Details of notes, beside what is proved of alarms and accesses: the call paths on which alarms stand, the members that
//! accesses reach, what racing accesses race with, the words of types, and the bounds of members. Where alarms, accesses
//! and bounds come from, this crate does not know.
//!
//! In `int x; int f(int d) { return 8 / d; } __task(1) void t(void) { x = f(0); x = f(2); }` the division by 0 stands
//! in `f`, on one of its two call paths, that of the call at 1:71; its operands are of the type `int`.
#![tactic(auto)]

mod alarms;
mod details;
mod objects;
mod operands;
mod races;

pub use alarms::AlarmDetails;
pub use details::{Details, report_details};
pub use objects::{MemberBounds, ObjectDetails};
pub use races::RaceAccess;
pub use source_names::NotedPath;
