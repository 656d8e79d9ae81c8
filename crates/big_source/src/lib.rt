//! Large sources that are made from a number, and the two lines that tell of such a source and its report. It knows the
//! text of the source alone, and not what an analysis finds in it.
//!
//! For 1 the source has 496 bytes: three declarations, the function `f0`, and the tasks `t0` to `t3`, of which `t0`
//! calls it. For 2 the task `t1` calls `f1` besides.
#![tactic(auto)]

mod generated;
mod summaries;

pub use generated::big_source;
pub use summaries::summary;
