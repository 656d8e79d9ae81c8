//! What becomes of each token of several preprocessed units when they are joined as one text (C99 5.1.1.1, 6.2.2):
//! whether it stays, gets a new name, or is left out, as an earlier unit has its declaration; or why the units are
//! refused. It works on tokens: what a type or a value is it does not know, nor how a text is written.
//!
//! In the units `static int n; int f(void) { return n; }` and `static int n;` each `n` gets a new name, and all other
//! tokens stay; in `typedef int T;` and `typedef int T; T x;` the first four tokens of the second are left out.
#![tactic(auto)]

mod causes;
mod copies;
mod declarations;
pub mod laws;
mod linkages;
mod marks;
mod plans;
mod rooms;
mod scans;
mod spots;
mod tables;

pub use causes::{Cause, JoinFail, cause_line};
pub use plans::fates_of_units;
