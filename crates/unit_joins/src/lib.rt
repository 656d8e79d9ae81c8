//! Several preprocessed units as one text (C99 5.1.1.1): names with internal linkage and names without linkage get new
//! ones where another unit has them for something else, and a declaration of types that an earlier unit has token for
//! token is left out. That the text says what the units say, each token at its place in its file, is looked at once it
//! is made. What a type or a value is this crate does not know.
//!
//! In the units `static int n; int f(void) { return n; }` and `static int n;` the `n` of the first becomes `n_1`, and
//! that of the second `n_2`, and all other tokens stay.
#![tactic(auto)]

mod borders;
mod checks;
mod joining;
mod pairs;
mod writing;

pub use joining::join;
pub use unit_plans::{Cause, JoinFail, cause_line};
