//! The line marks of a preprocessed text: which line of which file each of its lines comes from (C99 6.10.4, and the
//! form `# NUMBER "NAME" FLAGS` that preprocessors write). It knows bytes and lines, and neither tokens nor alarms, so
//! a line in a comment that has the form of a mark is one.
//!
//! In the text of the lines `# 7 "a.h" 1`, `int n;` and `int m;`, with the first file `a.c`, the first comes from line
//! 1 of `a.c`, and the others from the lines 7 and 8 of `a.h`.
#![tactic(auto)]

mod lines;
mod marks;
mod names;
mod origins;

pub use lines::{first_line, is_blank};
pub use names::name_bytes;
pub use origins::{MarkFail, Origin, line_origins};
