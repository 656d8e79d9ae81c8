//! The streams of a program at its edge: read to their end or past a limit, and written whole; the words that it is
//! given; and the statuses with which it ends, among them those of streams that failed. What bytes and words mean it does
//! not know, nor where bytes come from and go to.
//!
//! So a source over `b"abcdefg"` is read as `abcdefg` with the limit 8, and as `abc` with the limit 3; and a sink that
//! takes two bytes and fails then has taken `ab` of `abcdefg`, and the answer is `Failed`.
#![tactic(auto)]

mod input;
mod output;
mod sending;
mod statuses;
mod words;

pub use input::{InputError, read_whole, unread};
pub use output::write_whole;
pub use sending::{give, send, show, tell};
pub use statuses::Status;
pub use words::{program_words, tell_usage};
