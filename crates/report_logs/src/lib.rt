//! Reports as build servers and editors take them: a log in the format SARIF 2.1.0 of a report, as JSON, of the locks
//! that `waits` lists, of the dead places that `ranges` does and of the assumptions, over the preprocessed text that
//! these are of, with what each alarm races with and the call paths on which control comes to it; and the log of a
//! refusal. It knows the format, and neither words of a command nor streams.
//!
//! The alarm `DIV` at line 2, column 27 of a text whose second line comes from line 12 of `pump.c` has a result with the
//! rule `DIV`, the uri `pump.c`, the line 12, the columns at which the file has the operator, where it is at hand, and a
//! fingerprint that stays when other lines move.
#![tactic(auto)]

pub mod laws;
mod logs;
mod places;
mod refusals;
mod results;
mod sarif;
mod stacks;
mod tool;
mod uris;
mod writing;

pub use logs::{Answers, Frame, log};
pub use refusals::{Refusal, refusal_log};
