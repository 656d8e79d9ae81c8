//! A log in the format SARIF 2.1.0 compared with an old one: the log with a state and the suppressions of each result,
//! and with those results of the old log that were found no more. It knows values of JSON, and neither texts of sources
//! nor words of a command.
//!
//! Where the old log has the fingerprint `a` twice and `b` once, and the new one `a` and `c`, the first `a` is unchanged
//! and `c` is new, in the order of the new log; behind them the second `a` and `b` are absent.
#![tactic(auto)]

mod baselines;
mod causes;
mod keys;
mod logs;
mod results;
mod standings;
mod suppressions;
mod values;

pub use baselines::{BaselineFail, LONGEST_LOG, Outcome, baseline};
pub use causes::{Cause, Flaw, cause_line};
