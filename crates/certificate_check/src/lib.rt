//! Certificates, checked by themselves: from bytes to what may be said of them as a certificate. The source that stands
//! in them is read as any source is, the tables and the store behind it are read as what they claim to be, and one
//! application of each edge tells whether they are a solution of the program of that source. Then every error that
//! occurs in any run of it stands in the report of these tables, which is told before the word `certified`. How tables
//! and a store were found, and whether they are the least, this crate does not know: no crate below it solves
//! equations.
//!
//! The bytes `tmcert 1`, `source 24`, `__task(1) void t(void){}`, `task 0`, `store`, `end` are a certificate, and the
//! answer is `uncovered 0 0`: the table of the task has no state at its entry.
#![tactic(auto)]

mod checks;
mod laws;
mod replies;
mod streams;
mod verdicts;

pub use certificate_texts::{Written, numbers_are_small, written};
pub use checks::check;
pub use laws::{one_verdict, reports_list_all, solutions_are_certified};
pub use replies::{CheckReply, checked, too_long_line};
pub use source_programs::source_program;
pub use streams::check_source;
pub use verdicts::Verdict;
