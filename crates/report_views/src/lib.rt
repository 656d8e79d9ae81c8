//! Reports as engineers read them: a report, as JSON, and the preprocessed text that it is of give a line for each
//! alarm at its place in the file that it was written in, or how many alarms each class has. What is told of alarms is
//! shared out among the findings, in whose order it stands. It knows what these texts say, and line marks, and neither
//! words of a command nor streams, nor logs.
//!
//! The alarm `DIV` at line 2, column 27 of a text whose second line comes from line 12 of `pump.c` has the line
//! `pump.c:12:27: warning: the divisor may be zero [DIV]`.
#![tactic(auto)]

mod causes;
mod kinds;
mod lines;
mod rules;
mod sentences;
mod shares;
mod spots;
mod summaries;
mod views;

pub use causes::{Cause, cause_line, joined};
pub use lines::name_in;
pub use rules::rule_lines;
pub use sentences::{RULES, Rule, level, rule_help, rule_sentence, rule_word};
pub use shares::{push_sites, shared};
pub use spots::{Finding, Spot, findings_of, push_assumptions, push_places, spot_of};
pub use views::{
    Form, LONGEST_REPORT, LONGEST_TEXT, Reply, ViewFail, found, placed, read, traced, view,
};
