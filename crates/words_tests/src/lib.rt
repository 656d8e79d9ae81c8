//! Tests of what stands around the analysis, over public calls alone: the words of a command line, the report as JSON,
//! generated sources, and the views of reports over a text with line marks, that is their lines, summaries and logs, and
//! what is refused. It holds no code of its own, and it proves nothing of the crates that it calls.
//!
//! A row is a text and what it must give, as the words `analyse,--workers,4,17` and the command `analyse 4 17`; of views
//! a form, a name, a report, a text and what they must give: the report with `DIV` at 2:5 over the text of the lines
//! `# 7 "a.h"` and `x` gives the line `a.h:7:5: warning: the divisor may be zero [DIV]` and `alarms 1`.
#![tactic(auto)]

#[cfg(test)]
mod json;
#[cfg(test)]
mod large_views;
#[cfg(test)]
mod sources;
#[cfg(test)]
mod views;
#[cfg(test)]
mod words;
