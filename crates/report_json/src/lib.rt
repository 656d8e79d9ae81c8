//! The report as JSON, for a machine that reads it. It knows alarms and their order, and not where they come from.
//!
//! The report with the one alarm `DIV` at line 2, column 27 is, with byte 10 behind it,
//! `{"alarms":[{"class":"DIV","col":27,"line":2}],"count":1}`.
#![tactic(auto)]

pub mod laws;
mod reports;

pub use reports::report_json;
