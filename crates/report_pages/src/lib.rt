//! Pages of reports: a page of HTML shows the alarms of a report, as JSON, each in the file that it stands in, and the
//! lines of these files, over the preprocessed text that the report is of. What else it shows stands in composed texts.
//! It knows what a page says, and neither words of a command nor streams.
//!
//! The alarm `DIV` at line 2, column 27 of a text whose second line comes from line 12 of `pump.c` has a row with
//! `pump.c:12:27`, which leads to that line, `DIV` and its sentence.
#![tactic(auto)]

pub mod laws;
mod lines;
mod pages;
mod rows;
mod sources;

pub use pages::{Texts, page};
