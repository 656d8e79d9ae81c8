//! What the analyser answers, read back: the report as JSON, exactly the values that `report_json` writes, in any
//! layout of JSON; the places that `waits` and `ranges` list, exactly the texts that `solution_lines` writes; the
//! assumptions that `notes assumptions` lists; and what is told of alarms: with which accesses each races, and on
//! what ways control comes to it. It knows alarms, places and JSON, and no text of a source.
//!
//! `{"alarms":[{"class":"DIV","col":27,"line":2}],"count":1}` is the report with the one alarm `DIV` at line 2, column
//! 27; with `"count":2` it is JSON, and no report. The lines `2:34 WAIT`, `3:34 WAIT` and `waits 2` list two places;
//! with `waits 3` they list none. The line `9:5 RACE with 14:7 task writer stores` tells of the alarm `RACE` at line 9,
//! column 5 that it races with the access at line 14, column 7, and says `task writer stores`.
#![tactic(auto)]

mod alarms;
mod assumptions;
mod listings;
mod reports;
mod ways;

pub use assumptions::{Assumption, AssumptionKind, kind_word, place_words, read_assumptions};
pub use listings::{Listing, ListingFail, read_places};
pub use reports::{ReadFail, read_report};
pub use ways::{Way, WayKind, read_ways};
