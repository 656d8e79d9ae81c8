//! Which accesses race, and the report of the errors and the races that were found. Where accesses come from, this
//! crate does not know.
//!
//! A task of priority 1 stores to cell 0 while it holds no mutex, at 1:20, and a task of priority 2 loads from it at
//! 2:20: the accesses race, and the report has a RACE at each place. Where both hold a mutex, neither races.
#![tactic(auto)]

mod accesses;
mod reports;
mod ways;

pub use accesses::{Access, Way, do_race, push_access};
pub use reports::{push_alarm, report_of};
pub use ways::{add_way, is_racing, make_room};
