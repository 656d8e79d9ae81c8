//! Notes on a program as JSON, for a machine that reads them: places, numbers, values of operands, operations that
//! may fail, accesses and requests, each as text without blanks, in which the members of an object stand in the order
//! of their names. Tasks, mutexes and objects stand by their numbers. Where they come from, this crate does not know.
//!
//! The place 5:40 is `{"col":40,"line":5}`. An operand of 0 to 3 that stands right is
//! `{"hi":3,"lo":0,"role":"right","step":1,"type":"int"}`. A store of the task 0 at 3:40 to a member `.k` under the
//! mutex 1 that races is
//! `{"col":40,"free":[],"held":[1],"kind":"store","line":3,"member":".k","racing":true,"task":0}`.
#![tactic(auto)]

mod accesses;
mod alarms;
mod names;
mod operands;
mod operations;
mod pieces;
mod words;

pub use accesses::{push_access, push_partner, push_race_back, push_race_front, push_request};
pub use alarms::{
    push_alarm_back, push_alarm_end, push_alarm_front, push_alarm_lines, push_alarm_middle,
    push_path_back, push_race_middle,
};
pub use names::{
    push_line, push_member, push_mutex, push_object_back, push_object_front, push_range, push_task,
};
pub use operands::{push_number_operand, push_offsets, push_pointer_back, push_pointer_front};
pub use operations::role_at;
pub use pieces::{push_comma, push_comma_if, push_number, push_place};
pub use words::{binary_text, type_text, unary_text};
