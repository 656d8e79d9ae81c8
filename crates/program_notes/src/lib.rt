//! All notes on a program as one line of JSON: its report, with what the alarms stand on, its races by object, its dead
//! places, the bounds of its objects, and the tasks, mutexes and objects, which stand by their numbers elsewhere. Where
//! what is noted comes from, this crate does not know.
//!
//! Where the task `t` of priority 1, at 1:31, divides 9 at 1:44 by a volatile `x` that holds 0, the line is, in parts,
//! `{"alarms":[{"always":false,"class":"DIV","col":44,"function":"t","line":1,"operands":[..],"operator":"/",`
//! `"path_count":1,"paths":[{"calls":[],"task":0}],"tasks":[0],"type":"int"}],"count":1,"dead":[],"mutexes":[],`
//! `"objects":[{"col":14,"hi":0,"line":1,"lo":0,"members":[{"hi":0,"lo":0,"name":"","volatile":true}],"name":"x",`
//! `"size":1,"static":true,"type":"volatile int"}],"races":[],"tasks":[{"col":31,"initial":false,"line":1,"name":"t",`
//! `"priority":1}]}`.
#![tactic(auto)]

mod alarm_objects;
mod context_objects;
mod declarations;
mod edges;
mod flaws;
mod guards;
mod lists;
mod noted;
mod object_objects;
mod operand_objects;
mod operations;
mod path_objects;
mod race_alarms;
mod race_objects;
mod whole;

pub use declarations::{Declaration, Declared, DeclaredObject, Runner, declared_of};
pub use edges::{edge_body, is_first};
pub use flaws::flaw_text;
pub use noted::Contents;
pub use operations::operation_of;
pub use whole::notes_text;
