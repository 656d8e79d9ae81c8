//! What a task does next: the next action after a list of answers, found by going through the typed tree of its body
//! from the start. It answers for every list: where an answer does not fit its action, and where a loop makes a turn
//! without an answer, it says so. What answers an action, and which task is at work, this crate does not know.
//!
//! In `int x; __task(1) void t(void){ x = x + 1; }` the task first loads `x`. After the answer 4 it stores 5, and after
//! that is done it has ended.
#![tactic(auto)]

/// What a part gave; where it stops the task, the task stops there.
macro_rules! given {
    ($part:expr) => {
        match $part {
            Ok(given) => given,
            Err(next) => return Err(next),
        }
    };
}

mod answers;
mod expressions;
mod forms;
mod interpreter;
mod labels;
mod objects;
mod operations;
mod statements;

pub use interpreter::next;
