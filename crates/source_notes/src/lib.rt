//! From the bytes of a source, on a scale, to its report or to notes on what its least solution tells: the rings in
//! which its tasks may come to wait for each other, for each place that `waits` lists a shortest one that begins there,
//! with what each task of it holds and asks for; or its races by object, with all accesses to each object that has one,
//! the mutexes that are held there and those that were found free; or its other alarms, with the operation of each, the
//! values that its operands may have there, and the tasks; or advice on these, where their values come from; or the
//! places that depend on a choice which C99 leaves open; or the whole report with the races and alarms, the bounds of
//! objects and the dead places, as one line of JSON; or all of these as texts behind one another. The solution is found
//! on the calling thread, which waits for no other, or by up to 16 workers; as there is one least solution, the text is
//! the same. How it is found, how rings, races, contexts, advice and assumptions are read off it, and how they stand in
//! lines and in JSON, the crates below know.
//!
//! Where one task `a` locks `m` and then `n`, at 3:34, and another one `b` `n` and then `m`, at 4:34, the notes on
//! rings are `3:34 RING 2`, `3:34 a holds m asks n`, `4:34 b holds n asks m`, then `4:34 RING 2` with the same lines in
//! the other order, and `rings 2`. Where `a` stores to `x`, declared at 2:5, under `m` and `b` loads it under nothing,
//! the notes on races are `2:5 x RACES 2`, `3:40 a stores holds m free races`, `4:40 b loads holds free races`,
//! `races 1`. Where a task `c` of priority 7 divides 8 by what it got as 0 to 3, at 5:40, the notes on alarms are
//! `5:40 DIV / in int edges 1 tasks c 7`, `5:40 left 8 8 0`, `5:40 right 0 3 1`, `alarms 1`.
#![tactic(auto)]

mod answers;
mod finders;
mod parts;
mod streams;
mod words;

pub use answers::{Note, NoteReply, notes_of};
pub use streams::{tell_notes, tell_notes_by_workers};
pub use words::{AskedNotes, asked_notes, asks_notes};
