//! Certificates are read: from the bytes behind the source of a certificate to tables and a store that fit its program,
//! and to none exactly where the bytes are the lines of no such pair. Each line is compared with what may stand there.
//! Whether tables and a store are a solution, this crate does not know.
//!
//! Of `task 0`, `store` and `end` the pair is read in which the one body of a program has no state at any node, and the
//! store is empty. Of `store` and `task 0` none is.
#![tactic(auto)]

mod assembled;
mod cells;
mod entries;
mod growing;
mod held;
mod kept;
mod kept_rows;
mod pairs;
mod rows;
mod shapes;
mod states;
mod stores;
mod tables;
mod values;

pub use pairs::{Pair, read};
