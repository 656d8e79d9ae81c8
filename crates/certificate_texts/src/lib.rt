//! The text of a certificate: a source, and the tables and the store that were found for its program, line by line, so
//! that another program can test them. Where tables and a store come from, and whether they are a solution, this crate
//! does not know.
//!
//! The certificate of the empty source is `tmcert 1`, `source 0`, an empty line, `store` and `end`. A state in which
//! the temporary 1 is a copy of the cell 0, where 0 to 9 may stand and which was just stored, has the lines
//! `t 1 i 0 9 1`, `c 0 i 0 9 1`, `f 0`, `k 1 0`.
#![tactic(auto)]

mod cells;
mod certificates;
mod kept;
mod laws;
mod pages;
mod sizes;
mod splits;
mod states;
mod stores;
mod tables;
mod values;
mod writing;

pub use certificates::Written;
pub use laws::{pairs_have_one_text, texts_are_split};
pub use pages::CERTIFICATE_LIMIT;
pub use sizes::numbers_are_small;
pub use splits::split;
pub use writing::written;
