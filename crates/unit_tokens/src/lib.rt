//! What the tokens of several preprocessed units say, and what becomes of them in one text: whether a token stays, gets
//! a new name, or is left out. Why it does this crate does not know, nor where a line comes from.
//!
//! A name `n` of unit 2 that gets a new name with the mark `_` says `n_2`, and any other token says what it is.
#![tactic(auto)]

mod fates;
pub mod laws;
mod names;
mod sayings;
mod shapes;
mod texts;

pub use fates::{Fate, Fated, are_rightly_left, kept, with_fates};
pub use names::{is_nowhere, new_name, unit_of};
pub use sayings::{Renaming, is_wanted};
