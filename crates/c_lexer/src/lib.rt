//! From the bytes of a source to its tokens, exactly those that the lexis spells, or to the first reason to refuse it.
//! It knows words, constants and signs, and of a name only where its text stands first.
//!
//! The tokens of `x = 1/x;` are the name at byte 0, `=`, the constant 1, `/`, the same name, and `;`.
#![tactic(auto)]

mod characters;
mod constants;
mod gaps;
pub mod laws;
mod lexing;
mod names;
mod pieces;
mod places;
mod readings;
mod runs;
mod signs;
mod splices;
mod words;

pub use lexing::lex;
pub use pieces::begins;
pub use places::{bare_after, place_after};
