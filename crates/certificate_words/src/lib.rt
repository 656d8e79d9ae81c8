//! Texts of lines of words, of which certificates are made: a word is a tag of small letters or a number in decimal.
//! What the lines tell of a program, this crate does not know.
//!
//! The line of the words `i`, -3, 5 and 2 is `i -3 5 2`, with byte 10 behind it. `i -3  5`, `i 05`, `i -0` and a line
//! without byte 10 are no lines.
#![tactic(auto)]

mod firsts;
mod laws;
mod lines;
mod numbers;
mod words;

pub use laws::words_have_one_text;
pub use lines::{Lines, push_line};
pub use numbers::natural;
pub use words::Word;
