//! Parts of certificates, from their lines and words: a text with the words of its next line, sets of numbers, and the
//! offsets of pointers in objects. Which lines a certificate has, and what they tell of a program, this crate does not
//! know.
//!
//! Of the words 3, 0, 4 and 2 the object 3 is read with the offsets 0, 2 and 4, where there are four objects and this
//! one has four cells at least; where it has three, nothing is.
#![tactic(auto)]

mod ahead;
mod pointers;
mod rows;
mod sets;
mod words;

pub use ahead::Ahead;
pub use pointers::{objects_in, pointers_in};
pub use rows::{Allowed, marks_in, numbers_in};
pub use sets::set_in;
pub use words::{are_words, behind, first_number};
