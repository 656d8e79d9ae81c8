//! Sets of values of a type: numbers that an integer type holds, or pointers to objects of a program, with their sizes.
//! What operators give is of the type of their result, and joins, roundings and meets of values of a type are of this
//! type. Which types temporaries and cells have, and what a state is, this crate does not know.
//!
//! In a program whose object 0 has two cells, {1, 2} is of the types `char` and `int`, and the pointer to the object 0
//! with this size, at the offsets 0 and 1, is of every pointer type. The join of {1, 2} with {300} is of type `int`,
//! and of type `char` no more than {300} is.
#![tactic(auto)]

mod kept;
mod operators;

pub use kept::values_keep_their_types;
pub use operators::{numbers_are_of_types, pointers_keep_their_objects};
