//! Specifiers with everything in their braces, and declarators: from the text of a declaration to the types that it
//! names. What is declared with these types, and how it is initialised, this crate does not know.
//!
//! `struct S { int x; unsigned char y[4]; } *p` makes the structure `S` with the members `x` at cell 0 and `y` at cell
//! 1; `specified` gives what the specifiers say, and `declared` the type of `p`, a pointer to the structure.
#![tactic(auto)]

mod declarators;
mod enumerations;
mod layouts;
mod members;
mod rules;
mod specifiers;

pub use declarators::{declared, declared_pointers};
pub use rules::{declared_name, declared_place, is_no_object};
pub use specifiers::specified;
