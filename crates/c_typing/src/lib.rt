//! Files: from the tree of a file to its typed form, or the first construct that meets a row of the rules, with its
//! kind and place. Which name is spelled `main` the caller says; what a typed file is used for, this crate does not
//! know.
//!
//! The file `int f(void); int x = 1;` becomes a function without a body and an object. That of `int f(int n) { return
//! f(n - 1); }` is refused as Recursive at the name `f`.
#![tactic(auto)]

mod bodies;
mod closing;
mod files;
mod found;
mod functions;
mod heads;
mod items;
mod parameters;
mod tasks;

pub use files::typed;
