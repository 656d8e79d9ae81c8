//! From tokens to the tree of a file of height at most 500, exactly by the grammar, or the first bracket that is too
//! deep, or a syntax error. It knows the names of typedefs, and neither types nor whether a name is declared.
//!
//! The tokens of `int x; ;` are a file of two items: a declaration, and an empty one. Those of `int x` are none: the
//! syntax error is at the last token.
#![tactic(auto)]

mod brackets;
mod files;
mod functions;
mod items;
pub mod laws;
mod parameters;
mod simple_statements;
mod statement_nodes;
mod statements;

pub use files::parse;
