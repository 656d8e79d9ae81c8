//! Whole declarations: typedefs, objects at file scope and in blocks, tags. What specifiers, declarators and
//! initialisers give, other crates know; statements and functions, this crate does not know.
//!
//! `static int x = 1, *p = &x;` at file scope adds two objects of static storage; behind it `extern int x;` in a block
//! names the first of them, and `char x;` at file scope is refused as Redeclared at the `x`.
#![tactic(auto)]

mod declarations;
mod declared;
mod linkage;
mod objects;
mod typedefs;

pub use declarations::{file_declaration, local_declaration};
