//! What is visible at a place of the text, with the tables of types, structures and functions: names, tags and members
//! are looked up by an index, never by a scan. Which declarations there are and which are refused, this crate does not
//! know.
//!
//! Behind `int x; { char x;` the name `x` has two declarations: `named` gives the inner one, and the outer one again
//! once the block is left.
#![tactic(auto)]

mod declarations;
mod growth;
mod positions;
mod scopes;
mod starts;
mod structures;
mod types;

pub use declarations::{Bindings, Declaration, Declarations, Tags};
pub use growth::{Outside, clipped_product, clipped_sum};
pub use scopes::Scope;
pub use starts::ScopeTables;
pub use structures::Structures;
pub use types::Types;
