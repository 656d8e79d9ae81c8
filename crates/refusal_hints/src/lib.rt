//! What stands at the place where a source is refused, where the words round the place tell it: the construct of C that
//! the language leaves out, and what to write instead. It knows words and rows of patterns, and no grammar: where no
//! row fits, it tells nothing. What a row tells is right for each source that a C compiler takes; in another one the
//! construct stands there too, so far as the words go.
//!
//! In `struct S { unsigned f : 3; };`, refused as `Syntax` at its `:`, a word of a type and a name stand before a `:`:
//! that is a bit-field.
#![tactic(auto)]

mod bytes;
mod classes;
mod constructs;
mod hints;
pub mod laws;
mod other_rows;
mod patterns;
mod places;
mod rows;
mod syntax_rows;
mod words;

pub use constructs::{Construct, sentence};
pub use hints::construct_at;
