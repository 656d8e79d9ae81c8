//! What specifiers and type names name: from the words of a list to a type of the table. How expressions and
//! declarators are typed, this crate does not know.
//!
//! `unsigned char * const` names a pointer that is `const`, to the type `unsigned char`; its row is the one that the
//! table has for `unsigned char *`.
#![tactic(auto)]

mod pointers;
mod preparation;
mod said;
mod words;

pub use pointers::{bare, is_void, type_of_name};
pub use preparation::{add_pointers, add_struct_tag, mention, prepare};
pub use said::{base, int_number, nothing_said, plain, said_type};
pub use words::{refusal, word};
