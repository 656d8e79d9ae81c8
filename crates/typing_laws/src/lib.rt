//! Laws of typing: facts about its definitions, which no code of their own computes.
//!
//! `break;` outside a loop has no typed form: so each `breaks` of a typed statement stands in a loop or in a `switch`.
#![tactic(auto)]

mod answers;
mod placement;

pub use answers::{a_file_has_an_answer, a_file_has_one_answer};
pub use placement::{jumps_stand_where_they_may, labels_differ_in_their_type};
