//! From tokens to declarations and their parts, and to the expressions in them and in statements, exactly by the
//! grammar; where a form breaks off, a reader answers with the tokens at which it got stuck. It knows the names of
//! typedefs, in the order in which they are declared, and not what any other name means.
//!
//! In `int a[2]={1,;` the reader of values gets stuck at the `;`.
#![tactic(auto)]

pub mod declarations;
pub mod declarators;
pub mod enumerations;
pub mod expressions;
pub mod lists;
pub mod openings;
pub mod reads;
pub mod specifiers;
pub mod tokens;
pub mod values;
