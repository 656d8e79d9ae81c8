//! What the operations of graphs have of typed files: each fits the types of its temporaries, and each copy is one of a
//! temporary that an earlier edge gives, so that one pass tells which temporaries hold pointers. No edge gives a
//! temporary from the first copy of it on. What operations do with values, and how an analysis follows them, this crate
//! does not know; it holds no code.
//!
//! In `int x; char c; x = c;` the address of `x` is temporary 0, that of `c` is 1, and 2 is what `c` holds: 0 and 1
//! hold pointers, and 2 numbers of `char`. A conversion to `int` makes no operation, since `int` has all these numbers,
//! so that the store of an `int` takes temporary 2.
#![tactic(auto)]

mod laws;

pub use laws::{copies_are_settled, copies_follow, operations_fit, pointers_are_told_in_graphs};
