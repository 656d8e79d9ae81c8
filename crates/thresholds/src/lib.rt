//! The thresholds of a program: the numbers onto which the bounds of a value are moved outward, where an analysis could
//! go on for long. It knows what a typed file says of them, and no value and no state.
//!
//! `int a[10];` and `a[3] = 7;` have the thresholds 9 and 10 of the length; 2, 3, 4, -3 and 6, 7, 8, -7 of the
//! constants; 0, 1, -1; and the least and the greatest value of each integer type.
#![tactic(auto)]

mod lists;

pub use lists::marks;
