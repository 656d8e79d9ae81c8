//! C's operators and conversions on strided sets: the value, which holds the result for each pair of members, and the
//! classes of errors that are not excluded. They know no variables and no memory: a set is all that they see of an
//! operand.
//!
//! So in an `int` {100, 200} / {0, 5} gives the numbers from 20 to 40, and the class of a zero divisor is not excluded.
#![tactic(auto)]

mod bits;
mod classes;
mod comparisons;
mod conversions;
mod fittings;
pub mod laws;
mod operands;
mod operators;
mod outcomes;
mod parts;
mod products;
mod quotients;
mod remainders;
mod shifts;
mod sums;
mod unary;

pub use conversions::converted;
pub use operators::binary;
pub use outcomes::{Classes, Outcome};
pub use unary::{invert, negate};
