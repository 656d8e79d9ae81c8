//! The calculations and comparisons of a graph's edges on the temporaries of a state, as code: the values that they
//! give, the classes of errors that are not excluded, and what a comparison that holds leaves of both sides. They read
//! temporaries alone: no cell and no store.
//!
//! Where the temporaries 0 and 1 are {1, 2} and {0, 5}, their quotient in an `int` gives 0 to 2, and the class of a
//! zero divisor is not excluded; and where `0 < 1` is known to hold, {1, 2} is left of the one side, and {5} of the
//! other.
#![tactic(auto)]

mod addresses;
mod comparisons;
mod dereferences;
mod numbers;
mod values;

pub use addresses::{element, moved, part};
pub use comparisons::{compared, numbers_assumed, pointers_assumed, usable};
pub use dereferences::{Followed, dereferenced};
pub use numbers::{complemented, converted, negated, operated};
pub use values::{Calculated, copied, no_classes, numbers_of, pointers_of, value_of};
