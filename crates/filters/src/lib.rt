//! Filters: what is left of two strided sets, or of two sets of pointers, where a comparison of their members holds.
//! They look at one comparison at a time, and do not know from where its operands come.
//!
//! So where x of {0, 5, .., 20} is less than y of {0, 4, .., 12}, x is in {0, 5, 10} and y in {4, 8, 12}.
#![tactic(auto)]

mod comparisons;
pub mod laws;
mod pointers;

pub use comparisons::assume;
pub use pointers::assume_ptr;
