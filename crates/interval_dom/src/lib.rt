//! The interval rows: for each operator of C the interval that holds every result, from the intervals that hold its
//! operands; the ends are `i128`, in which no row of 64-bit operands overflows. They do not say that the interval is
//! the least one, and know neither C's types nor its errors.
//!
//! So of the numbers from -7 to 7 and those from 2 to 3 each quotient lies from -3 to 3 (`div`).
#![tactic(auto)]

mod arithmetic;
mod bitwise;
mod intervals;
pub mod laws;
mod shifts;

pub use arithmetic::{add, div, mul, mul_u, rem, sub};
pub use bitwise::{and, or, xor};
pub use intervals::{Interval, IntervalU};
pub use shifts::{shl, shr};
