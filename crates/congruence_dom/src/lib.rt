//! The congruence rows: for each operator of C the congruence class that holds every result, from the classes that hold
//! its operands; residues and moduli are `i128`, in which no row of 64-bit operands overflows. They do not say that the
//! class is the least one, and know neither C's types nor its errors.
//!
//! So of the numbers that are 1 modulo 4 and those that are 2 modulo 6, each sum is 3 modulo 2 (`add`): odd.
#![tactic(auto)]

mod arithmetic;
mod classes;
pub mod laws;
mod shifts;

pub use arithmetic::{add, div, mul, mul_u, rem, sub};
pub use classes::{Cong, CongU};
pub use shifts::{shl, shl_from, shr};
