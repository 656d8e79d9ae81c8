//! The numbers on which the value domain stands: divisors, congruence and powers of two, with their laws and the one
//! code of the greatest common divisor. It knows nothing of C: types, operators and sets of numbers stand above it.
//!
//! So `gcd(12, 18)` is 6, `gcd(0, 0)` is 0, and 20 is congruent to 8 modulo 6 as 6 divides 12.
#![tactic(auto)]

mod divisors;
pub mod laws;
mod powers;

pub use divisors::gcd;
pub use powers::power_of_two;
