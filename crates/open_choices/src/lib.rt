//! The places of a source whose meaning in a compiled program depends on a choice that C99 leaves open, or that
//! compilers make otherwise than the definitions of what a program does; as the tables and the store of a solution
//! tell, and where edges come from. Where these come from, and what the text of a source leaves open, this crate does
//! not know.
//!
//! These kinds are looked for: CONST (C99 6.5.16.1p1, 6.7.3p5), ENUM (6.7.2.2p4), IMPLEMENTATION (6.3.1.3p3, 6.5.7p5),
//! LIFETIME (6.2.4p2), MEMBER (6.5.6p8, 6.5.9p6), ORDER (6.5p2, 6.5.2.2p10, 6.5.16p4, 6.7.8p23) and UNSET (6.3.2.1p2,
//! 6.9.1p12).
//!
//! In `int r, c; __task(1) void t(void) { int n; if (c) n = 1; r = n; }` there is one place, the `n` behind the `=`:
//! UNSET, for on the way past the `if` it was never stored.
#![tactic(auto)]

mod adding;
mod beginnings;
mod bodies;
mod constants;
mod conversions;
mod edges;
mod enumerations;
mod finding;
mod looks;
mod marks;
mod members;
mod passings;
mod sorting;
mod unset;
mod uses;

pub use finding::open_choices;
