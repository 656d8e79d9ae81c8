//! The places of a source whose meaning in a compiled program depends on a choice that C99 leaves open, or that
//! compilers make otherwise, as far as the text and the tree of the source tell: skipped lines with `#pragma` (C99
//! 6.10.6), the word `restrict` (6.7.3.1), names of the library (7.1.3p1), sizes that depend on the alignment of `long
//! long` (6.7.2.1p12), negative numbers with which enumerations of static storage begin (6.7.2.2p4), and what address
//! constants in initialisers of static storage do (6.6p9, 6.5.6p8, 6.5.16.1p1). What runs do, this crate does not know.
//!
//! In `int abs(int v) { return 5; } int a[2]; int *p = &a[3];` there are two places: the name `abs`, in place of whose
//! calls compilers may put their own, and the sign `[`, where the pointer leaves the array.
#![tactic(auto)]

mod adding;
mod address_constants;
mod all;
mod enumerations;
mod integers;
mod kinds;
mod library_names;
mod pragmas;
mod reserved;
mod restricted;
mod sizes;
mod spots;
mod static_initialisers;
mod static_names;

pub use adding::{add_choice, add_where};
pub use all::{add_text_choices, opening_places};
pub use kinds::{Choice, Kind};
