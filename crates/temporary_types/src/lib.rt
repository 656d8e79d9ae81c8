//! What the temporaries of a graph hold: numbers of an integer type, or pointers; which operations fit them; and as
//! code which temporaries hold pointers and how many there are. That the operations of the graphs of typed files fit,
//! this crate does not know.
//!
//! Where edges give temporary 0 by `Base`, 1 by a `Load` of an `int` from 0, and 2 by a `Copy` of 0, the temporaries 0
//! and 2 hold pointers, and 1 numbers of `int`.
#![tactic(auto)]

mod counts;
mod laws;
mod marks;

pub use counts::count_of_temporaries;
pub use laws::pointers_are_told;
pub use marks::pointer_temps;
