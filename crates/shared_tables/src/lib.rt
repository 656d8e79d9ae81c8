//! Tables whose copies share all their entries: a copy takes constant time, and a change of one leaves the others as
//! they are; entries that no other copy shares are written where they stand. It knows of the lattice of values alone;
//! what a table means is the finite map of its entries, as of a keyed table. It is made for tables with few entries, or
//! that rarely change: a change of shared entries copies all of them.
//!
//! A table with an entry at 0 is shared, and then another value is put at 0 into the first: the copy still gives the old
//! value there.
#![tactic(auto)]

mod tables;

pub use tables::SharedTable;
