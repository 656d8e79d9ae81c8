//! Tables whose copies share what they do not change: a copy takes constant time, and a change of one leaves the others
//! as they are; a part that no other copy shares is written where it stands. It knows of the lattice of values alone;
//! what a table means is the finite map of its entries, as of a keyed table.
//!
//! A table has three levels: parts of 8 keys, branches of 32 parts, and the branches. A change of one key copies what
//! is shared of its part, of the pointers to the parts of its branch, and of those to all branches: of n keys at most 8
//! entries, 32 pointers and n / 256. An entry is several times as large as a pointer, so parts are smaller than
//! branches; and two levels of pointers keep a change in a table of 15,000 keys below 100 pointers, where one would
//! take 1,900.
//!
//! A table with keys 0 and 65536 is shared, and then another value is put at 65536 into the first: the copy still
//! gives the old value there, and both give the same at 0.
#![tactic(auto)]

mod branches;
mod trees;

pub use trees::Tree;
