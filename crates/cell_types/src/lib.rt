//! Which scalar a cell of a type is, and whether a type stands at an offset of an object: so a pointer to it may be
//! dereferenced there, while the object is alive. Types may be of any depth, so that a cell is found by going down,
//! without recursion and without memory. What a task does with a pointer, this crate does not know.
//!
//! In `struct S { int a; char c[2]; } s[3];` the cell 5 of the type of `s` is a `char`, and the type `char[2]` stands
//! at the offsets 1, 4 and 7 of `s`.
#![tactic(auto)]

mod dereferences;
mod descents;
mod stands;

pub use dereferences::dereferenced;
pub use descents::scalar_of;
pub use stands::stands_at;
