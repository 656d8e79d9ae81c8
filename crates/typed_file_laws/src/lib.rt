//! Laws of typed files: what every later layer may rely on. They say nothing of refused files.
//!
//! In `struct S { struct S *next; int a[2]; } s;` the members stand at the cells 0 and 1, and the table says that `s`
//! has three cells.
#![tactic(auto)]

mod bodies;
mod layouts;

pub use bodies::{
    bodies_are_well_formed, calls_stand_at_their_sites, numbers_are_of_integer_types,
};
pub use layouts::typed_files_can_be_laid_out;
