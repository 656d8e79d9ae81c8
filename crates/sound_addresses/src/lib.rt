//! The addresses in the graphs of a typed file: parts of structures and elements of arrays are taken where they stand.
//! It knows no table and no store.
//!
//! For `p->row[i].left` a graph has four operations: a dereference, which gives an address at which the structure
//! stands; the part `row`, which gives one at which the array stands; its element, where `i` is below the length; and
//! the part `left`. Each address is within its object whatever `p` and `i` are: a dereference or a subscript that
//! fails stops the run before.
#![tactic(auto)]

mod laws;

pub use laws::addresses_stay_within;
