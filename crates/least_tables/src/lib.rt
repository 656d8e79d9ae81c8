//! Least solutions of systems of equations over a graph, found by a work list that applies edges until none brings
//! more, and the law that tasks whose passes end give the least solution of all together. What a system is, and whether
//! a given table covers one, the crate `table_covers` says; what a state is and what an edge does, neither knows.
//!
//! A loop that counts up from 0: node 0 holds 0 from the entry, an edge leads from 0 to the head 1, and an edge from
//! 1 to 1 adds one. States are numbers up to 9 with the order of numbers, rounded at 1 to 0 or 9. The edge from 0
//! brings 0 to node 1, its own edge brings 1, which is joined and rounded to 9; then nothing rises any more, and the
//! least table is 0 at node 0 and 9 at node 1.
#![tactic(auto)]

mod analysed_programs;
mod leaving_edges;
mod pending;
mod raising;
mod sweeps;
mod work_list;

pub use analysed_programs::{Analysed, least_by_passes, warm_starts};
pub use work_list::{Settled, least_table, settle};
