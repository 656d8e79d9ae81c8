//! Tests of what the analysis of C stands on, over public calls alone: numbers, sets, operators, pointers, filters and
//! streams; states, the store of interferences and thresholds; histories of passes and least tables; the shared store
//! and its workers; single edges on a layout, states and stores; and configured graphs, that is which nodes are
//! reached, where the copies of edges lead, and the limits. The library itself is empty. What holds of all cases is
//! proved in the crates that are tested here: these tables, worked by hand, show that the definitions say what was
//! meant, and the toys that the laws which the engine asks for can be met. Rows of definitions that can be evaluated
//! stand as facts in `proofs/`: C's integers, as gcc has them, and the rows of intervals and classes.
//!
//! So one row of `operators` is `Overflows(Add, Char, (100, 100, 1), (27, 28, 1), (127, 127, 1), true)`: 100 + {27,
//! 28} in a `char` gives 127, and may overflow. By one of `stores` a task of priority 2 sees what one of priority 1
//! wrote to a cell with no mutex held, where the cell is not fresh, and nothing where it is. By the toy of `toy` the
//! versions of a store are `{}`, `{0, 1}` and `{0, 1, 2, 3}`, for every number of workers: task 0 adds 0, which rounds
//! to 0 and 1; task 1 sees 0 and adds 2, which rounds to 2 and 3.
//!
//! A row of `edge_rows` is an operation, the state before it, what the other tasks wrote, and a picture of what the
//! edge does: of the store of 5 to the shared cell 0 under the mutex 0 `t1=5 c0=5:1f | w0/1/0=5 | 0 |`, that is the
//! state where it leads, what it adds to the store, the cells that it reaches, and the classes that it does not
//! exclude. A row of `copy_rows` is a list of edges and what they give: of a lock of the mutex 0 from place 0 to place
//! 1 the nodes `0/0/0` and `1/1/0` (place, held set, found set) and the copy `0:0>1` of the edge 0 from the first node
//! to the second.
#![tactic(auto)]

#[cfg(test)]
mod comparison_filters;
#[cfg(test)]
mod conversions;
#[cfg(test)]
mod copy_limits;
#[cfg(test)]
mod copy_pictures;
#[cfg(test)]
mod copy_rows;
#[cfg(test)]
mod cores;
#[cfg(test)]
mod counting_loop;
#[cfg(test)]
mod edge_pictures;
#[cfg(test)]
mod edge_rows;
#[cfg(test)]
mod edges;
#[cfg(test)]
mod forms;
#[cfg(test)]
mod history_tests;
#[cfg(test)]
mod layouts;
#[cfg(test)]
mod least_tests;
#[cfg(test)]
mod made_graphs;
#[cfg(test)]
mod made_states;
#[cfg(test)]
mod number_sets;
#[cfg(test)]
mod numbers;
#[cfg(test)]
mod operator_rows;
#[cfg(test)]
mod operators;
#[cfg(test)]
mod pointer_operations;
#[cfg(test)]
mod pointer_sets;
#[cfg(test)]
mod states;
#[cfg(test)]
mod stores;
#[cfg(test)]
mod streams;
#[cfg(test)]
mod strided_sets;
#[cfg(test)]
mod tables;
#[cfg(test)]
mod threads;
#[cfg(test)]
mod threshold_lists;
#[cfg(test)]
mod toy;
