//! When a table that says of each cell only at some nodes what stands there is the least solution of a system of
//! equations: where it is thin, closed in what nodes own, and there below every closed table in which cells flow. What
//! states, cells and edges are, this crate does not know, nor how such a table is found; it holds no code but laws.
//!
//! Nodes 0, 1 and 2 in a row, and states of two cells. The edge from 0 to 1 touches the first cell, the one from 1 to 2
//! neither. So the first cell is kept at 0 and 1, and the second at 0 alone: at 1 and 2 it is what it is at 0, and at 2
//! the first is what it is at 1. Three cells stand for six. Where an edge changes a cell by a function of that cell
//! alone, it need not touch the cell: it carries it, and what stands behind the edge is what the function makes of it.
#![tactic(auto)]
