//! A layout becomes a program that can be analysed: its graphs, and their configured graphs. Each step is that of a
//! crate below: this one sees to it that the graphs of a typed file that is laid out are graphs that can be configured.
//!
//! Of a file with one task and an initial section there are two graphs, and two configured graphs. Where one of the
//! graphs has more nodes than the scale allows, or more are reached with mutexes, the file is refused by the limit of
//! nodes.
#![tactic(auto)]

mod programs;

pub use programs::program;
