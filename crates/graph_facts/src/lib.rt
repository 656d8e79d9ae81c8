//! Facts of graphs, which an analysis of a graph works with: the edges that leave each node, heads with their regions,
//! and the temporaries that are live at each node. How a graph is made, and what runs along it, this crate does not
//! know: a graph may be any edges between its nodes.
//!
//! With edges from 0 to 1, from 1 to 2, from 2 to 1 and from 1 to 3, the edges 1 and 3 leave node 1, and node 1 is the
//! only head: its region ends at node 2. Where the edge from 0 gives temporary 0 and the one from 2 uses it, this
//! temporary is live at the nodes 1 and 2.
#![tactic(auto)]

mod leaving_edges;
mod lists;
mod live;
mod regions;
mod uses;

pub use leaving_edges::leaving;
pub use live::{LiveTemporaries, live_temporaries};
pub use regions::{Head, heads};
pub use uses::{UsedTemporaries, given, used};
