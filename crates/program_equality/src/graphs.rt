//! Graphs and configured graphs.
ghost use Rattle.std.specs.Prelude.{◌≡◌, ◌↔◌, IsTrue};

use crate::alike::{Alike, are_alike};
use flow_graph::Edge;
use graph_facts::Head;
use indexmap::IndexSet;
use mutex_configs::{ConfiguredNode, EdgeCopy};

impl Alike for Edge {
    fn is_alike(&self, other: &Edge) -> bool {
        self.from == other.from && self.to == other.to && self.op.is_alike(&other.op)
    }
}

impl Alike for Head {
    fn is_alike(&self, other: &Head) -> bool {
        self.node == other.node && self.last == other.last
    }
}

impl Alike for ConfiguredNode {
    fn is_alike(&self, other: &ConfiguredNode) -> bool {
        *self == *other
    }
}

impl Alike for EdgeCopy {
    fn is_alike(&self, other: &EdgeCopy) -> bool {
        self.edge == other.edge
            && self.from == other.from
            && self.answer == other.answer
            && self.to == other.to
    }
}

/// Whether two graphs have the same edges in the same order.
pub fn are_same_edges(one: &[Edge], other: &[Edge]) -> bool
    ensures { IsTrue result ↔ (one.now ≡ other.now) }
{
    are_alike(one, other)
}

/// Whether two graphs have the same heads, with the same regions.
pub fn are_same_heads(one: &[Head], other: &[Head]) -> bool
    ensures { IsTrue result ↔ (one.now ≡ other.now) }
{
    are_alike(one, other)
}

/// Whether two configured graphs have the same nodes in the same order.
pub fn are_same_nodes(one: &IndexSet<ConfiguredNode>, other: &IndexSet<ConfiguredNode>) -> bool
    ensures { IsTrue result ↔ (one.now.keys ≡ other.now.keys) }
{
    are_alike(one.as_slice(), other.as_slice())
}

/// Whether two configured graphs have the same copies of edges in the same order.
pub fn are_same_copies(one: &[EdgeCopy], other: &[EdgeCopy]) -> bool
    ensures { IsTrue result ↔ (one.now ≡ other.now) }
{
    are_alike(one, other)
}
