//! The copies of edges.
ghost use Rattle.std.specs.Prelude.{◌≡◌, ◌<◌, ◌^◌, ◌++◌, ◌∷◌, [], length, get_or, IfOk, OnOk, All};
ghost use Rattle.flow_graph.specs.declared.graphs.Edge.{Edge as AnEdge};
ghost use Rattle.mutex_configs.specs.declared.nodes.ConfiguredNode.{ConfiguredNode as ANode};
ghost use Rattle.mutex_configs.specs.Sets.{IsOfSixteen};
ghost use Rattle.mutex_configs.specs.Graphs.{IsGraph};
ghost use Rattle.mutex_configs.specs.Nodes.{target, copy_of, all_copies};
ghost use Rattle.mutex_configs.specs.reading.Copying.{copies_of_node, copies_at};

use crate::groups::nodes_by_place;
use crate::nodes::{ConfiguredNode, EdgeCopy};
use crate::sets::{asks, is_nowhere, node};
use flow_graph::{Edge, Graph};
use indexmap::IndexSet;
use std::alloc::Global;
use tm_lattice::NoMemory;

// The number of the node to which a copy leads.
fn target_of(
    nodes: &IndexSet<ConfiguredNode>,
    edge: Edge,
    q: ConfiguredNode,
    answer: bool,
) -> Option<u32>
    requires mutexes { IsOfSixteen edge.op }
    requires count { length nodes.now.keys < 2 ^ 32 }
    ensures { result ≡ target nodes.now.keys edge.op answer q edge.to }
{
    if is_nowhere(edge.op, answer, q.held) {
        return None;
    }
    match nodes.get_index_of(&node(edge.op, answer, q, edge.to)) {
        Some(index) => Some(index as u32),
        None => None,
    }
}

// The copy of an edge with this answer.
fn copy(
    nodes: &IndexSet<ConfiguredNode>,
    number: usize,
    edge: Edge,
    from: u32,
    q: ConfiguredNode,
    answer: bool,
) -> EdgeCopy
    requires mutexes { IsOfSixteen edge.op }
    requires count { length nodes.now.keys < 2 ^ 32 }
    ensures { result ≡ copy_of nodes.now.keys number edge from q answer }
{
    EdgeCopy {
        edge: number,
        from,
        answer,
        to: target_of(nodes, edge, q, answer),
    }
}

// The copies of an edge from one node.
fn push_copies(
    copies: &mut Vec<EdgeCopy>,
    nodes: &IndexSet<ConfiguredNode>,
    number: usize,
    edge: Edge,
    from: u32,
) -> Result<(), NoMemory>
    requires mutexes { IsOfSixteen edge.op }
    requires count { length nodes.now.keys < 2 ^ 32 }
    requires within { from < length nodes.now.keys }
    ensures { OnOk result (copies.new.items ≡ copies.old.items ++ copies_of_node nodes.now.keys number edge from) }
{
    let q = nodes.as_slice()[from as usize];
    copies.push(copy(nodes, number, edge, from, q, true))?;
    if asks(edge.op) {
        copies.push(copy(nodes, number, edge, from, q, false))?;
    }
    Ok(())
}

// The copies of an edge from the nodes with these numbers.
fn push_all(
    copies: &mut Vec<EdgeCopy>,
    nodes: &IndexSet<ConfiguredNode>,
    number: usize,
    edge: Edge,
    from: &[u32],
) -> Result<(), NoMemory>
    requires mutexes { IsOfSixteen edge.op }
    requires count { length nodes.now.keys < 2 ^ 32 }
    requires within { All (λ n. n < length nodes.now.keys) from.now }
    ensures { OnOk result (copies.new.items ≡ copies.old.items ++ copies_at nodes.now.keys number edge from.now) }
{
    for node in from {
        push_copies(copies, nodes, number, edge, *node)?;
    }
    Ok(())
}

/// The copies of all edges of a graph.
pub(crate) fn copies(
    alloc: Global,
    graph: &Graph,
    nodes: &IndexSet<ConfiguredNode>,
) -> Result<Vec<EdgeCopy>, NoMemory>
    requires graph { IsGraph graph.now }
    requires count { length nodes.now.keys < 2 ^ 32 }
    requires places { All (λ (q : ANode). q.place < graph.now.nodes) nodes.now.keys }
    ensures { IfOk result (λ v. v.items ≡ all_copies nodes.now.keys 0 graph.now.edges.items) }
{
    let at = nodes_by_place(alloc, nodes.as_slice(), graph.nodes)?;
    let mut copies = Vec::new(alloc);
    for number in 0..graph.edges.len() {
        let edge = graph.edges[number];
        push_all(&mut copies, nodes, number, edge, &at[edge.from as usize])?;
    }
    Ok(copies)
}
