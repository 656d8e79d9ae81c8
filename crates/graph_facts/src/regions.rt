//! Heads and their regions.
ghost use Rattle.std.specs.Prelude.{◌≡◌, IfOk, length, None, replicate, max};
ghost use Rattle.graph_facts.specs.Edges.{AreInRange};
ghost use Rattle.graph_facts.specs.Heads.{AreHeads};
ghost use Rattle.graph_facts.specs.reading.Heads.{AreLastBack, later};

use flow_graph::Graph;
use std::alloc::Global;
use tm_lattice::NoMemory;

/// A head: a node to which an edge leads back.
#[derive(Clone, Copy)]
pub struct Head {
    pub node: u32,
    /// The last node of its region: the greatest from which an edge leads back to it.
    pub last: u32,
}

// The greater of both.
fn later(known: Option<u32>, from: u32) -> u32
    ensures { result ≡ later known from }
{
    match known {
        Some(node) => { if node < from { from } else { node } }
        None => from,
    }
}

// No node for each node.
fn no_nodes(alloc: Global, count: u32) -> Result<Vec<Option<u32>>, NoMemory>
    ensures { IfOk result (λ v. v.items ≡ replicate count None) }
{
    let mut nodes = Vec::new(alloc);
    for _ in 0..count {
        nodes.push(None)?;
    }
    Ok(nodes)
}

// For each node the greatest from which an edge leads back to it, where there is one.
fn last_back(alloc: Global, graph: &Graph) -> Result<Vec<Option<u32>>, NoMemory>
    requires { AreInRange graph.now.edges.items graph.now.nodes }
    ensures { IfOk result (λ v. AreLastBack graph.now.edges.items graph.now.nodes v.items) }
{
    let mut last = no_nodes(alloc, graph.nodes)?;
    for number in 0..graph.edges.len() {
        let edge = &graph.edges[number];
        let to = edge.to as usize;
        if edge.to <= edge.from {
            last[to] = Some(later(last[to], edge.from));
        }
    }
    Ok(last)
}

/// The heads of a graph in rising order, each with the last node of its region.
pub fn heads(alloc: Global, graph: &Graph) -> Result<Vec<Head>, NoMemory>
    requires { AreInRange graph.now.edges.items graph.now.nodes }
    ensures { IfOk result (λ v. AreHeads graph.now.edges.items v.items) }
{
    let last = last_back(alloc, graph)?;
    let mut heads = Vec::new(alloc);
    for node in 0..graph.nodes {
        if let Some(last) = last[node as usize] {
            heads.push(Head { node, last })?;
        }
    }
    Ok(heads)
}
