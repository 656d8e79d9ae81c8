//! Which edges leave each node.
ghost use Rattle.std.specs.Prelude.{IfOk};
ghost use Rattle.graph_facts.specs.Edges.{AreInRange};
ghost use Rattle.graph_facts.specs.Leaving.{AreLeaving};
ghost use Rattle.graph_facts.specs.Lists.{numbers};

use crate::lists::{no_places, push_place};
use flow_graph::Graph;
use std::alloc::Global;
use tm_lattice::NoMemory;

/// For each node the numbers of the edges that leave it, in order.
pub fn leaving(alloc: Global, graph: &Graph) -> Result<Vec<Vec<usize>>, NoMemory>
    requires { AreInRange graph.now.edges.items graph.now.nodes }
    ensures { IfOk result (λ v. AreLeaving graph.now.edges.items graph.now.nodes (numbers v.items)) }
{
    let mut leaving = no_places(alloc, graph.nodes)?;
    for number in 0..graph.edges.len() {
        let from = graph.edges[number].from as usize;
        push_place(&mut leaving, from, number)?;
    }
    Ok(leaving)
}
