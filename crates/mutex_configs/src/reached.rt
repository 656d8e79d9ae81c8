//! The nodes of a configured graph.
ghost use Rattle.std.specs.Prelude.{◌≡◌, ◌<◌, ◌≤◌, ◌∷◌, [], option_map, IfOk, OnOk, All, Contains, length};
ghost use Rattle.flow_graph.specs.declared.graphs.Edge.{Edge as AnEdge};
ghost use Rattle.mutex_configs.specs.Sets.{IsOfSixteen, answers_of};
ghost use Rattle.mutex_configs.specs.Graphs.{IsGraph};
ghost use Rattle.mutex_configs.specs.reading.Groups.{AreGroups};
ghost use Rattle.mutex_configs.specs.reading.Searches.{added, added_by, added_along, added_all, IsEnded, IsFound};

use crate::nodes::ConfiguredNode;
use crate::sets::{asks, is_nowhere, node};
use flow_graph::{Edge, Graph};
use graph_facts::leaving;
use indexmap::IndexSet;
use std::alloc::Global;
use tm_lattice::NoMemory;

// One more node.
fn add(nodes: &mut IndexSet<ConfiguredNode>, q: ConfiguredNode) -> Result<(), NoMemory>
    ensures { OnOk result (nodes.new.keys ≡ added nodes.old.keys q) }
{
    match nodes.insert(q) {
        Ok(_) => Ok(()),
        Err(_) => Err(NoMemory),
    }
}

// The node to which the copy of an edge with this answer leads, if it leads somewhere.
fn add_copy(
    nodes: &mut IndexSet<ConfiguredNode>,
    edge: Edge,
    q: ConfiguredNode,
    answer: bool,
) -> Result<(), NoMemory>
    requires { IsOfSixteen edge.op }
    ensures { OnOk result (nodes.new.keys ≡ added_by nodes.old.keys edge q (answer ∷ [])) }
{
    if is_nowhere(edge.op, answer, q.held) {
        Ok(())
    } else {
        add(nodes, node(edge.op, answer, q, edge.to))
    }
}

// The nodes to which the copies of an edge lead.
fn add_along(
    nodes: &mut IndexSet<ConfiguredNode>,
    edge: Edge,
    q: ConfiguredNode,
) -> Result<(), NoMemory>
    requires { IsOfSixteen edge.op }
    ensures { OnOk result (nodes.new.keys ≡ added_along nodes.old.keys edge q) }
{
    add_copy(nodes, edge, q, true)?;
    if asks(edge.op) {
        add_copy(nodes, edge, q, false)?;
    }
    Ok(())
}

// The nodes to which the copies of some edges lead.
fn add_all(
    nodes: &mut IndexSet<ConfiguredNode>,
    edges: &[Edge],
    numbers: &[usize],
    q: ConfiguredNode,
) -> Result<(), NoMemory>
    requires mutexes { All (λ (e : AnEdge). IsOfSixteen e.op) edges.now }
    requires within { All (λ k. k < length edges.now) numbers.now }
    ensures { OnOk result (nodes.new.keys ≡ added_all edges.now nodes.old.keys numbers.now q) }
{
    for number in numbers {
        add_along(nodes, edges[*number], q)?;
    }
    Ok(())
}

// The nodes that are reached in a graph, as they are found; none where they are more than this number.
fn search(
    alloc: Global,
    graph: &Graph,
    most: usize,
) -> Result<Option<IndexSet<ConfiguredNode>>, NoMemory>
    requires { IsGraph graph.now }
    ensures { IfOk result (λ found. IsEnded graph.now most (option_map (λ s. s.keys) found)) }
{
    let leaving = leaving(alloc, graph)?;
    let mut nodes = IndexSet::new(alloc);
    add(
        &mut nodes,
        ConfiguredNode {
            place: 0,
            held: 0,
            found: 0,
        },
    )?;
    let mut done = 0;
    while done < nodes.len() {
        if nodes.len() > most {
            return Ok(None);
        }
        let q = nodes.as_slice()[done];
        add_all(&mut nodes, &graph.edges, &leaving[q.place as usize], q)?;
        done += 1;
    }
    Ok(Some(nodes))
}

/// The nodes that are reached in a graph, in order; none where they are more than this number.
pub(crate) fn reached(
    alloc: Global,
    graph: &Graph,
    most: usize,
) -> Result<Option<IndexSet<ConfiguredNode>>, NoMemory>
    requires { IsGraph graph.now }
    ensures { IfOk result (λ found. IsFound graph.now most (option_map (λ s. s.keys) found)) }
{
    let Some(mut nodes) = search(alloc, graph, most)? else {
        return Ok(None);
    };
    if nodes.len() > most {
        return Ok(None);
    }
    match nodes.sort() {
        Ok(()) => Ok(Some(nodes)),
        Err(_) => Err(NoMemory),
    }
}
