//! The state in which a body ends.
ghost use Rattle.std.specs.Prelude.{◌≡◌, ◌<◌, All, IfOk, get_or, length, not, slice_set, true};
ghost use Rattle.tm_lattice.specs.Tables.{joined_at};
ghost use Rattle.pointer_dom.specs.Values.{joined_values};
ghost use Rattle.cell_env.specs.States.{joined_state};
ghost use Rattle.body_systems.specs.table_covers.Solutions.{at};
ghost use Rattle.mutex_configs.specs.declared.nodes.ConfiguredNode.{ConfiguredNode as ANode};
ghost use Rattle.mutex_configs.specs.Nodes.{entry_node};
ghost use Rattle.body_systems.specs.program_equations.Entries.{ended_in};
ghost use Rattle.entry_states.specs.reading.Leaving.{AreLeft};

use body_systems::BodyState;
use flow_graph::Graph;
use indexmap::IndexSet;
use mutex_configs::ConfiguredNode;
use std::alloc::Global;
use tm_lattice::{Lattice, NoMemory};

// Marks a place, where there is a mark for it.
fn mark(left: &mut Vec<bool>, place: u32)
    ensures { left.new.items ≡ slice_set left.old.items place true }
{
    if let Some(mark) = left.get_mut(place as usize) {
        *mark = true;
    }
}

// For each place whether an edge leaves it.
fn left_places(alloc: Global, graph: &Graph) -> Result<Vec<bool>, NoMemory>
    ensures { IfOk result (λ left. AreLeft graph.now.edges.items graph.now.nodes left.items) }
{
    let mut left = vec![in alloc; false; graph.nodes as usize]?;
    for edge in &graph.edges {
        mark(&mut left, edge.from);
    }
    Ok(left)
}

// Whether no edge leaves the place of a node.
fn is_end(left: &[bool], nodes: &[ConfiguredNode], number: usize) -> bool
    requires number { number < length nodes.now }
    requires place { (get_or nodes.now number entry_node).place < length left.now }
    ensures { result ≡ not (get_or left.now (get_or nodes.now number entry_node).place true) }
{
    !left[nodes[number].place as usize]
}

// The join of two states, where none counts as nothing.
fn joined(
    alloc: Global,
    one: Option<BodyState>,
    other: &Option<BodyState>,
) -> Result<Option<BodyState>, NoMemory>
    ensures { IfOk result (λ both. both ≡ joined_at (joined_state joined_values) one other.now) }
{
    match one {
        None => match other {
            None => Ok(None),
            Some(other) => Ok(Some(other.copied(alloc)?)),
        },
        Some(one) => match other {
            None => Ok(Some(one)),
            Some(other) => Ok(Some(one.join(alloc, other)?)),
        },
    }
}

/// The state in which a body ends, by its graph, the nodes of its configured graph, and its table, which has a state or
/// none for each node: the join of the states at those nodes the place of which no edge leaves. None where no such node
/// is reached.
pub fn ended_state(
    alloc: Global,
    graph: &Graph,
    nodes: &IndexSet<ConfiguredNode>,
    table: &[Option<BodyState>],
) -> Result<Option<BodyState>, NoMemory>
    requires places { All (λ (q : ANode). q.place < graph.now.nodes) nodes.now.keys }
    requires table { length table.now ≡ length nodes.now.keys }
    ensures { IfOk result (λ state. state ≡ ended_in graph.now.edges.items nodes.now.keys (at table.now)) }
{
    let left = left_places(alloc, graph)?;
    let mut ended = None;
    for number in 0..nodes.len() {
        if is_end(&left, nodes.as_slice(), number) {
            ended = joined(alloc, ended, &table[number])?;
        }
    }
    Ok(ended)
}
