//! Cells that are placed on a graph.
ghost use Rattle.std.specs.Prelude.{◌≡◌, ◌<◌, [], length, map, replicate, slice_set, IfOk, IfSome, Some, None};
ghost use Rattle.std.specs.List.Sorted.{IsStrictlyIncreasing};
ghost use Rattle.cell_placings.specs.CellLists.{cells_at};
ghost use Rattle.cell_placings.specs.OwnerTrees.{tree_of, kept_in, placing_of};
ghost use Rattle.cell_placings.specs.Placed.{IsCellPlaced};
ghost use Rattle.cell_placings.specs.Checks.{IsTree};
ghost use Rattle.cell_placings.specs.reading.Walks.{AreTimed};

use crate::cell_graphs::CellGraph;
use crate::checks::are_placed;
use crate::finding::found_owners;
use crate::frontiers::nodes_below;
use crate::histories::History;
use crate::lists::filled;
use crate::owners::Owners;
use crate::walks::walk;
use std::alloc::Global;
use std::marker::Model;
use tm_lattice::NoMemory;

/// Which nodes of a graph own which cells, and where a cell is kept at a node that does not own it.
#[derive(Drop)]
pub struct CellPlacing {
    owners: Owners,
    // For each node a time at which the walk was there.
    times: Vec<usize>,
    // For each cell where it was kept along the walk.
    histories: Vec<History>,
}

impl Model for CellPlacing {
    ghost use Rattle.cell_placings.specs.OwnerTrees.{OwnerTree, tree_of};
    ghost use Rattle.cell_placings.specs.reading.Walks.{IsTabled};

    ghost Value = { OwnerTree };

    ghost view = { λ placing. tree_of placing.owners };

    ghost invariant = { λ placing. IsTabled (tree_of placing.owners) placing.times.items placing.histories.items };
}

impl CellPlacing {
    /// How many nodes there are.
    pub fn nodes(&self) -> usize
        ensures { result ≡ length self.now.above }
    {
        self.owners.above.len()
    }

    /// How many cells there are. Node 0 owns all of them.
    pub fn cells(&self) -> usize
        ensures { result ≡ self.now.cells }
    {
        self.owners.cells
    }

    /// The cells that a node owns, in rising order. What stands for node 0 says nothing: it owns all cells.
    pub fn owned(&self, node: usize) -> &[usize]
        requires { node < length self.now.above }
        ensures same { result.now ≡ cells_at self.now.owned node }
        ensures rising { IsStrictlyIncreasing result.now }
    {
        self.owners.owned[node].cells()
    }

    /// The node at which a cell is kept at a node. It takes time logarithmic in the number of nodes that own the cell
    /// and of cells that the node owns.
    pub fn kept_at(&self, node: usize, cell: usize) -> usize
        requires { node < length self.now.above }
        ensures { result ≡ kept_in self.now node cell }
    {
        if self.owners.has(node, cell) {
            return node;
        }
        let time = self.times[node];
        let history = &self.histories[cell];
        history.at(time)
    }
}

/// Finds which nodes own which cells and checks it. None where what is found does not pass: of what is found nothing
/// is proved.
pub fn place_cells(alloc: Global, graph: &CellGraph) -> Result<Option<CellPlacing>, NoMemory>
    ensures nodes { IfOk result (λ found. IfSome found (λ tree. length tree.above ≡ graph.now.nodes)) }
    ensures placed { IfOk result (λ found. IfSome found (λ tree. IsCellPlaced graph.now (placing_of graph.now tree))) }
{
    let owners = found_owners(alloc, graph)?;
    Ok(checked_placing(alloc, graph, owners)?)
}

/// The cells placed by these owners. None where they are not well placed, or the walk that notes where cells are kept
/// does not come to each node.
pub fn checked_placing(
    alloc: Global,
    graph: &CellGraph,
    owners: Owners,
) -> Result<Option<CellPlacing>, NoMemory>
    ensures same { IfOk result (λ found. IfSome found (λ tree. tree ≡ tree_of owners)) }
    ensures nodes { IfOk result (λ found. IfSome found (λ tree. length tree.above ≡ graph.now.nodes)) }
    ensures placed { IfOk result (λ found. IfSome found (λ tree. IsCellPlaced graph.now (placing_of graph.now tree))) }
{
    if !are_placed(graph, &owners) {
        return Ok(None);
    }
    let Some(walked) = walked_histories(alloc, &owners)? else {
        return Ok(None);
    };
    match all_times(alloc, &walked.times)? {
        None => Ok(None),
        Some(times) => Ok(Some(CellPlacing {
            owners,
            times,
            histories: walked.histories,
        })),
    }
}

// The times at which a walk over the tree came to its nodes, and where each cell was kept on the way.
#[derive(Drop)]
struct Walked {
    times: Vec<Option<usize>>,
    histories: Vec<History>,
}

// Walks over the tree. None where the walk does not go over it.
fn walked_histories(alloc: Global, owners: &Owners) -> Result<Option<Walked>, NoMemory>
    requires { IsTree (length owners.now.above.items) (tree_of owners.now) }
    ensures { IfOk result (λ found. IfSome found (λ walked.
        AreTimed (tree_of owners.now) walked.times.items walked.histories.items)) }
{
    let below = nodes_below(alloc, &owners.above)?;
    let mut places = filled(alloc, owners.above.len(), 0)?;
    let mut times = first_times(alloc, owners.above.len())?;
    let mut histories = no_histories(alloc, owners.cells)?;
    let is_walked = walk(owners, &below, &mut places, &mut times, &mut histories)?;
    if is_walked {
        return Ok(Some(Walked { times, histories }));
    }
    Ok(None)
}

// Node 0 was seen at time 0, and no other node yet.
fn first_times(alloc: Global, nodes: usize) -> Result<Vec<Option<usize>>, NoMemory>
    requires { 0 < nodes }
    ensures { IfOk result (λ times. times.items ≡ slice_set (replicate nodes None) 0 (Some 0)) }
{
    let mut times = no_times(alloc, nodes)?;
    times[0] = Some(0);
    Ok(times)
}

// No node was seen.
fn no_times(alloc: Global, nodes: usize) -> Result<Vec<Option<usize>>, NoMemory>
    ensures { IfOk result (λ times. times.items ≡ replicate nodes None) }
{
    let mut times = Vec::new(alloc);
    for _ in 0..nodes {
        times.push(None)?;
    }
    Ok(times)
}

// For each cell the history in which nothing changes.
fn no_histories(alloc: Global, cells: usize) -> Result<Vec<History>, NoMemory>
    ensures { IfOk result (λ histories. histories.items ≡ replicate cells []) }
{
    let mut histories = Vec::new(alloc);
    for _ in 0..cells {
        histories.push(History::new(alloc))?;
    }
    Ok(histories)
}

// The times, where each is there.
#[tactic(auto, using(crate::proofs::Noting::times_next))]
fn all_times(alloc: Global, times: &[Option<usize>]) -> Result<Option<Vec<usize>>, NoMemory>
    ensures { IfOk result (λ all. IfSome all (λ list. times.now ≡ map Some list.items)) }
{
    let mut all = Vec::new(alloc);
    for time in times {
        match time {
            None => return Ok(None),
            Some(time) => all.push(*time)?,
        }
    }
    Ok(Some(all))
}
