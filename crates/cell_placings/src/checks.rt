//! The check of owners, node by node and edge by edge.
ghost use Rattle.std.specs.Prelude.{◌≡◌, ◌<◌, ◌↔◌, ℕ, IsTrue, length, true};
ghost use Rattle.cell_placings.specs.CellLists.{is_in, cells_at};
ghost use Rattle.cell_placings.specs.OwnerTrees.{tree_of, owns_in};
ghost use Rattle.cell_placings.specs.Checks.{IsTree, IsBelowAnother, IsEdgePlaced, AreOwnersPlaced};
ghost use Rattle.cell_placings.specs.reading.Fronts.{AreFrontsOwned, AreLookedAt};

use crate::cell_graphs::CellGraph;
use crate::cell_sets::CellSet;
use crate::owners::Owners;

/// Whether the owners of cells are well placed on a graph.
///
/// Each edge is looked at once, with the cells that nodes own on the way up from where it comes to the node above its
/// end: this takes time by the dominance frontiers, and not by nodes and cells.
pub fn are_placed(graph: &CellGraph, owners: &Owners) -> bool
    ensures { IsTrue result ↔ AreOwnersPlaced graph.now (tree_of owners.now) }
{
    if owners.cells != graph.cells {
        return false;
    }
    if !is_tree(graph.nodes, owners) {
        return false;
    }
    if !are_edges_placed(graph, owners) {
        return false;
    }
    are_rounded_owned(graph, owners)
}

// Whether the owners have a tree over the nodes.
fn is_tree(nodes: usize, owners: &Owners) -> bool
    ensures { IsTrue result ↔ IsTree nodes (tree_of owners.now) }
{
    if nodes == 0 || owners.above.len() != nodes || owners.depths.len() != nodes {
        return false;
    }
    if owners.owned.len() != nodes || owners.depths[0] != 0 || owners.above[0] != 0 {
        return false;
    }
    for node in 1..nodes {
        if !is_below_another(nodes, owners, node) {
            return false;
        }
    }
    true
}

// Whether a node is one step below a node.
fn is_below_another(nodes: usize, owners: &Owners, node: usize) -> bool
    requires above { length owners.now.above.items ≡ nodes }
    requires depths { length owners.now.depths.items ≡ nodes }
    requires node { node < nodes }
    ensures { IsTrue result ↔ IsBelowAnother nodes (tree_of owners.now) node }
{
    let above = owners.above[node];
    if above >= nodes {
        return false;
    }
    let depth = owners.depths[node];
    depth > 0 && depth - 1 == owners.depths[above]
}

// Whether all edges are placed.
fn are_edges_placed(graph: &CellGraph, owners: &Owners) -> bool
    ensures { IsTrue result ↔ ((e : ℕ) → e < length graph.now.links.items
        → IsEdgePlaced graph.now (tree_of owners.now) e) }
{
    for edge in 0..graph.links.len() {
        if !is_edge_placed(graph, owners, edge) {
            return false;
        }
    }
    true
}

// Whether an edge is placed.
fn is_edge_placed(graph: &CellGraph, owners: &Owners, edge: usize) -> bool
    requires { edge < length graph.now.links.items }
    ensures { IsTrue result ↔ IsEdgePlaced graph.now (tree_of owners.now) edge }
{
    let link = graph.links[edge];
    if link.from >= graph.nodes || link.to >= graph.nodes {
        return false;
    }
    let touched = cells_at(&graph.touched, edge);
    if !are_looked_at(graph, edge) || !are_owned(owners, link.to, touched) {
        return false;
    }
    let carried = cells_at(&graph.carried, edge);
    if !are_owned(owners, link.to, carried) {
        return false;
    }
    are_fronts_owned(owners, link.from, link.to)
}

// Whether an edge looks at what it touches.
fn are_looked_at(graph: &CellGraph, edge: usize) -> bool
    ensures { IsTrue result ↔ AreLookedAt graph.now edge }
{
    let touched = cells_at(&graph.touched, edge);
    for cell in touched {
        if !has_cell(&graph.looked, edge, *cell) {
            return false;
        }
    }
    true
}

// Whether a node owns all of these cells.
fn are_owned(owners: &Owners, node: usize, cells: &[usize]) -> bool
    ensures { IsTrue result ↔ ((x : ℕ) → is_in cells.now x ≡ true → owns_in (tree_of owners.now) node x ≡ true) }
{
    for cell in cells {
        if !owners.has(node, *cell) {
            return false;
        }
    }
    true
}

// Whether the way up from one node leads to the node above another one, which owns what is owned on the way.
fn are_fronts_owned(owners: &Owners, from: usize, to: usize) -> bool
    ensures { IsTrue result ↔ AreFrontsOwned (tree_of owners.now) from to }
{
    let steps = owners.way(from, to);
    let mut node = from;
    for _ in 0..steps {
        let listed = owners.listed(node);
        if !are_owned(owners, to, listed) {
            return false;
        }
        node = owners.node_above(node);
    }
    let end = owners.node_above(to);
    node == end
}

// Whether nodes own what is rounded there.
fn are_rounded_owned(graph: &CellGraph, owners: &Owners) -> bool
    ensures { IsTrue result ↔ ((n x : ℕ) → n < graph.now.nodes
        → is_in (cells_at graph.now.rounded.items n) x ≡ true → owns_in (tree_of owners.now) n x ≡ true) }
{
    for node in 0..graph.nodes {
        let rounded = cells_at(&graph.rounded, node);
        if !are_owned(owners, node, rounded) {
            return false;
        }
    }
    true
}

/// The cells of the set of this number; none where there is no such set.
pub fn cells_at(sets: &[CellSet], at: usize) -> &[usize]
    ensures { result.now ≡ cells_at sets.now at }
{
    match sets.get(at) {
        None => &[],
        Some(set) => set.cells(),
    }
}

/// Whether the set of this number has a cell.
pub fn has_cell(sets: &[CellSet], at: usize, cell: usize) -> bool
    ensures { result ≡ is_in (cells_at sets.now at) cell }
{
    match sets.get(at) {
        None => false,
        Some(set) => set.has(cell),
    }
}
