//! Which edges leave each node.
ghost use Rattle.std.specs.Prelude.{◌≡◌, ◌<◌, ℕ, length, None, IfOk, slice_index_or, true, false};
ghost use Rattle.table_covers.specs.Systems.{from_of};
ghost use Rattle.least_tables.specs.reading.WorkLists.{IsIndex};

use std::alloc::Global;
use table_covers::Link;
use tm_lattice::NoMemory;

/// The edges of a graph, to be followed from the node that they leave: the last one of each node, and before each
/// edge the one of its node.
#[derive(Drop)]
pub struct Leaving<'a> {
    /// The edges.
    pub links: &'a [Link],
    /// For each node the last edge that leaves it.
    pub last: Vec<Option<usize>>,
    /// For each edge the last one before it that leaves the same node.
    pub before: Vec<Option<usize>>,
}

impl<'a> Leaving<'a> {
    /// The edges of a graph with this number of nodes, to be followed from the node that they leave.
    pub fn new(alloc: Global, links: &'a [Link], nodes: usize) -> Result<Leaving<'a>, NoMemory>
        requires { (e : ℕ) → e < length links.now → from_of links.now e < nodes }
        ensures links { IfOk result (λ leaving. leaving.links.now ≡ links.now) }
        ensures index { IfOk result (λ leaving. IsIndex links.now nodes leaving.last.items leaving.before.items) }
    {
        let mut last = no_edges(alloc, nodes)?;
        let mut before = Vec::new(alloc);
        for edge in 0..links.len() {
            let node = links[edge].from;
            before.push(last[node])?;
            last[node] = Some(edge);
        }
        Ok(Leaving {
            links,
            last,
            before,
        })
    }

    /// Marks each edge that leaves the node.
    pub fn mark(&self, node: usize, pending: &mut [bool])
        requires index { IsIndex self.now.links.now (length self.now.last.items) self.now.last.items
            self.now.before.items }
        requires node { node < length self.now.last.items }
        requires edges { length pending.old ≡ length self.now.links.now }
        ensures marked { (e : ℕ) → e < length self.now.links.now → from_of self.now.links.now e ≡ node
            → slice_index_or pending.new e true ≡ true }
        ensures others { (e : ℕ) → slice_index_or pending.new e true ≡ false
            → slice_index_or pending.old e true ≡ false }
    {
        let mut at = self.last[node];
        while let Some(edge) = at {
            pending[edge] = true;
            at = self.before[edge];
        }
    }
}

/// No edge at each node.
pub fn no_edges(alloc: Global, nodes: usize) -> Result<Vec<Option<usize>>, NoMemory>
    ensures { IfOk result (λ last. (length last.items ≡ nodes) × ((n : ℕ) → slice_index_or last.items n None ≡ None)) }
{
    let mut last = Vec::new(alloc);
    for _ in 0..nodes {
        last.push(None)?;
    }
    Ok(last)
}
