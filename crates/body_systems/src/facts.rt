//! What is computed once of a body.
ghost use Rattle.std.specs.Prelude.{◌≡◌, ◌<◌, ◌≤◌, ℕ, [], length, map, get_or, option_map, IfOk, All};
ghost use Rattle.graph_facts.specs.declared.regions.Head.{Head as AHead};
ghost use Rattle.tm_laid.specs.Layouts.{laid_tree};
ghost use Rattle.graph_facts.specs.Lists.{numbers};
ghost use Rattle.graph_facts.specs.Edges.{AreInRange};
ghost use Rattle.transfer_mem.specs.edge_actions.transfer_rows.Accesses.{is_among};
ghost use Rattle.task_equations.specs.Equations.{link_of, tests_pointer, cells_rounded};
ghost use Rattle.body_systems.specs.Facts.{pointers_of, AreFactsOf};
ghost use Rattle.body_systems.specs.reading.Indices.{index_at, index_from};

use flow_graph::{Graph, Operation, Test};
use graph_facts::{Head, LiveTemporaries, heads, live_temporaries};
use mutex_configs::{ConfiguredGraph, EdgeCopy};
use region_cells::written_cells;
use std::alloc::Global;
use std::marker::Model;
use table_covers::Link;
use temporary_types::{count_of_temporaries, pointer_temps};
use tm_laid::Laid;
use tm_lattice::NoMemory;

/// What is computed once of a body: the links of its equations, the temporaries that are live at each place, which
/// temporaries hold pointers, and the heads with the abstract cells that are written in their regions.
pub struct BodyFacts {
    links: Vec<Link>,
    live: Vec<Vec<u32>>,
    pointer_marks: Vec<bool>,
    heads: Vec<Head>,
    written: Vec<Vec<u32>>,
    // For each place the index of its head.
    head_at: Vec<Option<usize>>,
}

// By hand: a function that lets one go calls this, and its check does not go through the fields.
impl Drop for BodyFacts {
    fn drop(self) {
        let BodyFacts {
            links: _links,
            live: _live,
            pointer_marks: _pointer_marks,
            heads: _heads,
            written: _written,
            head_at: _head_at,
        } = self;
    }
}

impl Model for BodyFacts {
    ghost use Rattle.graph_facts.specs.Lists.{numbers};
    ghost use Rattle.body_systems.specs.Facts.{Facts};
    ghost use Rattle.body_systems.specs.reading.Indices.{AreIndices};

    ghost Value = { Facts };

    ghost view = { λ a. record {
      links = a.links.items;
      live = numbers a.live.items;
      pointer_marks = a.pointer_marks.items;
      heads = a.heads.items;
      written = numbers a.written.items;
    } };

    ghost invariant = { λ a. AreIndices a.heads.items (numbers a.written.items) a.head_at.items };
}

impl BodyFacts {
    /// The facts of a graph and its configured graph, in a layout of at most 65,536 abstract cells.
    pub fn new(
        alloc: Global,
        laid: &Laid,
        graph: &Graph,
        configured: &ConfiguredGraph,
    ) -> Result<BodyFacts, NoMemory>
        requires range { AreInRange graph.now.edges.items graph.now.nodes }
        requires few { length laid.now.abstract_cells.items ≤ 65536 }
        ensures { IfOk result (λ facts. AreFactsOf (laid_tree laid.now) graph.now configured.now facts) }
    {
        let links = links_of(alloc, &configured.copies)?;
        let LiveTemporaries { lists: live } = live_temporaries(alloc, graph)?;
        let count = count_of_temporaries(graph)?;
        let pointer_marks = pointer_temps(alloc, graph, count)?;
        let heads = heads(alloc, graph)?;
        let written = written_cells(alloc, laid, graph, &heads)?;
        let head_at = heads_by_place(alloc, graph.nodes, &heads)?;
        Ok(BodyFacts {
            links,
            live,
            pointer_marks,
            heads,
            written,
            head_at,
        })
    }

    /// The links of the equations: those of the copies of edges, in order.
    pub fn links(&self) -> &[Link]
        ensures { result.now ≡ self.now.links }
    {
        &self.links
    }

    /// For each place the temporaries that are live there, in rising order.
    pub fn live(&self) -> &[Vec<u32>]
        ensures { numbers result.now ≡ self.now.live }
    {
        &self.live
    }

    /// For each temporary whether it holds pointers.
    pub fn pointer_marks(&self) -> &[bool]
        ensures { result.now ≡ self.now.pointer_marks }
    {
        &self.pointer_marks
    }

    /// The heads, in rising order.
    pub fn heads(&self) -> &[Head]
        ensures { result.now ≡ self.now.heads }
    {
        &self.heads
    }

    /// For each head the abstract cells that are written in its region, in rising order.
    pub fn written(&self) -> &[Vec<u32>]
        ensures { numbers result.now ≡ self.now.written }
    {
        &self.written
    }

    /// The temporaries that are live at a place; none at one that there is not.
    pub fn live_at(&self, place: u32) -> &[u32]
        ensures { result.now ≡ get_or self.now.live place [] }
    {
        match self.live.get(place as usize) {
            Some(list) => list,
            None => &[],
        }
    }

    /// Whether an operation tests for its truth a temporary that holds pointers.
    #[tactic(auto, unfolding(task_equations::specs::Equations::tests_pointer))]
    pub fn tests_pointer(&self, operation: Operation) -> bool
        ensures { result ≡ tests_pointer (pointers_of self.now) operation }
    {
        match operation {
            Operation::Assume {
                test: Test::Truth { value, .. },
            } => self.holds_pointers(value),
            _ => false,
        }
    }

    // Whether a temporary holds pointers.
    fn holds_pointers(&self, temporary: u32) -> bool
        ensures { result ≡ is_among (pointers_of self.now) temporary }
    {
        match self.pointer_marks.get(temporary as usize) {
            Some(mark) => *mark,
            None => false,
        }
    }

    // The index of the head at a place.
    fn head_index(&self, place: u32) -> Option<usize>
        ensures { result ≡ index_from 0 self.now.heads place }
    {
        match self.head_at.get(place as usize) {
            Some(index) => *index,
            None => None,
        }
    }

    /// The abstract cells that are rounded at a place: those written in the region of the head there.
    pub fn cells_rounded(&self, place: u32) -> Option<&[u32]>
        ensures { option_map (λ cells. cells.now) result ≡ cells_rounded self.now.heads self.now.written place }
    {
        match self.head_index(place) {
            Some(head) => Some(&self.written[head]),
            None => None,
        }
    }
}

// A copy as a link. One that leads nowhere stands as a link to its own node.
fn link_of(copy: EdgeCopy) -> Link
    ensures { result ≡ link_of copy }
{
    Link {
        from: copy.from as usize,
        to: copy.to.unwrap_or(copy.from) as usize,
    }
}

// The copies as links.
fn links_of(alloc: Global, copies: &[EdgeCopy]) -> Result<Vec<Link>, NoMemory>
    ensures { IfOk result (λ v. v.items ≡ map link_of copies.now) }
{
    let mut links = Vec::new(alloc);
    for copy in copies {
        links.push(link_of(*copy))?;
    }
    Ok(links)
}

// For each place the index of its head.
fn heads_by_place(
    alloc: Global,
    places: u32,
    heads: &[Head],
) -> Result<Vec<Option<usize>>, NoMemory>
    requires { All (λ (h : AHead). h.node < places) heads.now }
    ensures { IfOk result (λ v. (place : ℕ) → index_at v.items place ≡ index_from 0 heads.now place) }
{
    let mut indices = vec![in alloc; None; places as usize]?;
    for index in (0..heads.len()).rev() {
        indices[heads[index].node as usize] = Some(index);
    }
    Ok(indices)
}
