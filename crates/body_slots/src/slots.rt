//! What is computed once of a body for its fronts and slots.
ghost use Rattle.std.specs.Prelude.{◌≡◌, ◌<◌, ◌≤◌, ℕ, true, length, map, IfOk, IfSome};
ghost use Rattle.tm_laid.specs.Layouts.{laid_tree};
ghost use Rattle.edge_actions.specs.Layouts.{is_reachable};
ghost use Rattle.task_equations.specs.Equations.{link_of, cells_at as rounded_cells};
ghost use Rattle.cell_placings.specs.CellLists.{is_in};
ghost use Rattle.body_systems.specs.Systems.{body_of};
ghost use Rattle.body_slots.specs.Slots.{AreSlotsOf, is_rounded_in};
ghost use Rattle.body_slots.specs.reading.Bodies.{is_seen_in, AreRoundedBelow};

use body_systems::BodyOverStore;
use cell_placings::{CellGraph, CellPlacing, CellSet, place_cells};
use edge_actions::is_reachable;
use row_checks::Traces;
use slot_numbers::SlotNumbers;
use std::alloc::Global;
use std::marker::Model;
use table_covers::Link;
use tm_laid::Laid;
use tm_lattice::NoMemory;

// The keys of states are numbers of 32 bits.
const MOST_CELLS: usize = 4_294_967_296;

/// What is computed once of a body: what its edges look at, touch and carry, where its cells are kept, the numbers of the
/// variables and constraints, and what may be copied, fresh and pending.
pub struct BodySlots {
    pub(crate) graph: CellGraph,
    pub(crate) placing: CellPlacing,
    // The cells that the body sees.
    pub(crate) cells: CellSet,
    pub(crate) numbers: SlotNumbers,
    pub(crate) traces: Traces,
}

// By hand: a function that lets one go calls this, and its check does not go through the fields.
impl Drop for BodySlots {
    fn drop(self) {
        let BodySlots {
            graph: _graph,
            placing: _placing,
            cells: _cells,
            numbers: _numbers,
            traces: _traces,
        } = self;
    }
}

impl Model for BodySlots {
    ghost use Rattle.body_slots.specs.Slots.{Slots};

    ghost Value = { Slots };

    ghost view = { λ a. record {
      graph = a.graph;
      tree = a.placing;
      cells = a.cells;
      numbering = a.numbers;
      traces = a.traces;
    } };
}

impl BodySlots {
    /// Whether there are few variables beside the cells of all nodes.
    pub fn is_sparse(&self) -> bool {
        let cells = self.graph.nodes.saturating_mul(self.graph.cells);
        self.numbers.variable_count() < cells / 16
    }

    /// The slots of a body, by the cells that each copy of its edges may touch, that it carries and at which it may look,
    /// and by what may be copied, fresh and pending. None where there is not one set for each copy, the cells cannot be placed so,
    /// or one of them is not seen by the body.
    pub fn new(
        alloc: Global,
        body: &BodyOverStore,
        touched: Vec<CellSet>,
        carried: Vec<CellSet>,
        looked: Vec<CellSet>,
        traces: Traces,
    ) -> Result<Option<BodySlots>, NoMemory>
        ensures { IfOk result (λ found. IfSome found (λ slots. AreSlotsOf (body_of body.now) slots)) }
    {
        let laid = body.laid();
        let configured = body.configured();
        if laid.abstract_cells.len() > MOST_CELLS {
            return Ok(None);
        }
        let copies = configured.copies.len();
        if touched.len() != copies || carried.len() != copies || looked.len() != copies {
            return Ok(None);
        }
        let graph = CellGraph {
            nodes: configured.nodes.len(),
            links: links_of(alloc, body)?,
            cells: laid.abstract_cells.len(),
            touched,
            carried,
            looked,
            rounded: rounded_sets(alloc, body)?,
        };
        let cells = seen_cells(alloc, laid, body.task())?;
        let Some(placing) = place_cells(alloc, &graph)? else {
            return Ok(None);
        };
        let Some(numbers) = SlotNumbers::new(alloc, &graph, &placing, &cells)? else {
            return Ok(None);
        };
        Ok(Some(BodySlots {
            graph,
            placing,
            cells,
            numbers,
            traces,
        }))
    }
}

// The links of a body.
fn links_of(alloc: Global, body: &BodyOverStore) -> Result<Vec<Link>, NoMemory>
    ensures { IfOk result (λ links. (let b = body_of body.now in links.items ≡ map link_of b.copies)) }
{
    // The call tells that the facts are those of the body.
    let _store = body.store();
    copied_links(alloc, body.facts().links())
}

// A copy of the links.
fn copied_links(alloc: Global, links: &[Link]) -> Result<Vec<Link>, NoMemory>
    ensures { IfOk result (λ copy. copy.items ≡ links.now) }
{
    let mut copy = Vec::new(alloc);
    for link in links {
        copy.push(*link)?;
    }
    Ok(copy)
}

// For each node the cells that are rounded there.
fn rounded_sets(alloc: Global, body: &BodyOverStore) -> Result<Vec<CellSet>, NoMemory>
    ensures { IfOk result (λ sets. AreRoundedBelow (body_of body.now) (length (body_of body.now).nodes) sets.items) }
{
    let mut sets = Vec::new(alloc);
    for node in 0..body.configured().nodes.len() {
        sets.push(rounded_set(alloc, body, node)?)?;
    }
    Ok(sets)
}

// The cells that are rounded at a node.
fn rounded_set(alloc: Global, body: &BodyOverStore, node: usize) -> Result<CellSet, NoMemory>
    requires { node < length body.now.configured.nodes.keys }
    ensures { IfOk result (λ set. (x : ℕ)
        → is_in set x ≡ is_rounded_in (rounded_cells (body_of body.now) node) x) }
{
    match body.cells_at(node) {
        None => Ok(CellSet::new(alloc)),
        Some(cells) => Ok(CellSet::from_cells(numbers_of(alloc, cells)?)),
    }
}

// The same numbers.
fn numbers_of(alloc: Global, cells: &[u32]) -> Result<Vec<usize>, NoMemory>
    ensures { IfOk result (λ numbers. numbers.items ≡ cells.now) }
{
    let mut numbers = Vec::new(alloc);
    for cell in cells {
        numbers.push(*cell as usize)?;
    }
    Ok(numbers)
}

// The abstract cells that a body with this number sees.
fn seen_cells(alloc: Global, laid: &Laid, task: u32) -> Result<CellSet, NoMemory>
    requires { length laid.now.abstract_cells.items ≤ 4294967296 }
    ensures seen { IfOk result (λ cells. (x : ℕ) → is_in cells x ≡ is_seen_in (laid_tree laid.now) task x) }
    ensures small { IfOk result (λ cells. (x : ℕ) → is_in cells x ≡ true → x < 4294967296) }
{
    let mut seen = Vec::new(alloc);
    for cell in 0..laid.abstract_cells.len() {
        if is_reachable(laid, task, laid.abstract_cells[cell].object) {
            seen.push(cell)?;
        }
    }
    Ok(CellSet::from_cells(seen))
}
