//! The table of an assignment: at each node with a front its state.
ghost use Rattle.std.specs.Prelude.{◌≡◌, ◌<◌, ℕ, [], length, slice_index_or, None, IfOk, IfSome, IsTrue};
ghost use Rattle.std.specs.Option.{option_copied};
ghost use Rattle.sparse_rows.specs.StateParts.{states};
ghost use Rattle.sparse_rows.specs.Traces.{IsTraced};
ghost use Rattle.sparse_tables.specs.Fronts.{IsExpanded};
ghost use Rattle.least_assignments.specs.Constraints.{at as value_at, AreFitting};
ghost use Rattle.front_constraints.specs.Rules.{front_constraints, FitsVariable, fronts_of};
ghost use Rattle.body_fronts.specs.FrontForms.{FitsFront, FitsCellAt, is_seen};
ghost use Rattle.table_covers.specs.Systems.{to_of};
ghost use Rattle.table_covers.specs.Solutions.{at};
ghost use Rattle.program_equations.specs.Systems.{FitsBody};
ghost use Rattle.body_systems.specs.Systems.{body_of, system_of};
ghost use Rattle.row_checks.specs.TracedCells.{may_copy, may_be_fresh, may_pend};
ghost use Rattle.body_slots.specs.Placed.{seen_placing};
ghost use Rattle.body_slots.specs.Slots.{sparse_of, carrying_parts};
ghost use Rattle.body_slots.specs.reading.Tables.{kept_cell, AreKept, IsPut, IsBefore, IsMadeAt, IsEarlier};
ghost use Rattle.body_slots.specs.reading.Tables.{state_before};

use crate::rows::{cell_at, front_at};
use crate::systems::{SlotSystem, SlotValue};
use body_systems::BodyState;
use cell_env::{CellState, State, TempState};
use cell_placings::CellGraph;
use pointer_dom::AbsValue;
use row_checks::{is_cell_traced, is_traced};
use state_tree::Tree;
use std::alloc::Global;
use tm_lattice::{Keyed, Lattice, NoMemory};

/// The table of an assignment: at each node with a front the state of the front and of what stands at each cell where
/// it is kept. None where something is missing, or has a copy, a fresh cell or a pending mutex that it may not have.
///
/// A state shares its cells with that of a node before it from which an edge comes, but for those that the node owns.
/// It takes time linear in the slots, times a logarithm, and in all cells at a node for which there is no such edge.
pub(crate) fn table_of(
    alloc: Global,
    system: &SlotSystem,
    values: &[Option<SlotValue>],
) -> Result<Option<Vec<Option<BodyState>>>, NoMemory>
    requires variables { length values.now ≡ (front_constraints (sparse_of system.now)).variable_count }
    requires fits { AreFitting (front_constraints (sparse_of system.now)) (FitsVariable (sparse_of system.now)
        (FitsFront (body_of system.now.system)) (FitsCellAt (body_of system.now.system))) (value_at values.now) }
    ensures nodes { IfOk result (λ found. IfSome found (λ table.
        length table.items ≡ (system_of system.now.system).node_count)) }
    ensures expanded { (let b = body_of system.now.system in let s = system.now.slots in
        IfOk result (λ found. IfSome found (λ table.
        IsExpanded states (FitsBody b) (system_of system.now.system) (carrying_parts system.now)
        (seen_placing (is_seen b) s.graph s.tree) (is_seen b)
        (fronts_of (sparse_of system.now) (value_at values.now)) (at table.items)))) }
    ensures traced { (let s = system.now.slots in IfOk result (λ found. IfSome found (λ table.
        (n : ℕ) → n < length table.items → IfSome (at table.items n)
        (IsTraced (may_copy s.traces) (may_be_fresh s.traces) (may_pend s.traces))))) }
{
    let slots = system.slots;
    let earlier = earlier_nodes(alloc, &slots.graph, values)?;
    let mut table = Vec::new(alloc);
    for node in 0..earlier.len() {
        let before = state_before(&table, earlier[node]);
        let Some(state) = state_at(alloc, system, values, node, before)? else {
            return Ok(None);
        };
        table.push(state)?;
    }
    Ok(Some(table))
}

// For each node one before it that has a front and from which an edge comes, if there is any.
fn earlier_nodes(
    alloc: Global,
    graph: &CellGraph,
    values: &[Option<SlotValue>],
) -> Result<Vec<Option<usize>>, NoMemory>
    requires { (e : ℕ) → e < length graph.now.links.items → to_of graph.now.links.items e < graph.now.nodes }
    ensures nodes { IfOk result (λ earlier. length earlier.items ≡ graph.now.nodes) }
    ensures edges { IfOk result (λ earlier.
        (n : ℕ) → IfSome (slice_index_or earlier.items n None) (IsEarlier graph.now n)) }
{
    let mut earlier = vec![in alloc; None; graph.nodes]?;
    for link in &graph.links {
        if link.from < link.to && front_at(values, link.from).is_some() {
            earlier[link.to] = Some(link.from);
        }
    }
    Ok(earlier)
}

// The state at a node before, if there is one.
fn state_before(table: &[Option<BodyState>], earlier: Option<usize>) -> Option<&BodyState>
    ensures { option_copied result ≡ state_before table.now earlier }
{
    match earlier {
        None => None,
        Some(node) => match table.get(node) {
            Some(Some(state)) => Some(state),
            _ => None,
        },
    }
}

// The state at a node, or none where it has no front; the one before it is of a node from which an edge comes. None
// where something is missing or is what it may not be.
fn state_at(
    alloc: Global,
    system: &SlotSystem,
    values: &[Option<SlotValue>],
    node: usize,
    before: Option<&BodyState>,
) -> Result<Option<Option<BodyState>>, NoMemory>
    requires fits { AreFitting (front_constraints (sparse_of system.now)) (FitsVariable (sparse_of system.now)
        (FitsFront (body_of system.now.system)) (FitsCellAt (body_of system.now.system))) (value_at values.now) }
    requires node { node < system.now.slots.graph.nodes }
    requires before { IfSome before (λ state. IsBefore system.now (value_at values.now) node state.now) }
    ensures { IfOk result (λ found. IfSome found (IsMadeAt system.now (value_at values.now) node)) }
{
    let slots = system.slots;
    let Some(front) = front_at(values, node) else {
        return Ok(Some(None));
    };
    if !is_traced(&slots.traces, front) {
        return Ok(None);
    }
    let Some(cells) = cells_at(alloc, system, values, node, before)? else {
        return Ok(None);
    };
    let state = State::new(front.copied(alloc)?, cells);
    Ok(Some(Some(BodyState::new(state))))
}

// The cells of the state at a node: those of the state before it, with what the node owns put over them, or else all
// from where they are kept.
fn cells_at(
    alloc: Global,
    system: &SlotSystem,
    values: &[Option<SlotValue>],
    node: usize,
    before: Option<&BodyState>,
) -> Result<Option<Tree<CellState<AbsValue>>>, NoMemory>
    requires node { node < system.now.slots.graph.nodes }
    requires before { IfSome before (λ state. IsBefore system.now (value_at values.now) node state.now) }
    ensures { IfOk result (λ found. IfSome found (AreKept system.now (value_at values.now) node [])) }
{
    let slots = system.slots;
    match before {
        None => {
            let all = slots.cells.cells();
            put_cells(alloc, system, values, node, all, Tree::new(alloc))
        }
        Some(state) => {
            let own = slots.placing.owned(node);
            let cells = state.state().cells().shared()?;
            put_cells(alloc, system, values, node, own, cells)
        }
    }
}

// The cells with these from where they are kept for a node. None where one is missing or is what it may not be.
fn put_cells(
    alloc: Global,
    system: &SlotSystem,
    values: &[Option<SlotValue>],
    node: usize,
    list: &[usize],
    mut cells: Tree<CellState<AbsValue>>,
) -> Result<Option<Tree<CellState<AbsValue>>>, NoMemory>
    requires node { node < system.now.slots.graph.nodes }
    requires kept { AreKept system.now (value_at values.now) node list.now cells }
    ensures { IfOk result (λ found. IfSome found (AreKept system.now (value_at values.now) node [])) }
{
    for cell in list {
        match put_cell(alloc, system, values, node, *cell, cells)? {
            None => return Ok(None),
            Some(more) => cells = more,
        }
    }
    Ok(Some(cells))
}

// The cells with what stands at one where it is kept for a node. None where it is missing or is what it may not be; a
// cell that the body does not see is left out.
fn put_cell(
    alloc: Global,
    system: &SlotSystem,
    values: &[Option<SlotValue>],
    node: usize,
    cell: usize,
    cells: Tree<CellState<AbsValue>>,
) -> Result<Option<Tree<CellState<AbsValue>>>, NoMemory>
    requires { node < system.now.slots.graph.nodes }
    ensures { IfOk result (λ found. IfSome found (IsPut system.now (value_at values.now) node cell cells)) }
{
    let slots = system.slots;
    let Some(state) = kept_cell(system, values, node, cell) else {
        if slots.cells.has(cell) {
            return Ok(None);
        }
        return Ok(Some(cells));
    };
    let Ok(key) = u32::try_from(cell) else {
        return Ok(None);
    };
    if !is_cell_traced(&slots.traces, key, state) {
        return Ok(None);
    }
    Ok(Some(cells.with(key, state.copied(alloc)?)?))
}

// What stands at a cell where it is kept for a node.
fn kept_cell<'a>(
    system: &SlotSystem,
    values: &'a [Option<SlotValue>],
    node: usize,
    cell: usize,
) -> Option<&'a CellState<AbsValue>>
    requires { node < system.now.slots.graph.nodes }
    ensures { option_copied result ≡ kept_cell system.now (value_at values.now) node cell }
{
    let slots = system.slots;
    let keeper = slots.placing.kept_at(node, cell);
    match slots.numbers.number_of_slot(keeper, cell) {
        None => None,
        Some(variable) => cell_at(values, variable),
    }
}
