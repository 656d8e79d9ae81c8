//! The least table of a body.
ghost use Rattle.std.specs.Prelude.{◌≡◌, ◌↔◌, ◌<◌, ℕ, length, IfOk, IfSome, IsTrue};
ghost use Rattle.std.specs.FinMap.{get};
ghost use Rattle.sparse_rows.specs.Traces.{IsTraced, IsFreshAt, IsPendingAt};
ghost use Rattle.row_checks.specs.TracedCells.{may_copy, may_be_fresh, may_pend};
ghost use Rattle.sparse_rows.specs.StateParts.{states};
ghost use Rattle.least_assignments.specs.Constraints.{at as value_at};
ghost use Rattle.least_assignments.specs.Solutions.{IsLeast};
ghost use Rattle.front_constraints.specs.Standings.{standings};
ghost use Rattle.front_constraints.specs.Rules.{front_constraints, FitsVariable};
ghost use Rattle.body_fronts.specs.FrontForms.{fronts, cells, FitsFront, FitsCellAt};
ghost use Rattle.table_covers.specs.Solutions.{at, IsLeastSolution};
ghost use Rattle.program_equations.specs.Systems.{FitsBody};
ghost use Rattle.body_systems.specs.Systems.{body_of, system_of};
ghost use Rattle.body_slots.specs.Slots.{AreSlotsOf, AllowsSlots, IsSlotSystem, sparse_of};
ghost use Rattle.body_slots.specs.Starts.{AreLeastValues, IsStartOf};

use crate::slots::BodySlots;
use crate::starts::SlotValues;
use crate::systems::{SlotSystem, SlotValue};
use crate::tables::table_of;
use body_systems::{BodyOverStore, BodyState};
use cell_env::State;
use least_assignments::{least_assignment, settle};
use pointer_dom::AbsValue;
use row_checks::{Traces, is_cell_traced, is_traced};
use std::alloc::Global;
use tm_lattice::NoMemory;

// Whether what a state has at a cell is fresh, and has mutexes pending, only where it may.
fn is_held_traced(traces: &Traces, state: &State<AbsValue>, cell: usize) -> bool
    requires { cell < 4294967296 }
    ensures { IsTrue result ↔
        (IsFreshAt (may_copy traces.now) (may_be_fresh traces.now) (may_pend traces.now) cell (get state.now.cells cell)
        × IsPendingAt (may_copy traces.now) (may_be_fresh traces.now) (may_pend traces.now) cell
        (get state.now.cells cell)) }
{
    match state.cell(cell as u32) {
        None => true,
        Some(held) => is_cell_traced(traces, cell as u32, held),
    }
}

// Whether the state in which a body begins has no copies, fresh cells and pending mutexes but those that it may have.
fn begins_traced(system: &SlotSystem) -> bool
    ensures { (let s = system.now.slots in IsTrue result
        → IsTraced (may_copy s.traces) (may_be_fresh s.traces) (may_pend s.traces) system.now.entry) }
{
    let slots = system.slots;
    let entry = system.entry;
    if !is_traced(&slots.traces, entry.temps()) {
        return false;
    }
    for cell in slots.cells.cells() {
        if !is_held_traced(&slots.traces, entry, *cell) {
            return false;
        }
    }
    true
}

/// The least table of a body over a store, and what stands at its variables, of which the table was made.
#[derive(Drop)]
pub struct SlotTable {
    /// For each node of its configured graph a state, or none.
    pub table: Vec<Option<BodyState>>,
    /// What a later table may be found from.
    pub values: SlotValues,
}

// The table of what stands at the variables. None where a state has what it may not.
fn tabled(
    alloc: Global,
    system: &SlotSystem,
    values: Vec<Option<SlotValue>>,
) -> Result<Option<SlotTable>, NoMemory>
    requires system { IsSlotSystem system.now }
    requires begun { (let s = system.now.slots in
        IsTraced (may_copy s.traces) (may_be_fresh s.traces) (may_pend s.traces) system.now.entry) }
    requires count { length values.items ≡ (front_constraints (sparse_of system.now)).variable_count }
    requires least { IsLeast (standings fronts cells) (FitsVariable (sparse_of system.now)
        (FitsFront (body_of system.now.system)) (FitsCellAt (body_of system.now.system))) (AllowsSlots system.now)
        (front_constraints (sparse_of system.now)) (value_at values.items) }
    requires allowed { (k : ℕ) → k < (front_constraints (sparse_of system.now)).constraint_count
        → AllowsSlots system.now k (value_at values.items) }
    ensures nodes { IfOk result (λ found. IfSome found (λ made.
        length made.table.items ≡ (system_of system.now.system).node_count)) }
    ensures least { (let w = system.now.system in IfOk result (λ found. IfSome found (λ made.
        IsLeastSolution states (FitsBody (body_of w)) (system_of w) (at made.table.items)))) }
    ensures values { (let w = system.now.system in IfOk result (λ found. IfSome found (λ made.
        AreLeastValues (body_of w) w.entry w.store system.now.slots made.values))) }
{
    let Some(table) = table_of(alloc, system, &values)? else {
        return Ok(None);
    };
    Ok(Some(SlotTable {
        table,
        values: SlotValues { values },
    }))
}

/// The least table of a body over a store: for each node of its configured graph a state, or none; and what stands at
/// its variables. None where an edge reached what it may not by the slots, a state has what it may not, or the body
/// does not begin: it is to be solved otherwise.
pub fn sparse_table(
    alloc: Global,
    body: &BodyOverStore,
    slots: &BodySlots,
) -> Result<Option<SlotTable>, NoMemory>
    requires { AreSlotsOf (body_of body.now) slots.now }
    ensures nodes { IfOk result (λ found. IfSome found (λ made.
        length made.table.items ≡ (system_of body.now).node_count)) }
    ensures least { IfOk result (λ found. IfSome found (λ made.
        IsLeastSolution states (FitsBody (body_of body.now)) (system_of body.now) (at made.table.items))) }
    ensures values { IfOk result (λ found. IfSome found (λ made.
        AreLeastValues (body_of body.now) body.now.entry body.now.store slots.now made.values)) }
{
    let Some(entry) = body.entry() else {
        return Ok(None);
    };
    // The call tells that the equations keep what they ask.
    let _store = body.store();
    let system = SlotSystem::new(body, slots, entry);
    if !begins_traced(&system) {
        return Ok(None);
    }
    let Some(values) = least_assignment(alloc, &system)? else {
        return Ok(None);
    };
    tabled(alloc, &system, values)
}

/// The same, found from what stood at the variables over a store that lies below this one: what rose since is all that
/// is climbed. Each constraint is applied once at least.
pub fn sparse_table_from(
    alloc: Global,
    body: &BodyOverStore,
    slots: &BodySlots,
    before: SlotValues,
) -> Result<Option<SlotTable>, NoMemory>
    requires slots { AreSlotsOf (body_of body.now) slots.now }
    requires before { IsStartOf (body_of body.now) body.now.entry body.now.store slots.now before }
    ensures nodes { IfOk result (λ found. IfSome found (λ made.
        length made.table.items ≡ (system_of body.now).node_count)) }
    ensures least { IfOk result (λ found. IfSome found (λ made.
        IsLeastSolution states (FitsBody (body_of body.now)) (system_of body.now) (at made.table.items))) }
    ensures values { IfOk result (λ found. IfSome found (λ made.
        AreLeastValues (body_of body.now) body.now.entry body.now.store slots.now made.values)) }
{
    let Some(entry) = body.entry() else {
        return Ok(None);
    };
    // The call tells that the equations keep what they ask.
    let _store = body.store();
    let system = SlotSystem::new(body, slots, entry);
    if !begins_traced(&system) {
        return Ok(None);
    }
    let SlotValues { values: start } = before;
    let pending = vec![in alloc; true; slots.numbers.constraint_count()]?;
    let Some(values) = settle(alloc, &system, start, pending)? else {
        return Ok(None);
    };
    tabled(alloc, &system, values)
}
