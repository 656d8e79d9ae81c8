//! The least table of a body, found from nothing.
ghost use Rattle.std.specs.Prelude.{◌≡◌, length, option_map, None, IfOk, IfSome};
ghost use Rattle.table_covers.specs.Solutions.{at, IsLeastSolution};
ghost use Rattle.least_tables.specs.Settling.{IsVisited, first_table};
ghost use Rattle.program_equality.specs.program_equations.Systems.{states, FitsBody};
ghost use Rattle.program_systems.specs.body_systems.Systems.{body_of, system_of};
ghost use Rattle.body_slots.specs.Slots.{AreSlotsOf};
ghost use Rattle.thread_pass.specs.Starts.{AreBodyValues};

use body_slots::{BodySlots, SlotTable, SlotValues, sparse_table};
use least_tables::{Settled, least_table};
use program_systems::{BodyOverStore, BodyState, BodySystem};
use std::alloc::Global;
use tm_lattice::NoMemory;

/// The least table of a body over a store.
#[derive(Drop)]
pub(crate) struct BodyTable {
    pub(crate) table: Vec<Option<BodyState>>,
    // How many edges were applied to states of all cells; 2^64 - 1 stands for that many or more. None where the table
    // was found by slots.
    pub(crate) visits: Option<u64>,
    // What stands at the variables, where the table was found by slots and that is worth keeping.
    pub(crate) values: Option<SlotValues>,
}

// What stands at the variables, where the slots are few beside all cells of all nodes: else the work list goes on from
// a table at less cost.
fn worth_keeping(slots: &BodySlots, values: SlotValues) -> Option<SlotValues>
    ensures { IfSome result (λ kept. kept ≡ values) }
{
    if slots.is_sparse() {
        Some(values)
    } else {
        None
    }
}

// The table that is found by the slots of the body; none where there are no slots, or no table is found by them.
fn table_by_slots(
    alloc: Global,
    body: &BodyOverStore,
    slots: Option<&BodySlots>,
) -> Result<Option<BodyTable>, NoMemory>
    requires { IfSome (option_map (λ s. s.now) slots) (AreSlotsOf (body_of body.now)) }
    ensures nodes { IfOk result (λ found. IfSome found (λ made.
        length made.table.items ≡ (system_of body.now).node_count)) }
    ensures least { IfOk result (λ found. IfSome found (λ made.
        IsLeastSolution states (FitsBody (body_of body.now)) (system_of body.now) (at made.table.items))) }
    ensures untold { IfOk result (λ found. IfSome found (λ made. made.visits ≡ None)) }
    ensures values { IfOk result (λ found. IfSome found (λ made. IfSome made.values
        (AreBodyValues (body_of body.now) body.now.entry body.now.store (option_map (λ s. s.now) slots.entry)))) }
{
    let Some(slots) = slots else {
        return Ok(None);
    };
    let Some(SlotTable { table, values }) = sparse_table(alloc, body, slots)? else {
        return Ok(None);
    };
    Ok(Some(BodyTable {
        table,
        visits: None,
        values: worth_keeping(slots, values),
    }))
}

/// The least table of a body over a store: by its slots, where it has some and a table is found by them, else by the
/// work list.
pub(crate) fn body_table(
    alloc: Global,
    body: &BodyOverStore,
    slots: Option<&BodySlots>,
) -> Result<BodyTable, NoMemory>
    requires { IfSome (option_map (λ s. s.now) slots) (AreSlotsOf (body_of body.now)) }
    ensures nodes { IfOk result (λ found. length found.table.items ≡ (system_of body.now).node_count) }
    ensures least { IfOk result (λ found.
        IsLeastSolution states (FitsBody (body_of body.now)) (system_of body.now) (at found.table.items)) }
    ensures visits { IfOk result (λ found. IfSome found.visits (λ visits.
        IsVisited states (FitsBody (body_of body.now)) (system_of body.now) visits
        (first_table states (FitsBody (body_of body.now)) (system_of body.now)) (at found.table.items))) }
    ensures values { IfOk result (λ found. IfSome found.values
        (AreBodyValues (body_of body.now) body.now.entry body.now.store (option_map (λ s. s.now) slots.entry))) }
{
    if let Some(made) = table_by_slots(alloc, body, slots)? {
        return Ok(made);
    }
    // The call tells that the equations keep what they ask.
    let _store = body.store();
    let Settled { table, visits } = least_table(alloc, &BodySystem { body })?;
    Ok(BodyTable {
        table,
        visits: Some(visits),
        values: None,
    })
}
