//! The pass of a task over a store.
ghost use Rattle.std.specs.Prelude.{◌≡◌, ◌<◌, length, get_or, None, IfOk, IfSome};
ghost use Rattle.table_covers.specs.Solutions.{NodeTable, at, IsStarted, IsClosedTable, IsNodewiseBelow};
ghost use Rattle.table_covers.specs.Solutions.{IsLeastSolution};
ghost use Rattle.least_tables.specs.Settling.{IsMetOrPending, IsVisited};
ghost use Rattle.program_equality.specs.transfer_rows.StateForms.{State};
ghost use Rattle.program_equality.specs.program_equations.Systems.{states, FitsBody, FitsProgram, pass_of};
ghost use Rattle.program_systems.specs.body_systems.Systems.{body_of, system_of};
ghost use Rattle.program_systems.specs.ReadPrograms.{program_of};
ghost use Rattle.thread_pass.specs.Analyses.{IsLeastTable, IsStartTable};
ghost use Rattle.thread_pass.specs.Kept.{AreVisitsOf, AreToldUnless, first_of};
ghost use Rattle.thread_pass.specs.Starts.{AreBodyValues, IsBodyStart, AreTaskValues, IsTaskStart};

use crate::analyses::Analysis;
use crate::body_tables::{BodyTable, body_table};
use crate::equality::is_same_program;
use crate::kept::Kept;
use crate::kept_passes::{first_pass, next_pass};
use crate::starts::{TaskStart, started};
use crate::store_uses::{StoreUses, store_uses};
use body_slots::{SlotTable, sparse_table_from};
use edge_contributions::joined_contributions;
use interfere_set::Store;
use least_tables::{Settled, settle};
use program_systems::{BodyOverStore, BodyState, BodySystem, body_over_store};
use std::alloc::Global;
use std::sync::Arc;
use strided_dom::Marks;
use tm_lattice::{Lattice, NoMemory, Passer, Warm};

/// What a pass of a task over a store brings.
#[derive(Drop)]
pub struct TaskPass {
    /// The least table: a state for each node of the task's configured graph, none where it is not reached.
    pub table: Vec<Option<BodyState>>,
    /// What the edges contribute there, joined.
    pub added: Store,
    /// How many edges were applied for the table; 2^64 - 1 stands for that many or more. None where the table was
    /// found by slots, where edges are not applied to states of all cells.
    pub visits: Option<u64>,
    /// What the next pass of the task may go on from by slots, where that is worth keeping.
    pub start: Option<TaskStart>,
}

/// The least table of a task over a store, and the join of what its edges contribute there. Condition: there is such a
/// task, and the store fits the program.
pub fn local(
    alloc: Global,
    analysis: &Analysis,
    task: u32,
    store: &Store,
) -> Result<TaskPass, NoMemory>
    requires task { task < analysis.now.tasks }
    requires fits { FitsProgram (program_of analysis.now) store.now }
    ensures table { IfOk result (λ pass. IsLeastTable (program_of analysis.now) task store.now pass.table.items) }
    ensures added { IfOk result (λ pass. pass.added ≡ pass_of (program_of analysis.now) task store.now) }
    ensures visits { IfOk result (λ pass. IfSome pass.visits (λ visits. AreVisitsOf (program_of analysis.now) task
        store.now visits (first_of (program_of analysis.now) task store.now) pass.table.items)) }
    ensures start { IfOk result (λ pass.
        IfSome pass.start (AreTaskValues (program_of analysis.now) task store.now)) }
{
    let entry = analysis.entries[task as usize].as_ref();
    let body = body_over_store(&analysis.program, &analysis.facts, task, entry, store);
    let system = BodySystem { body: &body };
    let uses = store_uses(alloc, analysis, task)?;
    let slots = analysis.slots.each[task as usize].as_ref();
    let BodyTable {
        table,
        visits,
        values,
    } = body_table(alloc, &body, slots)?;
    let added = joined_contributions(alloc, &system, &table, &uses.adds)?;
    let start = started(&analysis.slots, values)?;
    Ok(TaskPass {
        table,
        added,
        visits,
        start,
    })
}

// A table that goes on from an earlier one.
#[derive(Drop)]
struct NextTable {
    table: Vec<Option<BodyState>>,
    visits: Option<u64>,
    start: Option<TaskStart>,
}

// The table that is found by slots from what stood at the variables; none where nothing did, or none is found so.
fn table_from_start(
    alloc: Global,
    body: &BodyOverStore,
    task: u32,
    start: Option<TaskStart>,
) -> Result<Option<NextTable>, NoMemory>
    requires { IfSome start (λ s.
        IsBodyStart (body_of body.now) body.now.entry body.now.store (get_or s.slots task None) s.values) }
    ensures nodes { IfOk result (λ found. IfSome found (λ next.
        length next.table.items ≡ (system_of body.now).node_count)) }
    ensures least { IfOk result (λ found. IfSome found (λ next.
        IsLeastSolution states (FitsBody (body_of body.now)) (system_of body.now) (at next.table.items))) }
    ensures untold { IfOk result (λ found. IfSome found (λ next. next.visits ≡ None)) }
    ensures some { IfOk result (λ found. start ≡ None → found ≡ None) }
    ensures start { IfOk result (λ found. IfSome found (λ next. IfSome next.start (λ s.
        AreBodyValues (body_of body.now) body.now.entry body.now.store (get_or s.slots task None) s.values))) }
{
    let Some(TaskStart { slots, values }) = start else {
        return Ok(None);
    };
    let Some(Some(of_body)) = slots.each.get(task as usize) else {
        return Ok(None);
    };
    let Some(SlotTable { table, values }) = sparse_table_from(alloc, body, of_body, values)? else {
        return Ok(None);
    };
    Ok(Some(NextTable {
        table,
        visits: None,
        start: started(&slots, Some(values))?,
    }))
}

// The least table of a body, found by slots where it has a start and that succeeds; else from the table by the work
// list, which begins with the pending edges.
fn next_table(
    alloc: Global,
    body: &BodyOverStore,
    task: u32,
    table: Vec<Option<BodyState>>,
    start: Option<TaskStart>,
    pending: Vec<bool>,
) -> Result<NextTable, NoMemory>
    requires nodes { length table.items ≡ (system_of body.now).node_count }
    requires started { IsStarted states (FitsBody (body_of body.now)) (system_of body.now) (at table.items) }
    requires edges { length pending.items ≡ length (system_of body.now).links }
    requires pending { IsMetOrPending states (FitsBody (body_of body.now)) (system_of body.now) (at table.items)
        pending.items }
    requires below { (other : NodeTable State)
        → IsClosedTable states (FitsBody (body_of body.now)) (system_of body.now) other
        → IsNodewiseBelow states (FitsBody (body_of body.now)) (system_of body.now) (at table.items) other }
    requires begun { IfSome start (λ s.
        IsBodyStart (body_of body.now) body.now.entry body.now.store (get_or s.slots task None) s.values) }
    ensures nodes { IfOk result (λ next. length next.table.items ≡ (system_of body.now).node_count) }
    ensures least { IfOk result (λ next.
        IsLeastSolution states (FitsBody (body_of body.now)) (system_of body.now) (at next.table.items)) }
    ensures visits { IfOk result (λ next. AreToldUnless start next.visits (λ visits.
        IsVisited states (FitsBody (body_of body.now)) (system_of body.now) visits (at table.items)
        (at next.table.items))) }
    ensures start { IfOk result (λ next. IfSome next.start (λ s.
        AreBodyValues (body_of body.now) body.now.entry body.now.store (get_or s.slots task None) s.values)) }
{
    if let Some(next) = table_from_start(alloc, body, task, start)? {
        return Ok(next);
    }
    // The call tells that the equations keep what they ask.
    let _store = body.store();
    let Settled { table, visits } = settle(alloc, &BodySystem { body }, table, pending)?;
    Ok(NextTable {
        table,
        visits: Some(visits),
        start: None,
    })
}

/// The same, begun from a least table of the task over a store that lies below this one: what rose since is all that
/// is climbed. It goes on by slots from what an earlier pass has kept of them, where it did and that succeeds; else
/// from the edges on that look into the store. Condition: there is such a task, the store fits the program, the table
/// is such a table, and what was kept is of such a pass.
pub fn local_from(
    alloc: Global,
    analysis: &Analysis,
    task: u32,
    table: Vec<Option<BodyState>>,
    start: Option<TaskStart>,
    store: &Store,
) -> Result<TaskPass, NoMemory>
    requires task { task < analysis.now.tasks }
    requires fits { FitsProgram (program_of analysis.now) store.now }
    requires start { IsStartTable (program_of analysis.now) task store.now table.items }
    requires begun { IfSome start (IsTaskStart (program_of analysis.now) task store.now) }
    ensures table { IfOk result (λ pass. IsLeastTable (program_of analysis.now) task store.now pass.table.items) }
    ensures added { IfOk result (λ pass. pass.added ≡ pass_of (program_of analysis.now) task store.now) }
    ensures visits { IfOk result (λ pass. AreToldUnless start pass.visits (λ visits.
        AreVisitsOf (program_of analysis.now) task store.now visits (at table.items) pass.table.items)) }
    ensures start { IfOk result (λ pass.
        IfSome pass.start (AreTaskValues (program_of analysis.now) task store.now)) }
{
    let entry = analysis.entries[task as usize].as_ref();
    let body = body_over_store(&analysis.program, &analysis.facts, task, entry, store);
    let system = BodySystem { body: &body };
    let StoreUses { reads, adds } = store_uses(alloc, analysis, task)?;
    let NextTable {
        table,
        visits,
        start,
    } = next_table(alloc, &body, task, table, start, reads)?;
    let added = joined_contributions(alloc, &system, &table, &adds)?;
    Ok(TaskPass {
        table,
        added,
        visits,
        start,
    })
}

impl Passer for Analysis {
    ghost use Rattle.interfere_set.specs.Stores.{no_interference};
    ghost use Rattle.program_equality.specs.program_equations.Programs.{IsProgram};
    ghost use Rattle.program_equality.specs.program_equations.Systems.{FitsProgram, pass_of};
    ghost use Rattle.program_equality.specs.program_equations.laws.Passing.{fitting, passes_rise};
    ghost use Rattle.program_equality.specs.program_equations.laws.StoresFit.{bottom};
    ghost use Rattle.program_systems.specs.ReadPrograms.{program_of};

    type Store = Store;

    ghost is_program = { λ p. IsProgram (program_of p) };

    ghost task_count = { λ p. p.tasks };

    ghost marks_of = { λ p. p.marks };

    ghost least = { λ p. no_interference };

    ghost passed = { λ p. pass_of (program_of p) };

    ghost fits = { λ p. FitsProgram (program_of p) };

    fn tasks(&self) -> u32 {
        self.program.laid.file.tasks.len() as u32
    }

    fn same(&self, other: &Self) -> bool {
        is_same_program(self, other)
    }

    fn marks(&self) -> &Marks {
        &self.program.marks
    }

    fn bottom(&self, alloc: Global) -> Result<Store, NoMemory> {
        Ok(Store::new(alloc))
    }

    fn pass(&self, alloc: Global, task: u32, store: &Store) -> Result<Store, NoMemory> {
        let TaskPass {
            table: _table,
            added,
            visits: _visits,
            start: _start,
        } = local(alloc, self, task, store)?;
        Ok(added)
    }

    ghost fitting = { λ p is. fitting (program_of p) is };

    ghost bottom_laws = { λ p is. bottom p.marks };

    ghost monotone = { λ p is. passes_rise (program_of p) is };
}

impl Warm for Analysis {
    ghost use Rattle.program_systems.specs.ReadPrograms.{program_of};
    ghost use Rattle.thread_pass.specs.Kept.{IsKeptOf};

    type Kept = Kept;

    ghost made = { λ p. IsKeptOf (program_of p) };

    ghost made_over = { λ kept. kept.store };

    fn cold(
        &self,
        alloc: Global,
        task: u32,
        store: &Arc<Store>,
    ) -> Result<(Kept, Store), NoMemory> {
        first_pass(alloc, self, task, store)
    }

    fn warm(
        &self,
        alloc: Global,
        task: u32,
        kept: Kept,
        store: &Arc<Store>,
    ) -> Result<(Kept, Store), NoMemory> {
        next_pass(alloc, self, task, kept, store)
    }
}
