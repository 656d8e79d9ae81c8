//! Passes that keep what the next pass of their task goes on from.
ghost use Rattle.std.specs.Prelude.{◌≡◌, ◌<◌, IfOk, IfSome};
ghost use Rattle.std.specs.Arc.{arc_value};
ghost use Rattle.interfere_set.specs.Stores.{IsStoreBelow};
ghost use Rattle.table_covers.specs.Solutions.{at};
ghost use Rattle.program_equality.specs.program_equations.Systems.{FitsProgram, pass_of};
ghost use Rattle.program_systems.specs.ReadPrograms.{program_of};
ghost use Rattle.thread_pass.specs.Kept.{IsKeptOf, AreVisitsOf, AreToldUnless, first_of, unvisited};

use crate::analyses::Analysis;
use crate::kept::Kept;
use crate::passes::{TaskPass, local, local_from};
use interfere_set::Store;
use std::alloc::Global;
use std::sync::Arc;
use tm_lattice::{Lattice, NoMemory};

/// The pass of a task from nothing: what it keeps, and what its edges contribute. Condition: there is such a task, and
/// the store fits the program.
pub fn first_pass(
    alloc: Global,
    analysis: &Analysis,
    task: u32,
    store: &Arc<Store>,
) -> Result<(Kept, Store), NoMemory>
    requires task { task < analysis.now.tasks }
    requires fits { FitsProgram (program_of analysis.now) (arc_value store.now) }
    ensures made { IfOk result (λ r. IsKeptOf (program_of analysis.now) task r.0) }
    ensures over { IfOk result (λ r. r.0.store ≡ arc_value store.now) }
    ensures added { IfOk result (λ r. r.1 ≡ pass_of (program_of analysis.now) task (arc_value store.now)) }
    ensures visits { IfOk result (λ r. IfSome r.0.visits (λ visits. AreVisitsOf (program_of analysis.now) task
        (arc_value store.now) visits (first_of (program_of analysis.now) task (arc_value store.now)) r.0.table)) }
{
    let pass = local(alloc, analysis, task, store)?;
    keep(alloc, pass, store)
}

/// The pass of a task that goes on from what an earlier one has kept, over a store that lies above the earlier one.
/// Over the same store no edge is applied: the table and the contributions are those that were kept. Condition: there
/// is such a task, both stores fit the program, and what is given was kept by a pass of the task.
pub fn next_pass(
    alloc: Global,
    analysis: &Analysis,
    task: u32,
    kept: Kept,
    store: &Arc<Store>,
) -> Result<(Kept, Store), NoMemory>
    requires task { task < analysis.now.tasks }
    requires fits { FitsProgram (program_of analysis.now) (arc_value store.now) }
    requires kept { IsKeptOf (program_of analysis.now) task kept }
    requires kept_fits { FitsProgram (program_of analysis.now) kept.store }
    requires below { IsStoreBelow kept.store (arc_value store.now) }
    ensures made { IfOk result (λ r. IsKeptOf (program_of analysis.now) task r.0) }
    ensures over { IfOk result (λ r. r.0.store ≡ arc_value store.now) }
    ensures added { IfOk result (λ r. r.1 ≡ pass_of (program_of analysis.now) task (arc_value store.now)) }
    ensures visits { IfOk result (λ r. AreToldUnless kept.start r.0.visits (λ visits.
        AreVisitsOf (program_of analysis.now) task (arc_value store.now) visits (at kept.table) r.0.table)) }
    ensures same { IfOk result (λ r. arc_value store.now ≡ kept.store → r.0 ≡ unvisited kept) }
{
    if Store::below(store, &kept.store) {
        return repeated(alloc, kept);
    }
    let Kept {
        table,
        added: _added,
        store: _earlier,
        visits: _visits,
        start,
    } = kept;
    let pass = local_from(alloc, analysis, task, table, start, store)?;
    keep(alloc, pass, store)
}

// What is kept of a pass over a store, and its contributions.
fn keep(alloc: Global, pass: TaskPass, store: &Arc<Store>) -> Result<(Kept, Store), NoMemory>
    ensures kept { IfOk result (λ r. r.0 ≡ record {
      table = pass.table.items;
      added = pass.added;
      store = arc_value store.now;
      visits = pass.visits;
      start = pass.start;
    }) }
    ensures added { IfOk result (λ r. r.1 ≡ pass.added) }
{
    let TaskPass {
        table,
        added,
        visits,
        start,
    } = pass;
    let kept = Kept {
        table,
        added: added.copied(alloc)?,
        store: store.clone()?,
        visits,
        start,
    };
    Ok((kept, added))
}

// What was kept, of which no edge was applied, and its contributions.
fn repeated(alloc: Global, kept: Kept) -> Result<(Kept, Store), NoMemory>
    ensures kept { IfOk result (λ r. r.0 ≡ unvisited kept) }
    ensures added { IfOk result (λ r. r.1 ≡ kept.added) }
{
    let more = kept.added.copied(alloc)?;
    let Kept {
        table,
        added,
        store,
        visits: _visits,
        start,
    } = kept;
    let unchanged = Kept {
        table,
        added,
        store,
        visits: Some(0),
        start,
    };
    Ok((unchanged, more))
}
