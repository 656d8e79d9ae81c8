//! Passes of the tasks in turn.
ghost use Rattle.std.specs.Prelude.{◌≡◌, ℕ, ◌<◌, ◌≤◌, length, get_or, None, IfOk, IsOk, IfSome};
ghost use Rattle.store_limits.specs.program_equations.Systems.{FitsProgram, pass_of};
ghost use Rattle.thread_pass.specs.program_systems.ReadPrograms.{program_of};
ghost use Rattle.thread_pass.specs.Analyses.{IsLeastTable};
ghost use Rattle.thread_pass.specs.Starts.{AreTaskValues, IsTaskStart};
ghost use Rattle.program_reports.specs.post_recheck.Pairs.{lists_of};
ghost use Rattle.program_solutions.specs.reading.Turns.{IsPassed, IsKeptTable, IsUnderway, HasEnded, left};
ghost use Rattle.program_solutions.specs.reading.Turns.{turn_after};

use crate::tables::empty_tables;
use interfere_set::Store;
use program_reports::Table;
use std::alloc::Global;
use thread_pass::{Analysis, TaskPass, TaskStart, local, local_from};
use tm_lattice::{Lattice, NoMemory, Passer};

// What a pass over a store brings.
#[derive(Drop)]
pub(crate) enum PassOutcome {
    // It adds nothing: the table of the task, and what its next pass may go on from by slots.
    Quiet(Table, Option<TaskStart>),
    // The same, and the store with what it adds.
    Raised(Table, Option<TaskStart>, Store),
}

// Where passes in turn have come.
#[derive(Drop)]
pub(crate) struct Turns {
    // The store.
    pub(crate) store: Store,
    // For each task the table of its last pass, empty where it has not passed: its next pass goes on from there.
    pub(crate) tables: Vec<Table>,
    // And what its next pass may go on from by slots, where its last one has kept that.
    pub(crate) starts: Vec<Option<TaskStart>>,
    // The task that is next.
    pub(crate) next: usize,
    // How many passes, one after another until now, have added nothing.
    pub(crate) quiet: usize,
}

// The pass of a task over the store. It goes on from the last one, where there is one.
fn pass_from(
    alloc: Global,
    analysis: &Analysis,
    task: u32,
    table: Table,
    start: Option<TaskStart>,
    store: &Store,
) -> Result<TaskPass, NoMemory>
    requires task { task < analysis.now.tasks }
    requires fits { FitsProgram (program_of analysis.now) store.now }
    requires kept { IsKeptTable (program_of analysis.now) task store.now table.items }
    requires begun { IfSome start (IsTaskStart (program_of analysis.now) task store.now) }
    ensures table { IfOk result (λ pass. IsLeastTable (program_of analysis.now) task store.now pass.table.items) }
    ensures added { IfOk result (λ pass. pass.added ≡ pass_of (program_of analysis.now) task store.now) }
    ensures start { IfOk result (λ pass.
        IfSome pass.start (AreTaskValues (program_of analysis.now) task store.now)) }
{
    if table.is_empty() {
        local(alloc, analysis, task, store)
    } else {
        local_from(alloc, analysis, task, table, start, store)
    }
}

// The pass of a task over the store: the joined and rounded store, where it lies above; else the table.
fn passed(
    alloc: Global,
    analysis: &Analysis,
    task: u32,
    table: Table,
    start: Option<TaskStart>,
    store: &Store,
) -> Result<PassOutcome, NoMemory>
    requires task { task < analysis.now.tasks }
    requires fits { FitsProgram (program_of analysis.now) store.now }
    requires kept { IsKeptTable (program_of analysis.now) task store.now table.items }
    requires begun { IfSome start (IsTaskStart (program_of analysis.now) task store.now) }
    ensures { IfOk result (IsPassed (program_of analysis.now) task store.now) }
{
    let TaskPass {
        table,
        added,
        visits: _visits,
        start,
    } = pass_from(alloc, analysis, task, table, start, store)?;
    let after = store.join(alloc, &added)?.round(alloc, analysis.marks())?;
    if after.below(store) {
        Ok(PassOutcome::Quiet(table, start))
    } else {
        Ok(PassOutcome::Raised(table, start, after))
    }
}

// The task whose turn comes after that of this one.
fn turn_behind(task: usize, tasks: usize) -> usize
    requires { task < tasks }
    ensures { result ≡ turn_after task tasks }
{
    if task + 1 < tasks { task + 1 } else { 0 }
}

// The next task passes once.
fn take_turn(alloc: Global, analysis: &Analysis, turns: &mut Turns) -> Result<(), NoMemory>
    requires underway { IsUnderway (program_of analysis.now) turns.old.store (lists_of turns.old.tables.items)
        turns.old.starts.items turns.old.next turns.old.quiet }
    requires loud { turns.old.quiet < analysis.now.tasks }
    ensures underway { IsOk result → IsUnderway (program_of analysis.now) turns.new.store
        (lists_of turns.new.tables.items) turns.new.starts.items turns.new.next turns.new.quiet }
    ensures smaller { IsOk result → left (program_of analysis.now) turns.new.store turns.new.quiet
        < left (program_of analysis.now) turns.old.store turns.old.quiet }
{
    let task = turns.next;
    turns.next = turn_behind(task, analysis.tasks() as usize);
    let last = std::mem::replace(&mut turns.tables[task], Vec::new(alloc));
    let start = turns.starts[task].take();
    match passed(alloc, analysis, task as u32, last, start, &turns.store)? {
        PassOutcome::Quiet(table, start) => {
            turns.tables[task] = table;
            turns.starts[task] = start;
            turns.quiet += 1;
            Ok(())
        }
        PassOutcome::Raised(table, start, after) => {
            turns.tables[task] = table;
            turns.starts[task] = start;
            turns.store = after;
            turns.quiet = 0;
            Ok(())
        }
    }
}

// No task has a start.
fn no_starts(alloc: Global, tasks: usize) -> Result<Vec<Option<TaskStart>>, NoMemory>
    ensures count { IfOk result (λ starts. length starts.items ≡ tasks) }
    ensures none { IfOk result (λ starts. (t : ℕ) → get_or starts.items t None ≡ None) }
{
    let mut starts = Vec::new(alloc);
    for _ in 0..tasks {
        starts.push(None)?;
    }
    Ok(starts)
}

// Passes of the tasks in turn over one store, from the least one, until none adds anything.
pub(crate) fn passes_in_turn(alloc: Global, analysis: &Analysis) -> Result<Turns, NoMemory>
    ensures { IfOk result (λ turns.
        HasEnded (program_of analysis.now) turns.store (lists_of turns.tables.items)) }
{
    let tasks = analysis.tasks() as usize;
    let mut turns = Turns {
        store: analysis.bottom(alloc)?,
        tables: empty_tables(alloc, tasks)?,
        starts: no_starts(alloc, tasks)?,
        next: 0,
        quiet: 0,
    };
    'passes: while turns.quiet < tasks {
        take_turn(alloc, analysis, &mut turns)?;
    }
    Ok(turns)
}
