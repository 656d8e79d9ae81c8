//! The tables that a quiet core keeps.
ghost use Rattle.std.specs.Prelude.{◌≡◌, ℕ, ◌<◌, length, IfOk};
ghost use Rattle.store_core.specs.Histories.{IsQuiet};
ghost use Rattle.program_solutions.specs.program_equations.Solutions.{table_at};
ghost use Rattle.program_solutions.specs.program_systems.ReadPrograms.{program_of};
ghost use Rattle.program_solutions.specs.thread_pass.Analyses.{IsLeastTable};
ghost use Rattle.program_solutions.specs.post_recheck.Pairs.{lists_of};
ghost use Rattle.worker_solutions.specs.QuietHistories.{present_store};

use program_solutions::{Analysis, Table, copied_table};
use std::alloc::Global;
use store_core::{StoreCore, quiet_kept};
use tm_lattice::{NoMemory, Passer};

// The table that the last pass of a task kept, copied.
fn kept_table(alloc: Global, core: &StoreCore<Analysis>, task: u32) -> Result<Table, NoMemory>
    requires task { task < core.now.program.tasks }
    requires quiet { IsQuiet core.now.program.tasks core.now.past }
    ensures { IfOk result (λ table. IsLeastTable (program_of core.now.program) task
        (present_store (program_of core.now.program) core.now.past) table.items) }
{
    quiet_kept::<Analysis>();
    let _history = core.history();
    match core.kept(task) {
        Some(kept) => copied_table(alloc, kept.table()),
        None => unreachable!(),
    }
}

// The tables that the last passes of all tasks kept, copied: each is the least one over the present store.
pub(crate) fn kept_tables(alloc: Global, core: &StoreCore<Analysis>) -> Result<Vec<Table>, NoMemory>
    requires { IsQuiet core.now.program.tasks core.now.past }
    ensures count { IfOk result (λ tables. length tables.items ≡ core.now.program.tasks) }
    ensures least { IfOk result (λ tables. (t : ℕ) → t < core.now.program.tasks →
        IsLeastTable (program_of core.now.program) t
        (present_store (program_of core.now.program) core.now.past) (table_at (lists_of tables.items) t)) }
{
    let mut tables = Vec::new(alloc);
    'tasks: for task in 0..core.program().tasks() {
        tables.push(kept_table(alloc, core, task)?)?;
    }
    Ok(tables)
}
