//! The tables of a pair.
ghost use Rattle.std.specs.Prelude.{◌≡◌, ℕ, ◌<◌, [], length, IfOk};
ghost use Rattle.store_limits.specs.program_equations.Solutions.{table_at};
ghost use Rattle.thread_pass.specs.program_systems.ReadPrograms.{program_of};
ghost use Rattle.program_reports.specs.post_recheck.Pairs.{lists_of};
ghost use Rattle.program_solutions.specs.Tables.{AreCompleted};

use program_reports::{BodyState, Table};
use std::alloc::Global;
use thread_pass::Analysis;
use tm_lattice::{Lattice, NoMemory};

// So many empty tables.
pub(crate) fn empty_tables(alloc: Global, tasks: usize) -> Result<Vec<Table>, NoMemory>
    ensures count { IfOk result (λ tables. length tables.items ≡ tasks) }
    ensures empty { IfOk result (λ tables. (t : ℕ) → table_at (lists_of tables.items) t ≡ []) }
{
    let mut tables = Vec::new(alloc);
    for _ in 0..tasks {
        tables.push(Vec::new(alloc))?;
    }
    Ok(tables)
}

// An equal state, or none.
fn copied_state(alloc: Global, state: &Option<BodyState>) -> Result<Option<BodyState>, NoMemory>
    ensures { IfOk result (λ copy. copy ≡ state.now) }
{
    match state {
        None => Ok(None),
        Some(state) => Ok(Some(state.copied(alloc)?)),
    }
}

/// An equal table.
pub fn copied_table(alloc: Global, table: &[Option<BodyState>]) -> Result<Table, NoMemory>
    ensures { IfOk result (λ copy. copy.items ≡ table.now) }
{
    let mut copy = Vec::new(alloc);
    for state in table {
        copy.push(copied_state(alloc, state)?)?;
    }
    Ok(copy)
}

/// The tables of the tasks, and then that of the initial section, where there is one.
pub fn completed(
    alloc: Global,
    analysis: &Analysis,
    mut tables: Vec<Table>,
) -> Result<Vec<Table>, NoMemory>
    ensures { IfOk result (λ all.
        AreCompleted (program_of analysis.now) (lists_of tables.items) (lists_of all.items)) }
{
    let Some(section) = analysis.section() else {
        return Ok(tables);
    };
    tables.push(copied_table(alloc, section.states())?)?;
    Ok(tables)
}
