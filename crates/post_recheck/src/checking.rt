//! Checks of tables and a store.
ghost use Rattle.std.specs.Prelude.{◌≡◌, ◌<◌, length, IfOk};
ghost use Rattle.std.specs.Arc.{arc_value};
ghost use Rattle.shared_programs.specs.program_equations.Solutions.{table_at};
ghost use Rattle.shared_programs.specs.program_systems.Analysable.{IsAnalysable};
ghost use Rattle.shared_programs.specs.program_systems.ProgramFacts.{AreProgramFacts, program_with};
ghost use Rattle.post_recheck.specs.Pairs.{pair_of, lists_of, FitsPair};
ghost use Rattle.post_recheck.specs.Bodies.{AreEntries, AreChecked, IsBodyCheck, IsGiven};
ghost use Rattle.post_recheck.specs.Checks.{IsAnswer};

use crate::answers::answered;
use crate::bodies::{BodyCheck, checked_body};
use crate::side_by_side::{Given, checks_of};
use crate::solutions::{Checked, Table};
use cell_env::State;
use interfere_set::Store;
use mutex_configs::Program;
use pointer_dom::AbsValue;
use shared_programs::{BodyState, ProgramFacts, task_entries};
use std::alloc::Global;
use std::sync::Arc;
use std::thread::Threads;
use tm_lattice::NoMemory;

// The table of the initial section; an empty one where there is none.
fn section_table<'a>(program: &Program, tables: &'a [Table]) -> &'a [Option<BodyState>]
    ensures { result.now ≡ table_at (lists_of tables.now) (length program.now.laid.file.tasks.items) }
{
    match tables.get(program.laid.file.tasks.len()) {
        Some(table) => table,
        None => &[],
    }
}

// The states at the entries of the tasks, after the given table of the initial section.
fn entries_after(
    alloc: Global,
    program: &Program,
    facts: &ProgramFacts,
    tables: &[Table],
    store: &Store,
) -> Result<Vec<Option<State<AbsValue>>>, NoMemory>
    requires analysable { IsAnalysable program.now }
    requires facts { AreProgramFacts program.now facts.now }
    requires fits { FitsPair (program_with program.now facts.now) (pair_of tables.now store.now) }
    ensures { IfOk result (λ v.
        AreEntries (program_with program.now facts.now) (pair_of tables.now store.now) v.items) }
{
    task_entries(alloc, program, facts, section_table(program, tables))
}

// The checks of all bodies, side by side.
fn checks_by_threads<R: Threads + Sync>(
    rt: &R,
    alloc: Global,
    program: &Program,
    facts: &ProgramFacts,
    tables: &[Table],
    store: &Store,
    entries: &[Option<State<AbsValue>>],
) -> Result<Vec<Result<BodyCheck, NoMemory>>, NoMemory>
    requires { IsGiven program.now facts.now (pair_of tables.now store.now) entries.now }
    ensures { IfOk result (λ v.
        AreChecked (program_with program.now facts.now) (pair_of tables.now store.now) v.items) }
{
    let given = Given {
        alloc,
        program,
        facts,
        tables,
        store,
        entries,
    };
    let checks = checks_of(rt, alloc, &given, tables.len())?;
    Ok(checks)
}

// The checks of all bodies, one after another.
fn checks_in_order(
    alloc: Global,
    program: &Program,
    facts: &ProgramFacts,
    tables: &[Table],
    store: &Store,
    entries: &[Option<State<AbsValue>>],
) -> Result<Vec<Result<BodyCheck, NoMemory>>, NoMemory>
    requires { IsGiven program.now facts.now (pair_of tables.now store.now) entries.now }
    ensures { IfOk result (λ v.
        AreChecked (program_with program.now facts.now) (pair_of tables.now store.now) v.items) }
{
    let mut checks = Vec::new(alloc);
    for number in 0..tables.len() {
        let check = checked_body(alloc, program, facts, tables, store, entries, number as u32);
        checks.push(check)?;
    }
    Ok(checks)
}

/// Whether the tables and the store are a solution of the program's equations: those that are given, where they are;
/// the first edge that is not covered, where there is one; or that the store is not covered. The bodies are checked by
/// several threads, where they can be made. Condition: the facts are those of the program, and the tables and the
/// store fit it.
///
/// A public call of its own, for users of the crate; the check of a certificate takes `recheck_in_order`, and the
/// analysis neither.
pub fn recheck<R: Threads + Sync>(
    rt: &R,
    alloc: Global,
    program: &Program,
    facts: &ProgramFacts,
    tables: Vec<Table>,
    store: Arc<Store>,
) -> Result<Checked, NoMemory>
    requires analysable { IsAnalysable program.now }
    requires facts { AreProgramFacts program.now facts.now }
    requires fits { FitsPair (program_with program.now facts.now) (pair_of tables.items (arc_value store)) }
    ensures { IfOk result
        (IsAnswer (program_with program.now facts.now) (pair_of tables.items (arc_value store))) }
{
    let entries = entries_after(alloc, program, facts, &tables, &store)?;
    let checks = checks_by_threads(rt, alloc, program, facts, &tables, &store, &entries)?;
    answered(alloc, &program.marks, tables, store, &checks)
}

/// What `recheck` answers, by one thread.
pub fn recheck_in_order(
    alloc: Global,
    program: &Program,
    facts: &ProgramFacts,
    tables: Vec<Table>,
    store: Arc<Store>,
) -> Result<Checked, NoMemory>
    requires analysable { IsAnalysable program.now }
    requires facts { AreProgramFacts program.now facts.now }
    requires fits { FitsPair (program_with program.now facts.now) (pair_of tables.items (arc_value store)) }
    ensures { IfOk result
        (IsAnswer (program_with program.now facts.now) (pair_of tables.items (arc_value store))) }
{
    let entries = entries_after(alloc, program, facts, &tables, &store)?;
    let checks = checks_in_order(alloc, program, facts, &tables, &store, &entries)?;
    answered(alloc, &program.marks, tables, store, &checks)
}
