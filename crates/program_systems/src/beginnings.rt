//! Where the bodies begin.
ghost use Rattle.std.specs.Prelude.{◌≡◌, ◌<◌, ℕ, Some, None, length, get_or, IfOk};
ghost use Rattle.std.specs.Option.{option_copied};
ghost use Rattle.mutex_configs.specs.tm_laid.Layouts.{laid_tree};
ghost use Rattle.entry_states.specs.program_equations.Readings.{read_layout};
ghost use Rattle.entry_states.specs.program_equations.Programs.{body_at, HasSection};
ghost use Rattle.entry_states.specs.program_equations.Entries.{first_state, later_state};
ghost use Rattle.entry_states.specs.program_equations.Systems.{task_entry};
ghost use Rattle.program_systems.specs.Analysable.{IsAnalysable};
ghost use Rattle.program_systems.specs.ProgramFacts.{AreProgramFacts, program_with};

use crate::facts::ProgramFacts;
use cell_env::State;
use entry_states::{BodyState, ended_state, first_state, initial_values, later_state};
use mutex_configs::Program;
use pointer_dom::AbsValue;
use std::alloc::Global;
use tm_lattice::NoMemory;

/// The state at the entry of the initial section: cells of static storage hold what they hold before anything has run.
pub fn section_entry(alloc: Global, program: &Program) -> Result<State<AbsValue>, NoMemory>
    requires { IsAnalysable program.now }
    ensures { IfOk result (λ state. state ≡ first_state (read_layout (laid_tree program.now.laid))
        (length program.now.laid.file.tasks.items)) }
{
    let values = initial_values(alloc, &program.laid)?;
    let tasks = program.laid.file.tasks.len() as u32;
    first_state(alloc, &program.laid, tasks, &values)
}

// The state at the entry of each task before anything has run.
fn first_entries(alloc: Global, program: &Program) -> Result<Vec<Option<State<AbsValue>>>, NoMemory>
    requires { IsAnalysable program.now }
    ensures count { IfOk result (λ v. length v.items ≡ length program.now.laid.file.tasks.items) }
    ensures each { IfOk result (λ v. (t : ℕ) → t < length v.items
        → get_or v.items t None ≡ Some (first_state (read_layout (laid_tree program.now.laid)) t)) }
{
    let values = initial_values(alloc, &program.laid)?;
    let mut entries = Vec::new(alloc);
    for task in 0..program.laid.file.tasks.len() as u32 {
        let state = first_state(alloc, &program.laid, task, &values)?;
        entries.push(Some(state))?;
    }
    Ok(entries)
}

// The state at the entry of each task after the initial section, which ends in this state; none where it does not end.
fn later_entries(
    alloc: Global,
    program: &Program,
    ended: Option<&BodyState>,
) -> Result<Vec<Option<State<AbsValue>>>, NoMemory>
    requires { IsAnalysable program.now }
    ensures count { IfOk result (λ v. length v.items ≡ length program.now.laid.file.tasks.items) }
    ensures each { IfOk result (λ v. (t : ℕ) → t < length v.items → get_or v.items t None
        ≡ later_state (read_layout (laid_tree program.now.laid)) t (option_copied ended.entry)) }
{
    let mut entries = Vec::new(alloc);
    for task in 0..program.laid.file.tasks.len() as u32 {
        let state = later_state(alloc, &program.laid, task, ended)?;
        entries.push(state)?;
    }
    Ok(entries)
}

/// The state at the entry of each task: after the initial section, of which this is a table, where there is one; none
/// where that does not end.
pub fn task_entries(
    alloc: Global,
    program: &Program,
    facts: &ProgramFacts,
    section: &[Option<BodyState>],
) -> Result<Vec<Option<State<AbsValue>>>, NoMemory>
    requires analysable { IsAnalysable program.now }
    requires facts { AreProgramFacts program.now facts.now }
    requires section { (let p = program_with program.now facts.now in HasSection p
        → (let b = body_at p p.tasks in length section.now ≡ length b.nodes)) }
    ensures count { IfOk result (λ v. length v.items ≡ (program_with program.now facts.now).tasks) }
    ensures each { IfOk result (λ v. (t : ℕ) → t < length v.items
        → (let p = program_with program.now facts.now in get_or v.items t None ≡ task_entry p section.now t)) }
{
    let tasks = program.laid.file.tasks.len();
    if tasks >= facts.bodies().len() {
        return first_entries(alloc, program);
    }
    let ended = ended_state(
        alloc,
        &program.graphs.graphs[tasks],
        &program.configured[tasks].nodes,
        section,
    )?;
    later_entries(alloc, program, ended.as_ref())
}
