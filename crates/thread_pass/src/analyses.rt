//! Programs with their initial section analysed.
ghost use Rattle.std.specs.Prelude.{◌≡◌, ◌<◌, IfOk, MatchOption};
ghost use Rattle.flow_graph.specs.tm_laid.Layouts.{laid_tree};
ghost use Rattle.program_equality.specs.program_equations.Programs.{HasSection, IsProgramOf};
ghost use Rattle.program_systems.specs.Analysable.{IsAnalysable};
ghost use Rattle.program_systems.specs.ReadPrograms.{program_of};
ghost use Rattle.program_systems.specs.ProgramFacts.{AreProgramFacts, read_with, program_with};
ghost use Rattle.thread_pass.specs.Analyses.{AreProgramSlots, IsSectionTable};

use crate::body_tables::{BodyTable, body_table};
use crate::program_slots::program_slots;
use crate::starts::ProgramSlots;
use body_slots::BodySlots;
use cell_env::State;
use interfere_set::Store;
use mutex_configs::Program;
use pointer_dom::AbsValue;
use program_systems::{BodyState, ProgramFacts, body_over_store, section_entry, task_entries};
use std::alloc::Global;
use std::marker::Model;
use std::sync::Arc;
use tm_lattice::NoMemory;

/// The table of an initial section: for each node of its configured graph a state, or none.
#[derive(Drop)]
pub struct SectionTable {
    states: Vec<Option<BodyState>>,
}

impl Model for SectionTable {
    ghost use Rattle.std.specs.Prelude.{List, Option};
    ghost use Rattle.program_equality.specs.transfer_rows.StateForms.{State};
    ghost use Rattle.thread_pass.specs.laws.Codes.{table_code};

    ghost Value = { List (Option State) };

    ghost coded = { table_code };

    ghost view = { λ a. a.states.items };
}

impl SectionTable {
    /// The states by the numbers of the nodes.
    pub fn states(&self) -> &[Option<BodyState>]
        ensures { result.now ≡ self.now }
    {
        &self.states
    }
}

/// A program with what is computed once of it: facts of its bodies, their slots, the table of its initial section, and
/// the states in which its tasks begin.
pub struct Analysis {
    pub(crate) program: Program,
    pub(crate) facts: ProgramFacts,
    // The slots of its bodies. Passes keep them with what they found by them.
    pub(crate) slots: Arc<ProgramSlots>,
    // Empty where there is no initial section.
    section: SectionTable,
    // For each task the state in which it begins, none where it does not.
    pub(crate) entries: Vec<Option<State<AbsValue>>>,
}

// By hand: a function that lets one go calls this, and its check does not go through the fields.
impl Drop for Analysis {
    fn drop(self) {
        let Analysis {
            program: _program,
            facts: _facts,
            slots: _slots,
            section: _section,
            entries: _entries,
        } = self;
    }
}

impl Model for Analysis {
    ghost use Rattle.std.specs.Arc.{arc_value};
    ghost use Rattle.program_systems.specs.ReadPrograms.{ReadProgram};
    ghost use Rattle.program_systems.specs.ProgramFacts.{read_with};
    ghost use Rattle.thread_pass.specs.Analyses.{IsAnalysis};

    ghost Value = { ReadProgram };

    ghost view = { λ a. read_with a.program a.facts };

    ghost invariant = { λ a. IsAnalysis a.program a.facts (arc_value a.slots) a.section a.entries.items };
}

// The least table of the initial section; an empty one where there is none.
fn section_table(
    alloc: Global,
    program: &Program,
    facts: &ProgramFacts,
    all_slots: &[Option<BodySlots>],
) -> Result<SectionTable, NoMemory>
    requires analysable { IsAnalysable program.now }
    requires facts { AreProgramFacts program.now facts.now }
    requires slots { AreProgramSlots (program_with program.now facts.now) all_slots.now }
    ensures { IfOk result (λ section. IsSectionTable (program_with program.now facts.now) section) }
{
    let tasks = program.laid.file.tasks.len();
    if tasks >= program.graphs.graphs.len() {
        return Ok(SectionTable {
            states: Vec::new(alloc),
        });
    }
    let entry = section_entry(alloc, program)?;
    let nothing = Store::new(alloc);
    let body = body_over_store(program, facts, tasks as u32, Some(&entry), &nothing);
    let slots = all_slots[tasks].as_ref();
    let BodyTable {
        table,
        visits: _visits,
        values: _values,
    } = body_table(alloc, &body, slots)?;
    Ok(SectionTable { states: table })
}

impl Analysis {
    /// The analysis of a program, with its initial section analysed.
    pub fn new(alloc: Global, program: Program) -> Result<Analysis, NoMemory>
        requires { IsAnalysable program }
        ensures { IfOk result (λ a. IsProgramOf (laid_tree program.laid) program.graphs.graphs.items
            program.configured.items program.marks (program_of a)) }
    {
        let facts = ProgramFacts::new(alloc, &program)?;
        let each = program_slots(alloc, &program, &facts)?;
        let section = section_table(alloc, &program, &facts, &each)?;
        let entries = task_entries(alloc, &program, &facts, section.states())?;
        let slots = Arc::new(alloc, ProgramSlots { each })?;
        Ok(Analysis {
            program,
            facts,
            slots,
            section,
            entries,
        })
    }

    /// The program.
    pub fn program(&self) -> &Program
        ensures analysable { IsAnalysable result.now }
        ensures program { IsProgramOf (laid_tree result.now.laid) result.now.graphs.graphs.items
            result.now.configured.items result.now.marks (program_of self.now) }
    {
        &self.program
    }

    /// The program with what is computed once of it.
    pub fn parts(&self) -> (&Program, &ProgramFacts)
        ensures analysable { IsAnalysable result.0.now }
        ensures facts { AreProgramFacts result.0.now result.1.now }
        ensures program { self.now ≡ read_with result.0.now result.1.now }
    {
        (&self.program, &self.facts)
    }

    /// The least table of the initial section: None exactly where there is no such section.
    pub fn section(&self) -> Option<&SectionTable>
        ensures { MatchOption result (HasSection (program_of self.now) → ⊥)
            (λ table. HasSection (program_of self.now) × IsSectionTable (program_of self.now) table.now) }
    {
        if self.program.laid.file.tasks.len() < self.program.graphs.graphs.len() {
            Some(&self.section)
        } else {
            None
        }
    }
}
