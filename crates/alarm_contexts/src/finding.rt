//! The alarms of a program's tables with their contexts.
ghost use Rattle.std.specs.Prelude.{IfOk};
ghost use Rattle.program_reports.specs.post_recheck.program_equations.Solutions.{tables_of};
ghost use Rattle.program_reports.specs.post_recheck.program_systems.Analysable.{IsAnalysable};
ghost use Rattle.program_reports.specs.post_recheck.program_systems.ProgramFacts.{AreProgramFacts, program_with};
ghost use Rattle.program_reports.specs.post_recheck.Pairs.{FitsPair, lists_of, pair_of};
ghost use Rattle.alarm_contexts.specs.Contexts.{AreContexts};

use crate::alarm_context::AlarmContexts;
use crate::bodies::contexts_in;
use crate::merging::merged;
use interfere_set::Store;
use mutex_configs::Program;
use program_reports::{ProgramFacts, Table};
use std::alloc::Global;
use tm_lattice::NoMemory;

/// The alarms of the tables of a program's bodies, in the order of reports and without those of races: of each the
/// edges at which its class is not excluded, the values of its operands there, and whether control goes on behind none
/// of them.
pub fn alarm_contexts(
    alloc: Global,
    program: &Program,
    facts: &ProgramFacts,
    tables: &[Table],
    store: &Store,
) -> Result<Vec<AlarmContexts>, NoMemory>
    requires analysable { IsAnalysable program.now }
    requires facts { AreProgramFacts program.now facts.now }
    requires fits { FitsPair (program_with program.now facts.now) (pair_of tables.now store.now) }
    ensures { IfOk result (λ alarms. AreContexts (program_with program.now facts.now)
        (tables_of (lists_of tables.now)) alarms.items) }
{
    let contexts = contexts_in(alloc, program, facts, tables, store)?;
    merged(alloc, program, facts, tables, store, contexts)
}
