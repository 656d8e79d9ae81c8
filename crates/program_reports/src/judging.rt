//! The report of tables.
ghost use Rattle.std.specs.Prelude.{◌↔◌, length, Contains, IfOk};
ghost use Rattle.tm_terms.specs.declared.alarms.Alarm.{Alarm as AnAlarm};
ghost use Rattle.post_recheck.specs.program_equations.Solutions.{tables_of};
ghost use Rattle.post_recheck.specs.program_systems.Analysable.{IsAnalysable};
ghost use Rattle.post_recheck.specs.program_systems.ProgramFacts.{AreProgramFacts, program_with};
ghost use Rattle.post_recheck.specs.Pairs.{FitsPair, lists_of, pair_of};
ghost use Rattle.access_races.specs.declared.accesses.Access.{Access as AnAccess};
ghost use Rattle.program_reports.specs.Reports.{IsReport};
ghost use Rattle.program_reports.specs.reading.Bodies.{IsAlarmUpTo, IsAccessUpTo};

use crate::bodies::add_body;
use crate::copies::Found;
use access_races::report_of;
use interfere_set::Store;
use mutex_configs::Program;
use post_recheck::{ProgramFacts, Table};
use std::alloc::Global;
use tm_lattice::NoMemory;
use tm_terms::Report;

// What all bodies give.
fn found_in(
    alloc: Global,
    program: &Program,
    facts: &ProgramFacts,
    tables: &[Table],
    store: &Store,
) -> Result<Found, NoMemory>
    requires analysable { IsAnalysable program.now }
    requires facts { AreProgramFacts program.now facts.now }
    requires fits { FitsPair (program_with program.now facts.now) (pair_of tables.now store.now) }
    ensures alarms { IfOk result (λ found. (a : AnAlarm) → Contains found.alarms.items a
        ↔ IsAlarmUpTo (program_with program.now facts.now) (tables_of (lists_of tables.now))
        (length (program_with program.now facts.now).bodies) a) }
    ensures accesses { IfOk result (λ found. (x : AnAccess) → Contains found.accesses.items x
        ↔ IsAccessUpTo (program_with program.now facts.now) (tables_of (lists_of tables.now))
        (length (program_with program.now facts.now).bodies) x) }
{
    let mut found = Found {
        alarms: Vec::new(alloc),
        accesses: Vec::new(alloc),
    };
    for number in 0..tables.len() {
        add_body(
            alloc,
            program,
            facts,
            tables,
            store,
            number as u32,
            &mut found,
        )?;
    }
    Ok(found)
}

/// The report of the tables of a program's bodies: each class of errors that a state of theirs does not exclude, at its
/// place, and a race at each access of a task that another task's access may meet.
pub fn judge(
    alloc: Global,
    program: &Program,
    facts: &ProgramFacts,
    tables: &[Table],
    store: &Store,
) -> Result<Report, NoMemory>
    requires analysable { IsAnalysable program.now }
    requires facts { AreProgramFacts program.now facts.now }
    requires fits { FitsPair (program_with program.now facts.now) (pair_of tables.now store.now) }
    ensures { IfOk result (λ report. IsReport (program_with program.now facts.now)
        (tables_of (lists_of tables.now)) report.alarms.items) }
{
    let Found { alarms, accesses } = found_in(alloc, program, facts, tables, store)?;
    report_of(alloc, alarms, &accesses)
}
