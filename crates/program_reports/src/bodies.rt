//! What a body gives to a report.
ghost use Rattle.std.specs.Prelude.{◌≡◌, ◌<◌, ◌⊎◌, ◌↔◌, true, nat_lt, length, Contains, OnOk};
ghost use Rattle.tm_terms.specs.declared.alarms.Alarm.{Alarm as AnAlarm};
ghost use Rattle.post_recheck.specs.table_covers.Solutions.{at};
ghost use Rattle.post_recheck.specs.program_equations.Programs.{body_at};
ghost use Rattle.post_recheck.specs.program_equations.Solutions.{tables_of};
ghost use Rattle.post_recheck.specs.body_systems.Systems.{body_of};
ghost use Rattle.post_recheck.specs.program_systems.Analysable.{IsAnalysable};
ghost use Rattle.post_recheck.specs.program_systems.ProgramFacts.{AreProgramFacts, program_with};
ghost use Rattle.post_recheck.specs.Pairs.{FitsPair, lists_of, pair_of};
ghost use Rattle.access_races.specs.declared.accesses.Access.{Access as AnAccess};
ghost use Rattle.program_reports.specs.reading.Found.{IsAlarmBelow, IsAccessBelow};
ghost use Rattle.program_reports.specs.reading.Parts.{ArePartsOf, FitsTable};
ghost use Rattle.program_reports.specs.reading.Bodies.{IsAlarmOf, IsAccessOf};

use crate::copies::{BodyParts, Found, add_copy};
use interfere_set::Store;
use mutex_configs::Program;
use post_recheck::{BodyOverStore, BodyState, ProgramFacts, Table, body_over_store};
use std::alloc::Global;
use tm_lattice::NoMemory;

// Adds what the copies of a body give that leave nodes with a state.
fn add_copies(
    alloc: Global,
    parts: BodyParts<'_>,
    table: &[Option<BodyState>],
    found: &mut Found,
) -> Result<(), NoMemory>
    requires parts { ArePartsOf (body_of parts.body.now) parts }
    requires table { FitsTable (body_of parts.body.now) table.now }
    ensures alarms { OnOk result ((a : AnAlarm) → Contains found.new.alarms.items a
        ↔ (Contains found.old.alarms.items a
        ⊎ IsAlarmBelow (body_of parts.entry.body.now) (at table.now) (length parts.entry.copies.now) a)) }
    ensures accesses { OnOk result ((x : AnAccess) → Contains found.new.accesses.items x
        ↔ (Contains found.old.accesses.items x ⊎ ((parts.entry.is_task ≡ true)
        × IsAccessBelow (body_of parts.entry.body.now) (at table.now) (length parts.entry.copies.now) x))) }
{
    for copy in 0..parts.copies.len() {
        match &table[parts.copies[copy].from as usize] {
            Some(state) => add_copy(alloc, parts, copy, state.state(), found)?,
            None => {}
        }
    }
    Ok(())
}

/// What is read of the body with this number, where these are its equations over a store.
pub fn body_parts<'a>(
    program: &'a Program,
    facts: &'a ProgramFacts,
    body: &'a BodyOverStore<'a>,
    number: u32,
) -> BodyParts<'a>
    requires analysable { IsAnalysable program.now }
    requires facts { AreProgramFacts program.now facts.now }
    requires number { number < length (program_with program.now facts.now).bodies }
    requires body { body_of body.now ≡ body_at (program_with program.now facts.now) number }
    ensures body { result.body.now ≡ body.now }
    ensures parts { ArePartsOf (body_of result.body.now) result }
    ensures is_task { result.is_task ≡ nat_lt number (program_with program.now facts.now).tasks }
{
    let configured = &program.configured[number as usize];
    BodyParts {
        body,
        edges: &program.graphs.graphs[number as usize].edges,
        nodes: configured.nodes.as_slice(),
        copies: &configured.copies,
        number,
        priority: facts.priorities()[number as usize],
        is_task: (number as usize) < program.laid.file.tasks.len(),
    }
}

// Adds what the body with this number gives.
pub(crate) fn add_body<'a>(
    alloc: Global,
    program: &'a Program,
    facts: &'a ProgramFacts,
    tables: &[Table],
    store: &'a Store,
    number: u32,
    found: &mut Found,
) -> Result<(), NoMemory>
    requires analysable { IsAnalysable program.now }
    requires facts { AreProgramFacts program.now facts.now }
    requires fits { FitsPair (program_with program.now facts.now) (pair_of tables.now store.now) }
    requires number { number < length (program_with program.now facts.now).bodies }
    ensures alarms { OnOk result ((a : AnAlarm) → Contains found.new.alarms.items a
        ↔ (Contains found.old.alarms.items a
        ⊎ IsAlarmOf (program_with program.now facts.now) (tables_of (lists_of tables.now)) number a)) }
    ensures accesses { OnOk result ((x : AnAccess) → Contains found.new.accesses.items x
        ↔ (Contains found.old.accesses.items x
        ⊎ IsAccessOf (program_with program.now facts.now) (tables_of (lists_of tables.now)) number x)) }
{
    let body = body_over_store(program, facts, number, None, store);
    let parts = body_parts(program, facts, &body, number);
    add_copies(alloc, parts, &tables[number as usize], found)
}
