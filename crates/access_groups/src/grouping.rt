//! The groups of a program's tables.
ghost use Rattle.std.specs.Prelude.{◌≤◌, ◌^◌, length, IfOk, OnOk};
ghost use Rattle.program_reports.specs.post_recheck.program_equations.Solutions.{tables_of};
ghost use Rattle.program_reports.specs.post_recheck.program_systems.Analysable.{IsAnalysable};
ghost use Rattle.program_reports.specs.post_recheck.program_systems.ProgramFacts.{AreProgramFacts, program_with};
ghost use Rattle.program_reports.specs.post_recheck.Pairs.{FitsPair, lists_of, pair_of};
ghost use Rattle.access_groups.specs.Groups.{AreGroups};
ghost use Rattle.access_groups.specs.reading.Grouping.{IsGrouped, AreGroupsOf};

use crate::merging::{has_racing, merged};
use crate::noting::noted_by_object;
use crate::object_access::{AccessGroup, ObjectAccess};
use crate::tasks::sites_in;
use crate::ways::ways_by_cell;
use interfere_set::Store;
use mutex_configs::Program;
use program_reports::{ProgramFacts, Table};
use std::alloc::Global;
use tm_lattice::NoMemory;

// Adds the group of an object, if one of its accesses races.
fn add_group(
    alloc: Global,
    object: u32,
    noted: &[ObjectAccess],
    groups: &mut Vec<AccessGroup>,
) -> Result<(), NoMemory>
    ensures { OnOk result (IsGrouped object noted.now groups.old.items groups.new.items) }
{
    let accesses = merged(alloc, noted)?;
    if has_racing(&accesses) {
        groups.push(AccessGroup { object, accesses })?;
    }
    Ok(())
}

// The groups of the objects of which this is noted.
fn groups_of(alloc: Global, lists: &[Vec<ObjectAccess>]) -> Result<Vec<AccessGroup>, NoMemory>
    requires { length lists.now ≤ 2 ^ 32 }
    ensures { IfOk result (λ groups. AreGroupsOf lists.now (length lists.now) groups.items) }
{
    let mut groups = Vec::new(alloc);
    for object in 0..lists.len() {
        add_group(alloc, object as u32, &lists[object], &mut groups)?;
    }
    Ok(groups)
}

/// The groups of the tables of a program's bodies: each object with a race on one of its cells, by rising numbers, and
/// the accesses of all tasks to it.
pub fn groups(
    alloc: Global,
    program: &Program,
    facts: &ProgramFacts,
    tables: &[Table],
    store: &Store,
) -> Result<Vec<AccessGroup>, NoMemory>
    requires analysable { IsAnalysable program.now }
    requires facts { AreProgramFacts program.now facts.now }
    requires fits { FitsPair (program_with program.now facts.now) (pair_of tables.now store.now) }
    ensures { IfOk result (λ groups. AreGroups (program_with program.now facts.now)
        (tables_of (lists_of tables.now)) groups.items) }
{
    let sites = sites_in(alloc, program, facts, tables, store)?;
    let ways = ways_by_cell(alloc, &sites)?;
    let lists = noted_by_object(alloc, &program.laid, &ways, &sites)?;
    groups_of(alloc, &lists)
}
