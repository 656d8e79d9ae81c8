//! What the tables of a program tell of the accesses of groups.
ghost use Rattle.std.specs.Prelude.{IfOk};
ghost use Rattle.post_recheck.specs.program_equations.Solutions.{tables_of};
ghost use Rattle.post_recheck.specs.program_systems.Analysable.{IsAnalysable};
ghost use Rattle.post_recheck.specs.program_systems.ProgramFacts.{AreProgramFacts, program_with};
ghost use Rattle.post_recheck.specs.Pairs.{FitsPair, lists_of, pair_of};
ghost use Rattle.access_groups.specs.Groups.{AreGroups};
ghost use Rattle.access_partners.specs.Partners.{AreAllDetails};

use crate::details::AccessDetails;
use crate::groups::all_details;
use crate::objects::sites_by_object;
use access_groups::{AccessGroup, sites_in, ways_by_cell};
use interfere_set::Store;
use mutex_configs::Program;
use post_recheck::{ProgramFacts, Table};
use std::alloc::Global;
use tm_lattice::NoMemory;

/// For each group of the tables of a program's bodies, what is told of each of its accesses: what it reaches, where it
/// races, and with which accesses of the group. The only error is want of memory.
pub fn access_details(
    alloc: Global,
    program: &Program,
    facts: &ProgramFacts,
    tables: &[Table],
    store: &Store,
    groups: &[AccessGroup],
) -> Result<Vec<Vec<AccessDetails>>, NoMemory>
    requires analysable { IsAnalysable program.now }
    requires facts { AreProgramFacts program.now facts.now }
    requires fits { FitsPair (program_with program.now facts.now) (pair_of tables.now store.now) }
    requires groups { AreGroups (program_with program.now facts.now) (tables_of (lists_of tables.now)) groups.now }
    ensures { IfOk result (λ details. AreAllDetails (program_with program.now facts.now)
        (tables_of (lists_of tables.now)) groups.now details.items) }
{
    let sites = sites_in(alloc, program, facts, tables, store)?;
    let ways = ways_by_cell(alloc, &sites)?;
    let by_object = sites_by_object(alloc, &program.laid, &sites)?;
    all_details(alloc, &ways, &by_object, groups)
}
