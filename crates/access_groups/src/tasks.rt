//! The accesses of tasks.
ghost use Rattle.std.specs.Prelude.{◌<◌, ◌⊎◌, ◌↔◌, length, Contains, IfOk, OnOk};
ghost use Rattle.program_reports.specs.post_recheck.table_covers.Solutions.{at};
ghost use Rattle.program_reports.specs.post_recheck.program_equations.Solutions.{tables_of};
ghost use Rattle.program_reports.specs.post_recheck.body_systems.Systems.{body_of};
ghost use Rattle.program_reports.specs.post_recheck.program_systems.Analysable.{IsAnalysable};
ghost use Rattle.program_reports.specs.post_recheck.program_systems.ProgramFacts.{AreProgramFacts, program_with};
ghost use Rattle.program_reports.specs.post_recheck.Pairs.{FitsPair, lists_of, pair_of};
ghost use Rattle.program_reports.specs.reading.Parts.{ArePartsOf, FitsTable};
ghost use Rattle.access_groups.specs.declared.site.Site.{Site as ASite};
ghost use Rattle.access_groups.specs.reading.Sites.{IsSiteBelow, IsSiteOf, IsSiteUpTo};

use crate::copies::add_copy;
use crate::site::Site;
use interfere_set::Store;
use mutex_configs::Program;
use program_reports::{BodyParts, BodyState, ProgramFacts, Table, body_over_store, body_parts};
use std::alloc::Global;
use tm_lattice::NoMemory;

// Adds the accesses of the copies of a task that leave nodes with a state.
fn add_copies(
    alloc: Global,
    parts: BodyParts<'_>,
    table: &[Option<BodyState>],
    sites: &mut Vec<Site>,
) -> Result<(), NoMemory>
    requires parts { ArePartsOf (body_of parts.body.now) parts }
    requires table { FitsTable (body_of parts.body.now) table.now }
    ensures { OnOk result ((x : ASite) → Contains sites.new.items x
        ↔ (Contains sites.old.items x
        ⊎ IsSiteBelow (body_of parts.entry.body.now) (at table.now) (length parts.entry.copies.now) x)) }
{
    for copy in 0..parts.copies.len() {
        match &table[parts.copies[copy].from as usize] {
            Some(state) => add_copy(alloc, parts, copy, state.state(), sites)?,
            None => {}
        }
    }
    Ok(())
}

// Adds the accesses of the task with this number.
fn add_task<'a>(
    alloc: Global,
    program: &'a Program,
    facts: &'a ProgramFacts,
    tables: &[Table],
    store: &'a Store,
    number: u32,
    sites: &mut Vec<Site>,
) -> Result<(), NoMemory>
    requires analysable { IsAnalysable program.now }
    requires facts { AreProgramFacts program.now facts.now }
    requires fits { FitsPair (program_with program.now facts.now) (pair_of tables.now store.now) }
    requires number { number < length program.now.laid.file.tasks.items }
    ensures { OnOk result ((x : ASite) → Contains sites.new.items x
        ↔ (Contains sites.old.items x
        ⊎ IsSiteOf (program_with program.now facts.now) (tables_of (lists_of tables.now)) number x)) }
{
    let body = body_over_store(program, facts, number, None, store);
    let parts = body_parts(program, facts, &body, number);
    add_copies(alloc, parts, &tables[number as usize], sites)
}

/// The accesses of all tasks to cells, each with the edge that makes it. The only error is want of memory.
pub fn sites_in(
    alloc: Global,
    program: &Program,
    facts: &ProgramFacts,
    tables: &[Table],
    store: &Store,
) -> Result<Vec<Site>, NoMemory>
    requires analysable { IsAnalysable program.now }
    requires facts { AreProgramFacts program.now facts.now }
    requires fits { FitsPair (program_with program.now facts.now) (pair_of tables.now store.now) }
    ensures { IfOk result (λ sites. (x : ASite) → Contains sites.items x
        ↔ IsSiteUpTo (program_with program.now facts.now) (tables_of (lists_of tables.now))
        (length program.now.laid.file.tasks.items) x) }
{
    let mut sites = Vec::new(alloc);
    for number in 0..program.laid.file.tasks.len() {
        add_task(
            alloc,
            program,
            facts,
            tables,
            store,
            number as u32,
            &mut sites,
        )?;
    }
    Ok(sites)
}
