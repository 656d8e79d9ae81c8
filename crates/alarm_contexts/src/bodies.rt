//! The contexts of bodies.
ghost use Rattle.std.specs.Prelude.{◌<◌, ◌⊎◌, ◌↔◌, length, Contains, IfOk, OnOk};
ghost use Rattle.program_reports.specs.post_recheck.table_covers.Solutions.{at};
ghost use Rattle.program_reports.specs.post_recheck.program_equations.Solutions.{tables_of};
ghost use Rattle.program_reports.specs.post_recheck.body_systems.Systems.{body_of};
ghost use Rattle.program_reports.specs.post_recheck.program_systems.Analysable.{IsAnalysable};
ghost use Rattle.program_reports.specs.post_recheck.program_systems.ProgramFacts.{AreProgramFacts, program_with};
ghost use Rattle.program_reports.specs.post_recheck.Pairs.{FitsPair, lists_of, pair_of};
ghost use Rattle.program_reports.specs.reading.Parts.{ArePartsOf, FitsTable};
ghost use Rattle.alarm_contexts.specs.declared.exits.Context.{Context as AContext};
ghost use Rattle.alarm_contexts.specs.reading.Found.{IsContextBelow, IsContextIn, IsContextUpTo};

use crate::copies::add_copy;
use crate::exits::Context;
use interfere_set::Store;
use mutex_configs::Program;
use program_reports::{BodyParts, BodyState, ProgramFacts, Table, body_over_store, body_parts};
use std::alloc::Global;
use tm_lattice::NoMemory;

// Adds the contexts of the copies that leave nodes with a state.
fn add_copies(
    alloc: Global,
    parts: BodyParts<'_>,
    table: &[Option<BodyState>],
    contexts: &mut Vec<Context>,
) -> Result<(), NoMemory>
    requires parts { ArePartsOf (body_of parts.body.now) parts }
    requires table { FitsTable (body_of parts.body.now) table.now }
    ensures { OnOk result ((x : AContext) → Contains contexts.new.items x
        ↔ (Contains contexts.old.items x ⊎ IsContextBelow (body_of parts.entry.body.now) parts.entry.body.now.store
        (at table.now) (length parts.entry.copies.now) x)) }
{
    for copy in 0..parts.copies.len() {
        match &table[parts.copies[copy].from as usize] {
            Some(state) => add_copy(alloc, parts, copy, state.state(), contexts)?,
            None => {}
        }
    }
    Ok(())
}

// Adds the contexts of the body with this number.
fn add_body<'a>(
    alloc: Global,
    program: &'a Program,
    facts: &'a ProgramFacts,
    tables: &[Table],
    store: &'a Store,
    number: u32,
    contexts: &mut Vec<Context>,
) -> Result<(), NoMemory>
    requires analysable { IsAnalysable program.now }
    requires facts { AreProgramFacts program.now facts.now }
    requires fits { FitsPair (program_with program.now facts.now) (pair_of tables.now store.now) }
    requires number { number < length (program_with program.now facts.now).bodies }
    ensures { OnOk result ((x : AContext) → Contains contexts.new.items x
        ↔ (Contains contexts.old.items x ⊎ IsContextIn (program_with program.now facts.now) store.now
        (tables_of (lists_of tables.now)) number x)) }
{
    let body = body_over_store(program, facts, number, None, store);
    let parts = body_parts(program, facts, &body, number);
    add_copies(alloc, parts, &tables[number as usize], contexts)
}

/// The contexts of all bodies.
pub(crate) fn contexts_in(
    alloc: Global,
    program: &Program,
    facts: &ProgramFacts,
    tables: &[Table],
    store: &Store,
) -> Result<Vec<Context>, NoMemory>
    requires analysable { IsAnalysable program.now }
    requires facts { AreProgramFacts program.now facts.now }
    requires fits { FitsPair (program_with program.now facts.now) (pair_of tables.now store.now) }
    ensures { IfOk result (λ contexts. (x : AContext) → Contains contexts.items x
        ↔ IsContextUpTo (program_with program.now facts.now) store.now (tables_of (lists_of tables.now))
        (length (program_with program.now facts.now).bodies) x) }
{
    let mut contexts = Vec::new(alloc);
    for number in 0..tables.len() {
        add_body(
            alloc,
            program,
            facts,
            tables,
            store,
            number as u32,
            &mut contexts,
        )?;
    }
    Ok(contexts)
}
