//! The operands of contexts, and what is wrong with the pointers among them.
ghost use Rattle.std.specs.Prelude.{◌≡◌, ◌↔◌, ◌<◌, ◌≤◌, ◌++◌, map, max, length, option_to_list, unwrap_or, Contains};
ghost use Rattle.std.specs.Prelude.{IfOk, OnOk};
ghost use Rattle.std.specs.Option.{option_copied};
ghost use Rattle.tm_laid.specs.tm_typed.TypedFiles.{typed_file_tree};
ghost use Rattle.tm_laid.specs.Layable.{IsLayable};
ghost use Rattle.tm_laid.specs.Layouts.{laid_tree};
ghost use Rattle.graph_facts.specs.Uses.{listed};
ghost use Rattle.interfere_set.specs.pointer_dom.Values.{joined_values, no_value};
ghost use Rattle.program_reports.specs.post_recheck.transfer_rows.StateForms.{value_of};
ghost use Rattle.program_reports.specs.post_recheck.table_covers.Solutions.{at};
ghost use Rattle.program_reports.specs.post_recheck.program_equations.Programs.{body_at};
ghost use Rattle.program_reports.specs.post_recheck.program_equations.Solutions.{tables_of};
ghost use Rattle.program_reports.specs.post_recheck.body_systems.Systems.{body_of};
ghost use Rattle.program_reports.specs.post_recheck.program_systems.Analysable.{IsAnalysable};
ghost use Rattle.program_reports.specs.post_recheck.program_systems.ProgramFacts.{AreProgramFacts, program_with};
ghost use Rattle.program_reports.specs.post_recheck.Pairs.{FitsPair, lists_of, pair_of};
ghost use Rattle.program_reports.specs.reading.Found.{operation_at};
ghost use Rattle.program_reports.specs.reading.Parts.{ArePartsOf, FitsTable};
ghost use Rattle.alarm_contexts.specs.declared.flaws.ObjectFlaw.{ObjectFlaw as AFlaw};
ghost use Rattle.alarm_contexts.specs.Flaws.{HasFlaw};
ghost use Rattle.alarm_contexts.specs.reading.Operands.{operands_at, operands_of, IsFlawed, AreJoined};

use crate::exits::Context;
use crate::flaws::ObjectFlaw;
use crate::pointers::flaws_of;
use calculations::value_of;
use cell_env::State;
use graph_facts::{UsedTemporaries, used};
use interfere_set::Store;
use mutex_configs::Program;
use pointer_dom::AbsValue;
use program_reports::{
    BodyParts, BodyState, ProgramFacts, Table, body_over_store, body_parts, operation_of,
};
use std::alloc::Global;
use strided_dom::Strided;
use tm_laid::Laid;
use tm_lattice::{Lattice, NoMemory};

// Adds the value of a temporary.
fn add_value(
    alloc: Global,
    state: &State<AbsValue>,
    temp: Option<u32>,
    values: &mut Vec<AbsValue>,
) -> Result<(), NoMemory>
    ensures { OnOk result (values.new.items ≡ values.old.items ++ map (value_of state.now) (option_to_list temp)) }
{
    if let Some(temp) = temp {
        values.push(value_of(alloc, state, temp)?)?;
    }
    Ok(())
}

// The values of these temporaries.
fn values_of(
    alloc: Global,
    state: &State<AbsValue>,
    temps: UsedTemporaries,
) -> Result<Vec<AbsValue>, NoMemory>
    ensures { IfOk result (λ values. values.items ≡ map (value_of state.now) (listed temps)) }
{
    let mut values = Vec::new(alloc);
    add_value(alloc, state, temps.first, &mut values)?;
    add_value(alloc, state, temps.second, &mut values)?;
    Ok(values)
}

// Those that the operation of a copy uses, at the node that it leaves.
fn operands_at(
    alloc: Global,
    parts: BodyParts<'_>,
    table: &[Option<BodyState>],
    copy: usize,
) -> Result<Vec<AbsValue>, NoMemory>
    requires parts { ArePartsOf (body_of parts.body.now) parts }
    requires table { FitsTable (body_of parts.body.now) table.now }
    requires copy { copy < length parts.copies.now }
    ensures { IfOk result (λ values. values.items
        ≡ operands_at (body_of parts.entry.body.now) (at table.now) copy) }
{
    let temps = used(operation_of(parts, copy));
    match &table[parts.copies[copy].from as usize] {
        Some(state) => values_of(alloc, state.state(), temps),
        None => Ok(Vec::new(alloc)),
    }
}

/// The operands of an operation, and what is wrong with the pointers among them.
#[derive(Drop)]
pub(crate) struct Used {
    pub(crate) operands: Vec<AbsValue>,
    pub(crate) flaws: Vec<ObjectFlaw>,
}

// What the operation of a copy uses, at the node that it leaves.
fn used_at(
    alloc: Global,
    laid: &Laid,
    parts: BodyParts<'_>,
    table: &[Option<BodyState>],
    copy: usize,
) -> Result<Used, NoMemory>
    requires layable { IsLayable (typed_file_tree laid.now.file) laid.now.file.order.items }
    requires few { length laid.now.cells.items ≤ 65536 }
    requires parts { ArePartsOf (body_of parts.body.now) parts }
    requires table { FitsTable (body_of parts.body.now) table.now }
    requires copy { copy < length parts.copies.now }
    ensures operands { IfOk result (λ used. used.operands.items
        ≡ operands_at (body_of parts.entry.body.now) (at table.now) copy) }
    ensures flaws { IfOk result (λ used. (f : AFlaw) → Contains used.flaws.items f
        ↔ HasFlaw (laid_tree laid.now) (operation_at (body_of parts.entry.body.now) copy)
        (operands_at (body_of parts.entry.body.now) (at table.now) copy) f) }
{
    let operands = operands_at(alloc, parts, table, copy)?;
    let flaws = flaws_of(alloc, laid, operation_of(parts, copy), &operands)?;
    Ok(Used { operands, flaws })
}

/// What the operation of a context uses.
pub(crate) fn used_of<'a>(
    alloc: Global,
    program: &'a Program,
    facts: &'a ProgramFacts,
    tables: &[Table],
    store: &'a Store,
    context: Context,
) -> Result<Used, NoMemory>
    requires analysable { IsAnalysable program.now }
    requires facts { AreProgramFacts program.now facts.now }
    requires fits { FitsPair (program_with program.now facts.now) (pair_of tables.now store.now) }
    requires number { context.exit.body < length (program_with program.now facts.now).bodies }
    requires copy { context.exit.copy
        < length (body_at (program_with program.now facts.now) context.exit.body).copies }
    ensures operands { IfOk result (λ used. used.operands.items ≡ operands_of (program_with program.now facts.now)
        (tables_of (lists_of tables.now)) context) }
    ensures flaws { IfOk result (λ used. (f : AFlaw) → Contains used.flaws.items f
        ↔ IsFlawed (program_with program.now facts.now) (tables_of (lists_of tables.now)) context f) }
{
    let number = context.exit.body;
    let body = body_over_store(program, facts, number, None, store);
    let parts = body_parts(program, facts, &body, number);
    used_at(
        alloc,
        &program.laid,
        parts,
        &tables[number as usize],
        context.exit.copy,
    )
}

// The operands with one number joined, of which each may be none.
fn joined_operand(
    alloc: Global,
    one: Option<&AbsValue>,
    other: Option<&AbsValue>,
) -> Result<AbsValue, NoMemory>
    ensures { IfOk result (λ both. both
        ≡ joined_values (unwrap_or (option_copied one.entry) no_value)
        (unwrap_or (option_copied other.entry) no_value)) }
{
    let nothing = AbsValue::from_numbers(Strided::empty());
    one.unwrap_or(&nothing)
        .join(alloc, other.unwrap_or(&nothing))
}

/// The operands of two contexts joined, by their numbers.
pub(crate) fn joined_operands(
    alloc: Global,
    one: &[AbsValue],
    other: &[AbsValue],
) -> Result<Vec<AbsValue>, NoMemory>
    ensures { IfOk result (λ both. AreJoined one.now other.now (max (length one.now) (length other.now)) both.items) }
{
    let mut both = Vec::new(alloc);
    for role in 0..one.len().max(other.len()) {
        both.push(joined_operand(alloc, one.get(role), other.get(role))?)?;
    }
    Ok(both)
}
