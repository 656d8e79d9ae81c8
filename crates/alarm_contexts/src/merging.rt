//! Contexts of one alarm as one.
ghost use Rattle.std.specs.Prelude.{◌≡◌, ◌↔◌, ◌++◌, length, Contains, IfOk, OnOk, IsTrue};
ghost use Rattle.program_reports.specs.post_recheck.program_equations.Solutions.{tables_of};
ghost use Rattle.program_reports.specs.post_recheck.program_systems.Analysable.{IsAnalysable};
ghost use Rattle.program_reports.specs.post_recheck.program_systems.ProgramFacts.{AreProgramFacts, program_with};
ghost use Rattle.program_reports.specs.post_recheck.Pairs.{FitsPair, lists_of, pair_of};
ghost use Rattle.alarm_contexts.specs.declared.exits.Context.{Context as AContext};
ghost use Rattle.alarm_contexts.specs.Contexts.{alarm_of};
ghost use Rattle.alarm_contexts.specs.reading.Found.{IsContextUpTo};
ghost use Rattle.alarm_contexts.specs.reading.Operands.{operands_of, IsFlawed};
ghost use Rattle.alarm_contexts.specs.reading.Merging.{edge_of, IsSorting, IsLast, IsEdgeAdded, IsAlone, IsJoined};
ghost use Rattle.alarm_contexts.specs.reading.Merging.{IsAdded, AreMerged, AreOrdered};

use crate::alarm_context::{AlarmContexts, ContextEdge};
use crate::exits::{Context, Exit};
use crate::flaws::ObjectFlaw;
use crate::operands::{Used, joined_operands, used_of};
use interfere_set::Store;
use mutex_configs::Program;
use program_reports::{ProgramFacts, Table};
use std::alloc::Global;
use tm_lattice::NoMemory;
use tm_terms::Alarm;

// The edge of a copy.
fn edge_of(exit: Exit) -> ContextEdge
    ensures { result ≡ edge_of exit }
{
    ContextEdge {
        body: exit.body,
        edge: exit.edge,
    }
}

// Whether the edge is the last one.
fn is_last(edges: &[ContextEdge], edge: ContextEdge) -> bool
    ensures { IsTrue result ↔ IsLast edges.now edge }
{
    edges.last().copied() == Some(edge)
}

// Puts an edge behind the others, if it is not the last one.
fn add_edge(edges: &mut Vec<ContextEdge>, edge: ContextEdge) -> Result<(), NoMemory>
    ensures { OnOk result (IsEdgeAdded edges.old.items edge edges.new.items) }
{
    if is_last(edges, edge) {
        return Ok(());
    }
    edges.push(edge)?;
    Ok(())
}

// The same flaws in order, each once.
fn ordered(mut flaws: Vec<ObjectFlaw>) -> Result<Vec<ObjectFlaw>, NoMemory>
    ensures { IfOk result (λ list. AreOrdered flaws.items list.items) }
{
    flaws.sort()?;
    flaws.dedup();
    Ok(flaws)
}

// The flaws of both.
fn joined_flaws(mut one: Vec<ObjectFlaw>, other: &[ObjectFlaw]) -> Result<Vec<ObjectFlaw>, NoMemory>
    ensures { IfOk result (λ list. AreOrdered (one.items ++ other.now) list.items) }
{
    one.extend_from_slice(other)?;
    ordered(one)
}

// A context by itself.
fn alone(alloc: Global, context: Context, used: Used) -> Result<AlarmContexts, NoMemory>
    ensures { IfOk result (λ a. IsAlone context used.operands.items used.flaws.items a) }
{
    let mut edges = Vec::new(alloc);
    edges.push(edge_of(context.exit))?;
    Ok(AlarmContexts {
        place: context.alarm.place,
        class: context.alarm.class,
        edges,
        operands: used.operands,
        flaws: ordered(used.flaws)?,
        always: context.exit.ends,
    })
}

// One more context of the same alarm.
fn joined(
    alloc: Global,
    last: AlarmContexts,
    context: Context,
    used: &Used,
) -> Result<AlarmContexts, NoMemory>
    ensures { IfOk result
        (λ a. IsJoined last context used.now.operands.items used.now.flaws.items a) }
{
    let mut edges = last.edges;
    add_edge(&mut edges, edge_of(context.exit))?;
    Ok(AlarmContexts {
        place: last.place,
        class: last.class,
        edges,
        operands: joined_operands(alloc, &last.operands, &used.operands)?,
        flaws: joined_flaws(last.flaws, &used.flaws)?,
        always: last.always && context.exit.ends,
    })
}

// Whether the alarm is this one.
fn is_of(contexts: &AlarmContexts, alarm: Alarm) -> bool
    ensures { IsTrue result ↔ (alarm_of contexts.now ≡ alarm) }
{
    contexts.place == alarm.place && contexts.class == alarm.class
}

// Joins it with the last one, where they are of one alarm; else puts it behind.
fn add(
    alloc: Global,
    merged: &mut Vec<AlarmContexts>,
    context: Context,
    used: Used,
) -> Result<(), NoMemory>
    ensures { OnOk result (IsAdded merged.old.items context used.operands.items used.flaws.items merged.new.items) }
{
    let Some(last) = merged.pop() else {
        merged.push(alone(alloc, context, used)?)?;
        return Ok(());
    };
    if is_of(&last, context.alarm) {
        merged.push(joined(alloc, last, context, &used)?)?;
        return Ok(());
    }
    merged.push(last)?;
    merged.push(alone(alloc, context, used)?)?;
    Ok(())
}

// The same ones in order.
fn sorted(mut given: Vec<Context>) -> Result<Vec<Context>, NoMemory>
    ensures { IfOk result (λ list. IsSorting given.items list.items) }
{
    given.sort()?;
    Ok(given)
}

/// In order, and those of one alarm as one.
pub(crate) fn merged(
    alloc: Global,
    program: &Program,
    facts: &ProgramFacts,
    tables: &[Table],
    store: &Store,
    contexts: Vec<Context>,
) -> Result<Vec<AlarmContexts>, NoMemory>
    requires analysable { IsAnalysable program.now }
    requires facts { AreProgramFacts program.now facts.now }
    requires fits { FitsPair (program_with program.now facts.now) (pair_of tables.now store.now) }
    requires found { (x : AContext) → Contains contexts.items x → IsContextUpTo (program_with program.now facts.now)
        store.now (tables_of (lists_of tables.now)) (length (program_with program.now facts.now).bodies) x }
    ensures { IfOk result (λ list. AreMerged (operands_of (program_with program.now facts.now)
        (tables_of (lists_of tables.now))) (IsFlawed (program_with program.now facts.now)
        (tables_of (lists_of tables.now))) contexts.items list.items) }
{
    let ranked = sorted(contexts)?;
    let mut merged = Vec::new(alloc);
    for context in ranked.iter() {
        let used = used_of(alloc, program, facts, tables, store, *context)?;
        add(alloc, &mut merged, *context, used)?;
    }
    Ok(merged)
}
