//! Alarms that are not races.
ghost use Rattle.std.specs.Prelude.{◌≡◌, ◌++◌, OnOk};
ghost use Rattle.program_notes.specs.ContextTexts.{tasks_text, context_front, context_middle, context_back};
ghost use Rattle.program_notes.specs.ContextTexts.{context_text};
ghost use Rattle.program_notes.specs.reading.Choices.{task_if};

use crate::edges::{edge_body, is_first};
use crate::operand_objects::push_operands;
use crate::path_objects::push_paths;
use alarm_contexts::{AlarmContexts, ContextEdge};
use flow_graph::Operation;
use note_details::AlarmDetails;
use notes_json::{
    push_alarm_back, push_alarm_end, push_alarm_front, push_alarm_lines, push_alarm_middle,
    push_comma, push_number,
};
use std::alloc::Global;
use tm_lattice::NoMemory;
use tm_terms::text_of;

/// Appends the task of an edge, if it is the first of that task. The first edge of all is one.
fn push_task_if(
    alloc: Global,
    text: &mut Vec<u8>,
    edges: &[ContextEdge],
    at: usize,
) -> Result<(), NoMemory>
    ensures { OnOk result (text.new.items ≡ text.old.items ++ task_if edges.now at) }
{
    if !is_first(edges, at) {
        return Ok(());
    }
    push_comma(text, at)?;
    push_number(alloc, text, b"", edge_body(edges, at) as u64)
}

/// Appends the tasks of edges.
fn push_tasks(alloc: Global, text: &mut Vec<u8>, edges: &[ContextEdge]) -> Result<(), NoMemory>
    ensures { OnOk result (text.new.items ≡ text.old.items ++ tasks_text edges.now) }
{
    for at in 0..edges.len() {
        push_task_if(alloc, text, edges, at)?;
    }
    Ok(())
}

/// Appends what stands of an alarm with this operation up to its operands, and these.
fn push_front(
    alloc: Global,
    text: &mut Vec<u8>,
    bytes: &[u8],
    numbers: &[Option<u32>],
    alarm: &AlarmContexts,
    operation: Operation,
    details: &AlarmDetails,
) -> Result<(), NoMemory>
    ensures { OnOk result (text.new.items ≡ text.old.items
        ++ context_front bytes.now numbers.now alarm.now operation details.now) }
{
    push_alarm_front(
        alloc,
        text,
        alarm.place,
        alarm.class,
        alarm.always,
        operation,
    )?;
    let function = text_of(bytes, details.function);
    push_alarm_lines(alloc, text, alarm.place, function, operation)?;
    push_operands(
        alloc,
        text,
        numbers,
        &alarm.flaws,
        operation,
        &details.operands,
        &alarm.operands,
    )
}

/// Appends its operator and its call paths.
fn push_middle(
    alloc: Global,
    text: &mut Vec<u8>,
    operation: Operation,
    details: &AlarmDetails,
) -> Result<(), NoMemory>
    ensures { OnOk result (text.new.items ≡ text.old.items ++ context_middle operation details.now) }
{
    push_alarm_middle(alloc, text, operation, details.path_count)?;
    push_paths(alloc, text, &details.paths)
}

/// Appends what stands behind these.
fn push_back(
    alloc: Global,
    text: &mut Vec<u8>,
    alarm: &AlarmContexts,
    operation: Operation,
) -> Result<(), NoMemory>
    ensures { OnOk result (text.new.items ≡ text.old.items ++ context_back alarm.now operation) }
{
    push_alarm_back(text, operation)?;
    push_tasks(alloc, text, &alarm.edges)?;
    push_alarm_end(text, operation)
}

/// Appends an alarm with this operation and these details.
pub(crate) fn push_context(
    alloc: Global,
    text: &mut Vec<u8>,
    bytes: &[u8],
    numbers: &[Option<u32>],
    alarm: &AlarmContexts,
    operation: Operation,
    details: &AlarmDetails,
) -> Result<(), NoMemory>
    ensures { OnOk result (text.new.items ≡ text.old.items
        ++ context_text bytes.now numbers.now alarm.now operation details.now) }
{
    push_front(alloc, text, bytes, numbers, alarm, operation, details)?;
    push_middle(alloc, text, operation, details)?;
    push_back(alloc, text, alarm, operation)
}
