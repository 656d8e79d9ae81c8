//! The lines of alarms.
ghost use Rattle.std.specs.Prelude.{◌≡◌, ◌++◌, IfOk, OnOk, length, string_bytes};
ghost use Rattle.note_lines.specs.AlarmTexts.{runner_text, priority_text, body_text, task_at};
ghost use Rattle.note_lines.specs.AlarmTexts.{tasks_below, edges_text, head_front, head_back, alarm_head};
ghost use Rattle.note_lines.specs.AlarmTexts.{operand_at, operands_below, alarm_text, count_line};

use crate::names::Names;
use crate::operand_lines::{push_flaws, push_operand, word_if};
use crate::operation_words::push_operation;
use alarm_contexts::{AlarmContexts, ContextEdge};
use flow_graph::Operation;
use notes_json::role_at;
use program_notes::{edge_body, is_first};
use std::alloc::Global;
use tm_lattice::NoMemory;
use tm_terms::{Name, class_word, place_head, push_bytes, text_of};

/// The function of the body with this number.
pub(crate) fn runner_text<'a>(bytes: &'a [u8], tasks: &[Name], number: u32) -> &'a [u8]
    ensures { result.now ≡ runner_text bytes.now tasks.now number }
{
    match tasks.get(number as usize) {
        None => b"main",
        Some(name) => text_of(bytes, *name),
    }
}

/// The priority of the body with this number.
fn priority_text(alloc: Global, priorities: &[u8], number: u32) -> Result<String, NoMemory>
    ensures { IfOk result (λ text. string_bytes text ≡ priority_text priorities.now number) }
{
    let written = match priorities.get(number as usize) {
        None => format!(in alloc; " initial"),
        Some(priority) => format!(in alloc; " {priority}"),
    };
    match written {
        Ok(text) => Ok(text),
        Err(_) => Err(NoMemory),
    }
}

/// Appends the task with this number, or the initial section.
fn push_body(
    alloc: Global,
    text: &mut Vec<u8>,
    bytes: &[u8],
    names: &Names,
    number: u32,
) -> Result<(), NoMemory>
    ensures { OnOk result (text.new.items ≡ text.old.items
        ++ body_text bytes.now names.now.tasks.items names.now.priorities.items number) }
{
    let priority = priority_text(alloc, &names.priorities, number)?;
    push_bytes(text, b" ")?;
    push_bytes(text, runner_text(bytes, &names.tasks, number))?;
    push_bytes(text, priority.as_bytes())?;
    Ok(())
}

/// Appends the task of an edge, where it is the first of that.
fn push_task(
    alloc: Global,
    text: &mut Vec<u8>,
    bytes: &[u8],
    names: &Names,
    edges: &[ContextEdge],
    at: usize,
) -> Result<(), NoMemory>
    ensures { OnOk result (text.new.items ≡ text.old.items
        ++ task_at bytes.now names.now.tasks.items names.now.priorities.items edges.now at) }
{
    if !is_first(edges, at) {
        return Ok(());
    }
    push_body(alloc, text, bytes, names, edge_body(edges, at))
}

/// Appends the tasks of edges.
fn push_tasks(
    alloc: Global,
    text: &mut Vec<u8>,
    bytes: &[u8],
    names: &Names,
    edges: &[ContextEdge],
) -> Result<(), NoMemory>
    ensures { OnOk result (text.new.items ≡ text.old.items
        ++ tasks_below bytes.now names.now.tasks.items names.now.priorities.items edges.now (length edges.now)) }
{
    for at in 0..edges.len() {
        push_task(alloc, text, bytes, names, edges, at)?;
    }
    Ok(())
}

/// How many edges there are.
fn edges_text(alloc: Global, count: usize) -> Result<String, NoMemory>
    ensures { IfOk result (λ text. string_bytes text ≡ edges_text count) }
{
    match format!(in alloc; " edges {count}") {
        Ok(text) => Ok(text),
        Err(_) => Err(NoMemory),
    }
}

/// Appends what stands in the first line of an alarm up to its operation.
fn push_front(
    alloc: Global,
    text: &mut Vec<u8>,
    bytes: &[u8],
    names: &Names,
    alarm: &AlarmContexts,
    operation: Operation,
) -> Result<(), NoMemory>
    ensures { OnOk result (text.new.items ≡ text.old.items
        ++ head_front bytes.now names.now.mutexes.items alarm.now operation) }
{
    let head = place_head(alloc, alarm.place)?;
    push_bytes(text, head.as_bytes())?;
    push_bytes(text, class_word(alarm.class).as_bytes())?;
    push_operation(alloc, text, bytes, &names.mutexes, operation)?;
    Ok(())
}

/// Appends what stands behind it.
fn push_back(
    alloc: Global,
    text: &mut Vec<u8>,
    bytes: &[u8],
    names: &Names,
    alarm: &AlarmContexts,
) -> Result<(), NoMemory>
    ensures { OnOk result (text.new.items ≡ text.old.items
        ++ head_back bytes.now names.now.tasks.items names.now.priorities.items alarm.now) }
{
    let count = edges_text(alloc, alarm.edges.len())?;
    push_bytes(text, count.as_bytes())?;
    push_bytes(text, word_if(alarm.always, b" always"))?;
    push_bytes(text, b" tasks")?;
    push_tasks(alloc, text, bytes, names, &alarm.edges)?;
    Ok(())
}

/// Appends the first line of an alarm.
fn push_head(
    alloc: Global,
    text: &mut Vec<u8>,
    bytes: &[u8],
    names: &Names,
    alarm: &AlarmContexts,
    operation: Operation,
) -> Result<(), NoMemory>
    ensures { OnOk result (text.new.items ≡ text.old.items ++ alarm_head bytes.now names.now.tasks.items
        names.now.priorities.items names.now.mutexes.items alarm.now operation) }
{
    push_front(alloc, text, bytes, names, alarm, operation)?;
    push_back(alloc, text, bytes, names, alarm)?;
    push_bytes(text, b"\n")?;
    Ok(())
}

/// Appends the text of the operand at this place among the operands, if there is one.
fn push_operand_at(
    alloc: Global,
    text: &mut Vec<u8>,
    bytes: &[u8],
    names: &Names,
    alarm: &AlarmContexts,
    operation: Operation,
    at: usize,
) -> Result<(), NoMemory>
    ensures { OnOk result (text.new.items ≡ text.old.items
        ++ operand_at bytes.now names.now.objects.items alarm.now operation at) }
{
    match alarm.operands.get(at) {
        None => Ok(()),
        Some(value) => push_operand(
            alloc,
            text,
            bytes,
            names,
            alarm.place,
            role_at(operation, at),
            value,
        ),
    }
}

/// Appends the texts of the operands of an alarm.
fn push_operands(
    alloc: Global,
    text: &mut Vec<u8>,
    bytes: &[u8],
    names: &Names,
    alarm: &AlarmContexts,
    operation: Operation,
) -> Result<(), NoMemory>
    ensures { OnOk result (text.new.items ≡ text.old.items ++ operands_below bytes.now names.now.objects.items
        alarm.now operation (length alarm.now.operands.items)) }
{
    for at in 0..alarm.operands.len() {
        push_operand_at(alloc, text, bytes, names, alarm, operation, at)?;
    }
    Ok(())
}

/// Appends the text of an alarm with this operation.
pub(crate) fn push_alarm(
    alloc: Global,
    text: &mut Vec<u8>,
    bytes: &[u8],
    names: &Names,
    alarm: &AlarmContexts,
    operation: Operation,
) -> Result<(), NoMemory>
    ensures { OnOk result (text.new.items ≡ text.old.items ++ alarm_text bytes.now names.now.objects.items
        names.now.tasks.items names.now.priorities.items names.now.mutexes.items alarm.now operation) }
{
    push_head(alloc, text, bytes, names, alarm, operation)?;
    push_operands(alloc, text, bytes, names, alarm, operation)?;
    push_flaws(alloc, text, bytes, names, &alarm.flaws)?;
    Ok(())
}

/// The line that says how many alarms there are.
pub(crate) fn count_line(alloc: Global, count: usize) -> Result<String, NoMemory>
    ensures { IfOk result (λ text. string_bytes text ≡ count_line count) }
{
    match format!(in alloc; "alarms {count}\n") {
        Ok(text) => Ok(text),
        Err(_) => Err(NoMemory),
    }
}
