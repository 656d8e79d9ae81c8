//! The lines of advice on alarms.
ghost use Rattle.std.specs.Prelude.{◌≡◌, ◌++◌, IfOk, OnOk, string_bytes};
ghost use Rattle.post_recheck.specs.program_systems.Analysable.{IsAnalysable};
ghost use Rattle.post_recheck.specs.program_systems.ProgramFacts.{AreProgramFacts, program_with};
ghost use Rattle.tm_terms.specs.Texts.{line_of};
ghost use Rattle.std.specs.Prelude.{codes, decimal};
ghost use Rattle.std.specs.List.{flat_map};
ghost use Rattle.program_notes.specs.Operations.{operation_of};
ghost use Rattle.note_lines.specs.CauseTexts.{step_word, cause_word, place_or_point, bounds_text, blamed_text};
ghost use Rattle.note_lines.specs.CauseTexts.{of_object, step_front, step_back, step_text, advice_head, advice_text};
ghost use Rattle.note_lines.specs.CauseTexts.{advice_at, causes_text};

use crate::alarm_lines::runner_text;
use crate::names::{Names, ObjectName};
use crate::operand_lines::word_if;
use alarm_causes::{Advice, Cause, Step, StepKind};
use alarm_contexts::AlarmContexts;
use flow_graph::Operation;
use mutex_configs::Program;
use notes_json::role_at;
use post_recheck::ProgramFacts;
use program_notes::operation_of;
use std::alloc::Global;
use tm_lattice::NoMemory;
use tm_terms::{Place, class_word, place_head, push_bytes, text_of};

/// What a step comes to, in a word.
fn step_word(kind: StepKind) -> &'static [u8]
    ensures { result.now ≡ step_word kind }
{
    match kind {
        StepKind::Load => b"load",
        StepKind::Store => b"store",
        StepKind::Computed => b"computed",
        StepKind::Loop => b"loop",
        StepKind::Alarm => b"alarm",
        StepKind::Input => b"input",
        StepKind::Volatile => b"volatile",
        StepKind::Open => b"open",
        StepKind::Initial => b"initial",
        StepKind::Unset => b"unset",
        StepKind::Constant => b"constant",
        StepKind::IsLocked => b"islocked",
        StepKind::Address => b"address",
    }
}

/// What is found at the end of a way, in a word.
fn cause_word(cause: Cause) -> &'static [u8]
    ensures { result.now ≡ cause_word cause }
{
    match cause {
        Cause::Interference => b"interference",
        Cause::Loop => b"loop",
        Cause::Alarm => b"alarm",
        Cause::Input => b"input",
        Cause::Volatile => b"volatile",
        Cause::Open => b"open",
        Cause::Unset => b"unset",
        Cause::Null => b"null",
        Cause::Initial => b"initial",
        Cause::Values => b"values",
    }
}

/// A place, or a point where it is not known, with a blank behind it.
fn place_or_point(alloc: Global, place: Option<Place>) -> Result<String, NoMemory>
    ensures { IfOk result (λ text. string_bytes text ≡ place_or_point place) }
{
    match place {
        Some(place) => place_head(alloc, place),
        None => match format!(in alloc; ". ") {
            Ok(text) => Ok(text),
            Err(_) => Err(NoMemory),
        },
    }
}

/// The bounds of numbers, each behind a blank, if there are any.
fn bounds_text(alloc: Global, bounds: Option<(i128, i128)>) -> Result<String, NoMemory>
    ensures { IfOk result (λ text. string_bytes text ≡ bounds_text bounds) }
{
    let written = match bounds {
        None => format!(in alloc; ""),
        Some((low, high)) => format!(in alloc; " {low} {high}"),
    };
    match written {
        Ok(text) => Ok(text),
        Err(_) => Err(NoMemory),
    }
}

/// Appends the operand to blame, behind a blank, if there is one.
fn push_blamed(
    text: &mut Vec<u8>,
    operation: Operation,
    blamed: Option<usize>,
) -> Result<(), NoMemory>
    ensures { OnOk result (text.new.items ≡ text.old.items ++ blamed_text operation blamed) }
{
    match blamed {
        None => Ok(()),
        Some(at) => {
            push_bytes(text, b" ")?;
            push_bytes(text, role_at(operation, at))
        }
    }
}

/// Appends the object of a step, if there is one.
fn push_object(
    text: &mut Vec<u8>,
    bytes: &[u8],
    objects: &[ObjectName],
    object: Option<u32>,
) -> Result<(), NoMemory>
    ensures { OnOk result (text.new.items ≡ text.old.items ++ of_object bytes.now objects.now object) }
{
    let Some(object) = object else {
        return Ok(());
    };
    match objects.get(object as usize) {
        None => Ok(()),
        Some(found) => {
            push_bytes(text, b" of ")?;
            push_bytes(text, text_of(bytes, found.name))
        }
    }
}

/// Appends what stands in the line of a step up to its values.
fn push_step_front(
    alloc: Global,
    text: &mut Vec<u8>,
    bytes: &[u8],
    names: &Names,
    step: Step,
) -> Result<(), NoMemory>
    ensures { OnOk result (text.new.items ≡ text.old.items ++ step_front bytes.now names.now.tasks.items step) }
{
    let place = place_or_point(alloc, step.place)?;
    push_bytes(text, place.as_bytes())?;
    push_bytes(text, step_word(step.kind))?;
    push_bytes(text, b" ")?;
    push_bytes(text, runner_text(bytes, &names.tasks, step.task))?;
    Ok(())
}

/// Appends these, and its object.
fn push_step_back(
    alloc: Global,
    text: &mut Vec<u8>,
    bytes: &[u8],
    names: &Names,
    step: Step,
) -> Result<(), NoMemory>
    ensures { OnOk result (text.new.items ≡ text.old.items ++ step_back bytes.now names.now.objects.items step) }
{
    let bounds = bounds_text(alloc, step.bounds)?;
    push_bytes(text, bounds.as_bytes())?;
    push_bytes(text, word_if(step.null, b" null"))?;
    push_bytes(text, word_if(step.invalid, b" invalid"))?;
    push_object(text, bytes, &names.objects, step.object)?;
    Ok(())
}

/// Appends the line of a step.
fn push_step(
    alloc: Global,
    text: &mut Vec<u8>,
    bytes: &[u8],
    names: &Names,
    step: Step,
) -> Result<(), NoMemory>
    ensures { OnOk result (text.new.items ≡ text.old.items
        ++ step_text bytes.now names.now.objects.items names.now.tasks.items step) }
{
    push_step_front(alloc, text, bytes, names, step)?;
    push_step_back(alloc, text, bytes, names, step)?;
    push_bytes(text, b"\n")
}

/// Appends the lines of steps.
fn push_steps(
    alloc: Global,
    text: &mut Vec<u8>,
    bytes: &[u8],
    names: &Names,
    steps: &[Step],
) -> Result<(), NoMemory>
    ensures { OnOk result (text.new.items ≡ text.old.items
        ++ flat_map (step_text bytes.now names.now.objects.items names.now.tasks.items) steps.now) }
{
    for step in steps {
        push_step(alloc, text, bytes, names, *step)?;
    }
    Ok(())
}

/// Appends the first line of the advice on an alarm with this operation.
fn push_head(
    alloc: Global,
    text: &mut Vec<u8>,
    alarm: &AlarmContexts,
    operation: Operation,
    advice: &Advice,
) -> Result<(), NoMemory>
    ensures { OnOk result (text.new.items ≡ text.old.items ++ advice_head alarm.now operation advice.now) }
{
    let head = place_head(alloc, alarm.place)?;
    push_bytes(text, head.as_bytes())?;
    push_bytes(text, class_word(alarm.class).as_bytes())?;
    push_bytes(text, b" ")?;
    push_bytes(text, cause_word(advice.cause))?;
    push_blamed(text, operation, advice.blamed)?;
    push_bytes(text, b"\n")?;
    Ok(())
}

/// Appends the advice on an alarm with this operation.
fn push_advice(
    alloc: Global,
    text: &mut Vec<u8>,
    bytes: &[u8],
    names: &Names,
    alarm: &AlarmContexts,
    operation: Operation,
    advice: &Advice,
) -> Result<(), NoMemory>
    ensures { OnOk result (text.new.items ≡ text.old.items
        ++ advice_text bytes.now names.now.objects.items names.now.tasks.items alarm.now operation advice.now) }
{
    push_head(alloc, text, alarm, operation, advice)?;
    push_steps(alloc, text, bytes, names, &advice.trace)
}

/// Appends the advice on the alarm at this place, if there is some.
fn push_advice_at(
    alloc: Global,
    text: &mut Vec<u8>,
    bytes: &[u8],
    names: &Names,
    program: &Program,
    facts: &ProgramFacts,
    alarms: &[AlarmContexts],
    advices: &[Advice],
    at: usize,
) -> Result<(), NoMemory>
    requires analysable { IsAnalysable program.now }
    requires facts { AreProgramFacts program.now facts.now }
    ensures { OnOk result (text.new.items ≡ text.old.items ++ advice_at bytes.now names.now.objects.items
        names.now.tasks.items (operation_of (program_with program.now facts.now)) alarms.now advices.now at) }
{
    let Some(alarm) = alarms.get(at) else {
        return Ok(());
    };
    let Some(advice) = advices.get(at) else {
        return Ok(());
    };
    let operation = operation_of(program, facts, alarm);
    push_advice(alloc, text, bytes, names, alarm, operation, advice)
}

/// The line that says on how many alarms there is advice.
fn count_line(alloc: Global, count: usize) -> Result<String, NoMemory>
    ensures { IfOk result (λ text. string_bytes text ≡ line_of (codes "causes " ++ decimal count)) }
{
    match format!(in alloc; "causes {count}\n") {
        Ok(text) => Ok(text),
        Err(_) => Err(NoMemory),
    }
}

/// The texts of the advice on alarms, and then their number.
pub fn causes_text(
    alloc: Global,
    bytes: &[u8],
    names: &Names,
    program: &Program,
    facts: &ProgramFacts,
    alarms: &[AlarmContexts],
    advices: &[Advice],
) -> Result<Vec<u8>, NoMemory>
    requires analysable { IsAnalysable program.now }
    requires facts { AreProgramFacts program.now facts.now }
    ensures { IfOk result (λ text. text.items ≡ causes_text bytes.now names.now.objects.items names.now.tasks.items
        (operation_of (program_with program.now facts.now)) alarms.now advices.now) }
{
    let mut text = Vec::new(alloc);
    for at in 0..alarms.len() {
        push_advice_at(
            alloc, &mut text, bytes, names, program, facts, alarms, advices, at,
        )?;
    }
    let count = count_line(alloc, alarms.len())?;
    push_bytes(&mut text, count.as_bytes())?;
    Ok(text)
}
