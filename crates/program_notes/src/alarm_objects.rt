//! The alarms of a report.
ghost use Rattle.std.specs.Prelude.{◌≡◌, ◌≤◌, ◌++◌, OnOk, cond, slice_get};
ghost use Rattle.post_recheck.specs.program_systems.Analysable.{IsAnalysable};
ghost use Rattle.post_recheck.specs.program_systems.ProgramFacts.{AreProgramFacts, program_with};
ghost use Rattle.program_notes.specs.Operations.{operation_of};
ghost use Rattle.notes_json.specs.Pieces.{or_nothing};
ghost use Rattle.program_notes.specs.AlarmTexts.{is_race, other_text, alarm_text, alarms_text};

use crate::context_objects::push_context;
use crate::operations::operation_of;
use crate::race_alarms::push_race_alarm;
use alarm_contexts::AlarmContexts;
use mutex_configs::Program;
use note_details::AlarmDetails;
use notes_json::push_comma;
use post_recheck::ProgramFacts;
use std::alloc::Global;
use tm_cint::Class;
use tm_lattice::NoMemory;
use tm_terms::Alarm;

/// Whether an alarm is one of races.
fn is_race(alarm: Alarm) -> bool
    ensures { result ≡ is_race alarm }
{
    match alarm.class {
        Class::Race => true,
        Class::Overflow
        | Class::Div
        | Class::Shift
        | Class::Index
        | Class::Pointer
        | Class::Deref
        | Class::Lock => false,
    }
}

/// How many alarms that are not races this one is.
fn count_other(alarm: Alarm) -> usize
    ensures value { result ≡ cond (is_race alarm) 0 1 }
    ensures most { result ≤ 1 }
{
    if is_race(alarm) { 0 } else { 1 }
}

/// Appends an alarm that is no race, if there are contexts of it at this place.
fn push_other(
    alloc: Global,
    text: &mut Vec<u8>,
    bytes: &[u8],
    numbers: &[Option<u32>],
    program: &Program,
    facts: &ProgramFacts,
    others: &[AlarmContexts],
    next: usize,
    details: &AlarmDetails,
) -> Result<(), NoMemory>
    requires analysable { IsAnalysable program.now }
    requires facts { AreProgramFacts program.now facts.now }
    ensures { OnOk result (text.new.items ≡ text.old.items
        ++ other_text (operation_of (program_with program.now facts.now)) bytes.now numbers.now details.now
        (slice_get others.now next)) }
{
    match others.get(next) {
        None => Ok(()),
        Some(alarm) => {
            let operation = operation_of(program, facts, alarm);
            push_context(alloc, text, bytes, numbers, alarm, operation, details)
        }
    }
}

/// Appends an alarm, where this is the next place of contexts.
fn push_alarm(
    alloc: Global,
    text: &mut Vec<u8>,
    bytes: &[u8],
    numbers: &[Option<u32>],
    program: &Program,
    facts: &ProgramFacts,
    others: &[AlarmContexts],
    next: usize,
    alarm: Alarm,
    details: &AlarmDetails,
) -> Result<(), NoMemory>
    requires analysable { IsAnalysable program.now }
    requires facts { AreProgramFacts program.now facts.now }
    ensures { OnOk result (text.new.items ≡ text.old.items
        ++ alarm_text (operation_of (program_with program.now facts.now)) bytes.now numbers.now
        (slice_get others.now next) alarm details.now) }
{
    if is_race(alarm) {
        push_race_alarm(alloc, text, bytes, alarm.place, details)
    } else {
        push_other(
            alloc, text, bytes, numbers, program, facts, others, next, details,
        )
    }
}

/// Appends an alarm with the details at this place, if there are any.
fn push_alarm_at(
    alloc: Global,
    text: &mut Vec<u8>,
    bytes: &[u8],
    numbers: &[Option<u32>],
    program: &Program,
    facts: &ProgramFacts,
    others: &[AlarmContexts],
    next: usize,
    alarm: Alarm,
    details: &[AlarmDetails],
    at: usize,
) -> Result<(), NoMemory>
    requires analysable { IsAnalysable program.now }
    requires facts { AreProgramFacts program.now facts.now }
    ensures { OnOk result (text.new.items ≡ text.old.items
        ++ or_nothing (alarm_text (operation_of (program_with program.now facts.now)) bytes.now numbers.now
        (slice_get others.now next) alarm) (slice_get details.now at)) }
{
    match details.get(at) {
        None => Ok(()),
        Some(found) => push_alarm(
            alloc, text, bytes, numbers, program, facts, others, next, alarm, found,
        ),
    }
}

/// Appends the alarms of a report, of which those that are not races have these contexts, in the same order, and each
/// has details at its place.
pub(crate) fn push_alarms(
    alloc: Global,
    text: &mut Vec<u8>,
    bytes: &[u8],
    numbers: &[Option<u32>],
    program: &Program,
    facts: &ProgramFacts,
    report: &[Alarm],
    others: &[AlarmContexts],
    details: &[AlarmDetails],
) -> Result<(), NoMemory>
    requires analysable { IsAnalysable program.now }
    requires facts { AreProgramFacts program.now facts.now }
    ensures { OnOk result (text.new.items ≡ text.old.items
        ++ alarms_text (operation_of (program_with program.now facts.now)) bytes.now numbers.now report.now others.now
        details.now) }
{
    let mut next = 0;
    for (at, alarm) in report.iter().enumerate() {
        push_comma(text, at)?;
        push_alarm_at(
            alloc, text, bytes, numbers, program, facts, others, next, *alarm, details, at,
        )?;
        next += count_other(*alarm);
    }
    Ok(())
}
