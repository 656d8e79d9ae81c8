//! All notes.
ghost use Rattle.std.specs.Prelude.{◌≡◌, ◌++◌, IfOk, OnOk};
ghost use Rattle.post_recheck.specs.program_systems.Analysable.{IsAnalysable};
ghost use Rattle.post_recheck.specs.program_systems.ProgramFacts.{AreProgramFacts, program_with};
ghost use Rattle.program_notes.specs.Operations.{operation_of};
ghost use Rattle.program_notes.specs.NotesTexts.{count_text, alarms_part, objects_part, names_part, races_part};
ghost use Rattle.program_notes.specs.NotesTexts.{tasks_part, notes_text};

use crate::alarm_objects::push_alarms;
use crate::declarations::Declared;
use crate::lists::{push_mutexes, push_places, push_runners};
use crate::noted::Contents;
use crate::object_objects::push_objects;
use crate::race_objects::push_groups;
use mutex_configs::Program;
use notes_json::push_number;
use post_recheck::ProgramFacts;
use std::alloc::Global;
use tm_lattice::NoMemory;
use tm_terms::{Alarm, push_bytes};

/// Appends how many alarms there are.
fn push_count(alloc: Global, text: &mut Vec<u8>, report: &[Alarm]) -> Result<(), NoMemory>
    ensures { OnOk result (text.new.items ≡ text.old.items ++ count_text report.now) }
{
    push_number(alloc, text, b"],\"count\":", report.len() as u64)
}

/// Appends the alarms, and how many they are.
fn push_alarms_part(
    alloc: Global,
    text: &mut Vec<u8>,
    bytes: &[u8],
    program: &Program,
    facts: &ProgramFacts,
    contents: &Contents,
) -> Result<(), NoMemory>
    requires analysable { IsAnalysable program.now }
    requires facts { AreProgramFacts program.now facts.now }
    ensures { OnOk result (text.new.items ≡ text.old.items
        ++ alarms_part (operation_of (program_with program.now facts.now)) bytes.now contents.now) }
{
    push_bytes(text, b"{\"alarms\":[")?;
    push_alarms(
        alloc,
        text,
        bytes,
        &contents.details.numbers,
        program,
        facts,
        &contents.report.alarms,
        &contents.others,
        &contents.details.alarms,
    )?;
    push_count(alloc, text, &contents.report.alarms)?;
    Ok(())
}

/// Appends the objects that are listed.
fn push_objects_part(
    alloc: Global,
    text: &mut Vec<u8>,
    bytes: &[u8],
    declared: &Declared,
    contents: &Contents,
) -> Result<(), NoMemory>
    ensures { OnOk result (text.new.items ≡ text.old.items ++ objects_part bytes.now declared.now contents.now) }
{
    push_bytes(text, b"],\"objects\":[")?;
    push_objects(
        alloc,
        text,
        bytes,
        &contents.ranges.bounds,
        &declared.objects,
        &contents.details.objects,
        &contents.details.numbers,
    )
}

/// Appends the dead places, the mutexes and the objects.
fn push_names_part(
    alloc: Global,
    text: &mut Vec<u8>,
    bytes: &[u8],
    declared: &Declared,
    contents: &Contents,
) -> Result<(), NoMemory>
    ensures { OnOk result (text.new.items ≡ text.old.items ++ names_part bytes.now declared.now contents.now) }
{
    push_bytes(text, b",\"dead\":[")?;
    push_places(alloc, text, &contents.ranges.dead)?;
    push_bytes(text, b"],\"mutexes\":[")?;
    push_mutexes(alloc, text, bytes, &declared.mutexes)?;
    push_objects_part(alloc, text, bytes, declared, contents)
}

/// Appends the races by object.
fn push_races_part(alloc: Global, text: &mut Vec<u8>, contents: &Contents) -> Result<(), NoMemory>
    ensures { OnOk result (text.new.items ≡ text.old.items ++ races_part contents.now) }
{
    push_bytes(text, b"],\"races\":[")?;
    push_groups(
        alloc,
        text,
        &contents.details.numbers,
        &contents.groups,
        &contents.details.members,
    )
}

/// Appends the tasks.
fn push_tasks_part(
    alloc: Global,
    text: &mut Vec<u8>,
    bytes: &[u8],
    declared: &Declared,
) -> Result<(), NoMemory>
    ensures { OnOk result (text.new.items ≡ text.old.items ++ tasks_part bytes.now declared.now) }
{
    push_bytes(text, b"],\"tasks\":[")?;
    push_runners(alloc, text, bytes, &declared.runners)?;
    push_bytes(text, b"]}\n")
}

/// All notes on a program, in one line.
pub fn notes_text(
    alloc: Global,
    bytes: &[u8],
    declared: &Declared,
    program: &Program,
    facts: &ProgramFacts,
    contents: &Contents,
) -> Result<Vec<u8>, NoMemory>
    requires analysable { IsAnalysable program.now }
    requires facts { AreProgramFacts program.now facts.now }
    ensures { IfOk result (λ text. text.items ≡ notes_text bytes.now declared.now
        (operation_of (program_with program.now facts.now)) contents.now) }
{
    let mut text = Vec::new(alloc);
    push_alarms_part(alloc, &mut text, bytes, program, facts, contents)?;
    push_names_part(alloc, &mut text, bytes, declared, contents)?;
    push_races_part(alloc, &mut text, contents)?;
    push_tasks_part(alloc, &mut text, bytes, declared)?;
    Ok(text)
}
