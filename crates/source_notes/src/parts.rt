//! All texts on a least solution, one behind another.
ghost use Rattle.std.specs.Prelude.{◌≡◌, ◌++◌, IfOk, OnOk, codes};
ghost use Rattle.worker_solutions.specs.program_systems.ReadPrograms.{program_of};
ghost use Rattle.worker_solutions.specs.program_solutions.LeastReports.{IsLeastPair};
ghost use Rattle.worker_solutions.specs.program_equations.Solutions.{tables_of};
ghost use Rattle.program_reports.specs.Reports.{IsReport};
ghost use Rattle.access_groups.specs.Groups.{AreGroups};
ghost use Rattle.alarm_contexts.specs.Contexts.{AreContexts};
ghost use Rattle.value_ranges.specs.Ranges.{AreRanges};
ghost use Rattle.value_ranges.specs.Places.{AreDead};
ghost use Rattle.source_findings.specs.Tellings.{TellsRangesOf, TellsWaitsOf};
ghost use Rattle.source_assumptions.specs.reading.Told.{TellsAssumptionsOf};
ghost use Rattle.source_notes.specs.PartTexts.{part_text};
ghost use Rattle.source_notes.specs.reading.Told.{TellsRingsOf, TellsRacesOf, TellsAlarmsOf};
ghost use Rattle.source_notes.specs.reading.Told.{AreContents, TellsCausesOf, TellsNotesOf};
ghost use Rattle.source_notes.specs.reading.PartsTold.{TellsReportOf, TellsPartsOf, Adds, AddsFirst};

use crate::answers::{
    NoteReply, assumed_reply, contents_of, rings_reply, told_alarms, told_causes, told_notes,
    told_races, told_report,
};
use access_groups::AccessGroup;
use alarm_contexts::AlarmContexts;
use note_lines::Names;
use notes_json::push_number;
use program_notes::{Contents, Declared};
use program_streams::Status;
use source_assumptions::Opened;
use source_findings::{Finding, told_of, told_ranges};
use std::alloc::Global as Heap;
use tm_lattice::NoMemory;
use tm_terms::{Alarm, push_bytes};
use value_ranges::Ranges;
use worker_solutions::{Analysis, Solution};

/// Appends a text, behind the line with its name, its status and its length.
fn push_part(
    alloc: Heap,
    text: &mut Vec<u8>,
    name: &[u8],
    status: Status,
    part: &[u8],
) -> Result<(), NoMemory>
    ensures { OnOk result (text.new.items ≡ text.old.items ++ part_text name.now status part.now) }
{
    push_bytes(text, name)?;
    push_number(alloc, text, b" ", status.number() as u64)?;
    push_number(alloc, text, b" ", part.len() as u64)?;
    push_bytes(text, b"\n")?;
    push_bytes(text, part)
}

/// Appends the report, and says its status.
fn push_report(
    alloc: Heap,
    text: &mut Vec<u8>,
    analysis: &Analysis,
    found: &Solution,
    report: &[Alarm],
) -> Result<Status, NoMemory>
    requires { IsReport (program_of analysis.now) (tables_of found.now.tables) report.now }
    ensures { IfOk result (AddsFirst (TellsReportOf (program_of analysis.now) found.now) (codes "report")
        text.old.items text.new.items) }
{
    let reply = told_report(alloc, analysis, found, report)?;
    push_part(alloc, text, b"report", reply.status, &reply.text)?;
    Ok(reply.status)
}

/// Appends the places at which tasks may wait.
fn push_waits(
    alloc: Heap,
    text: &mut Vec<u8>,
    bytes: &[u8],
    analysis: &Analysis,
    found: &Solution,
) -> Result<(), NoMemory>
    requires { IsLeastPair (program_of analysis.now) found.now }
    ensures { OnOk result (Adds (TellsWaitsOf (program_of analysis.now) found.now) (codes "waits")
        text.old.items text.new.items) }
{
    let reply = told_of(alloc, Finding::Waits, bytes, analysis, found)?;
    push_part(alloc, text, b"waits", reply.status, &reply.text)
}

/// Appends the ranges of objects and the dead places.
fn push_ranges(
    alloc: Heap,
    text: &mut Vec<u8>,
    bytes: &[u8],
    analysis: &Analysis,
    found: &Solution,
    ranges: &Ranges,
) -> Result<(), NoMemory>
    requires bounds { AreRanges (program_of analysis.now) (tables_of found.now.tables) found.now.store
        ranges.now.bounds.items }
    requires dead { AreDead (program_of analysis.now) (tables_of found.now.tables) ranges.now.dead.items }
    ensures { OnOk result (Adds (TellsRangesOf (program_of analysis.now) bytes.now found.now) (codes "ranges")
        text.old.items text.new.items) }
{
    let reply = told_ranges(alloc, bytes, analysis, found, ranges)?;
    push_part(alloc, text, b"ranges", reply.status, &reply.text)
}

/// Appends the notes on rings.
fn push_rings(
    alloc: Heap,
    text: &mut Vec<u8>,
    bytes: &[u8],
    names: &Names,
    analysis: &Analysis,
    found: &Solution,
) -> Result<(), NoMemory>
    requires { IsLeastPair (program_of analysis.now) found.now }
    ensures { OnOk result (Adds (TellsRingsOf (program_of analysis.now) bytes.now names.now.tasks.items
        names.now.mutexes.items found.now) (codes "rings") text.old.items text.new.items) }
{
    let reply = rings_reply(alloc, bytes, names, analysis, found)?;
    push_part(alloc, text, b"rings", reply.status, &reply.text)
}

/// Appends those on races.
fn push_races(
    alloc: Heap,
    text: &mut Vec<u8>,
    bytes: &[u8],
    names: &Names,
    analysis: &Analysis,
    found: &Solution,
    groups: &[AccessGroup],
) -> Result<(), NoMemory>
    requires { AreGroups (program_of analysis.now) (tables_of found.now.tables) groups.now }
    ensures { OnOk result (Adds (TellsRacesOf (program_of analysis.now) bytes.now names.now.objects.items
        names.now.tasks.items names.now.mutexes.items found.now) (codes "races") text.old.items text.new.items) }
{
    let reply = told_races(alloc, bytes, names, analysis, found, groups)?;
    push_part(alloc, text, b"races", reply.status, &reply.text)
}

/// Appends those on other alarms.
fn push_alarms(
    alloc: Heap,
    text: &mut Vec<u8>,
    bytes: &[u8],
    names: &Names,
    analysis: &Analysis,
    found: &Solution,
    alarms: &[AlarmContexts],
) -> Result<(), NoMemory>
    requires { AreContexts (program_of analysis.now) (tables_of found.now.tables) alarms.now }
    ensures { OnOk result (Adds (TellsAlarmsOf (program_of analysis.now) bytes.now names.now found.now)
        (codes "alarms") text.old.items text.new.items) }
{
    let reply = told_alarms(alloc, bytes, names, analysis, found, alarms)?;
    push_part(alloc, text, b"alarms", reply.status, &reply.text)
}

/// Appends the advice on these.
fn push_causes(
    alloc: Heap,
    text: &mut Vec<u8>,
    bytes: &[u8],
    names: &Names,
    analysis: &Analysis,
    found: &Solution,
    alarms: &[AlarmContexts],
    groups: &[AccessGroup],
) -> Result<(), NoMemory>
    requires least { IsLeastPair (program_of analysis.now) found.now }
    requires alarms { AreContexts (program_of analysis.now) (tables_of found.now.tables) alarms.now }
    requires groups { AreGroups (program_of analysis.now) (tables_of found.now.tables) groups.now }
    ensures { OnOk result (Adds (TellsCausesOf (program_of analysis.now) bytes.now names.now found.now)
        (codes "causes") text.old.items text.new.items) }
{
    let reply = told_causes(alloc, bytes, names, analysis, found, alarms, groups)?;
    push_part(alloc, text, b"causes", reply.status, &reply.text)
}

/// Appends the whole notes.
fn push_notes(
    alloc: Heap,
    text: &mut Vec<u8>,
    bytes: &[u8],
    declared: &Declared,
    analysis: &Analysis,
    found: &Solution,
    contents: &Contents,
) -> Result<(), NoMemory>
    requires { AreContents (program_of analysis.now) found.now contents.now }
    ensures { OnOk result (Adds (TellsNotesOf (program_of analysis.now) bytes.now declared.now found.now)
        (codes "notes") text.old.items text.new.items) }
{
    let reply = told_notes(alloc, bytes, declared, analysis, found, contents)?;
    push_part(alloc, text, b"notes", reply.status, &reply.text)
}

/// Appends the list of assumptions.
fn push_assumptions(
    alloc: Heap,
    text: &mut Vec<u8>,
    opened: &Opened,
    analysis: &Analysis,
    found: &Solution,
) -> Result<(), NoMemory>
    requires { IsLeastPair (program_of analysis.now) found.now }
    ensures { OnOk result (Adds (TellsAssumptionsOf (program_of analysis.now) opened.now.others.items
        opened.now.origins.items found.now) (codes "assumptions") text.old.items text.new.items) }
{
    let reply = assumed_reply(alloc, opened, analysis, found)?;
    push_part(alloc, text, b"assumptions", reply.status, &reply.text)
}

/// All texts on a least solution, with the status of the report. What several of them tell is found once.
pub(crate) fn parts_reply(
    alloc: Heap,
    bytes: &[u8],
    names: &Names,
    declared: &Declared,
    opened: &Opened,
    analysis: &Analysis,
    found: &Solution,
) -> Result<NoteReply, NoMemory>
    requires { IsLeastPair (program_of analysis.now) found.now }
    ensures { IfOk result (λ reply. TellsPartsOf (program_of analysis.now) bytes.now names.now declared.now opened.now
        found.now reply.status reply.text.items) }
{
    let contents = contents_of(alloc, bytes, analysis, found)?;
    let mut text = Vec::new(alloc);
    let status = push_report(alloc, &mut text, analysis, found, &contents.report.alarms)?;
    push_waits(alloc, &mut text, bytes, analysis, found)?;
    push_ranges(alloc, &mut text, bytes, analysis, found, &contents.ranges)?;
    push_rings(alloc, &mut text, bytes, names, analysis, found)?;
    push_races(
        alloc,
        &mut text,
        bytes,
        names,
        analysis,
        found,
        &contents.groups,
    )?;
    push_alarms(
        alloc,
        &mut text,
        bytes,
        names,
        analysis,
        found,
        &contents.others,
    )?;
    push_causes(
        alloc,
        &mut text,
        bytes,
        names,
        analysis,
        found,
        &contents.others,
        &contents.groups,
    )?;
    push_notes(
        alloc, &mut text, bytes, declared, analysis, found, &contents,
    )?;
    push_assumptions(alloc, &mut text, opened, analysis, found)?;
    Ok(NoteReply { status, text })
}
