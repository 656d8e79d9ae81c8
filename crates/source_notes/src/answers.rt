//! The answer to the bytes of a source, on a scale.
ghost use Rattle.std.specs.Prelude.{◌≡◌, ◌≤◌, true, length, IfOk};
ghost use Rattle.tm_terms.specs.Limits.{most_bytes};
ghost use Rattle.tm_laid.specs.tm_typed.TypedFiles.{typed_file_tree};
ghost use Rattle.tm_laid.specs.Layable.{IsLayable};
ghost use Rattle.tm_laid.specs.Layouts.{laid_tree};
ghost use Rattle.worker_solutions.specs.program_equations.Solutions.{tables_of};
ghost use Rattle.worker_solutions.specs.program_systems.ReadPrograms.{program_of};
ghost use Rattle.worker_solutions.specs.program_solutions.LeastReports.{IsLeastPair};
ghost use Rattle.source_assumptions.specs.reading.Told.{IsOpened, TellsAssumptionsOf};
ghost use Rattle.program_reports.specs.Reports.{IsReport};
ghost use Rattle.access_groups.specs.Groups.{AreGroups};
ghost use Rattle.alarm_contexts.specs.Contexts.{AreContexts};
ghost use Rattle.source_notes.specs.Notes.{HasNotes, rings_status, races_status, alarms_status, report_status};
ghost use Rattle.source_notes.specs.reading.Told.{TellsRingsOf, TellsRacesOf, TellsAlarmsOf, TellsCausesOf};
ghost use Rattle.source_notes.specs.reading.Told.{TellsNotesOf, AreContents};
ghost use Rattle.source_notes.specs.reading.PartsTold.{TellsReportOf, TellsOf, is_assuming};

use crate::finders::{Alone, Finder};
use crate::parts::parts_reply;
use access_groups::{AccessGroup, groups};
use access_partners::access_details;
use alarm_causes::{advice_on_alarms, objects_named};
use alarm_contexts::{AlarmContexts, alarm_contexts};
use flow_graph::Graph;
use lock_waits::rings;
use note_details::report_details;
use note_lines::{Names, alarms_text, causes_text, groups_text, names_of, rings_text};
use program_notes::{Contents, Declared, declared_of, notes_text};
use program_reports::judge;
use program_streams::Status;
use report_json::report_json;
use request_circles::Ring;
use source_assumptions::{AssumptionReply, Opened, assumptions_reply, opened_of};
use source_findings::refusal_line_on;
use source_programs::source_program_on;
use std::alloc::Global as Heap;
use tm_laid::{Laid, Scale};
use tm_lattice::NoMemory;
use tm_terms::{Alarm, Fail};
use value_ranges::{least_cell_ranges, ranges_by_cells};
use worker_solutions::{Analysis, Solution};

/// What the notes are on.
#[derive(Clone, Copy)]
pub enum Note {
    /// The report alone, as JSON.
    Report,
    /// Rings of tasks that may come to wait for each other.
    Rings,
    /// Races by object.
    Races,
    /// Alarms of values and locks, and what they stand on.
    Alarms,
    /// Advice on these alarms: where the values come from.
    Causes,
    /// All of this but the rings and the advice, with ranges, dead places and details, as one line of JSON.
    Whole,
    /// The places whose meaning in a compiled program depends on a choice that C99 leaves open.
    Assumptions,
    /// The report as JSON, the waits, the ranges, the notes on rings, races and other alarms, the advice, the whole
    /// notes and the assumptions, each as it is answered alone, behind a line with its name, its status and its length
    /// in bytes.
    Parts,
}

/// A status and the whole text that goes with it. Names stand in it byte for byte, as in the source.
#[derive(Drop)]
pub struct NoteReply {
    pub status: Status,
    pub text: Vec<u8>,
}

/// Whether there is a ring.
fn rings_status(rings: &[Ring]) -> Status
    ensures { result ≡ rings_status rings.now }
{
    if rings.is_empty() {
        Status::NoAlarm
    } else {
        Status::Alarms
    }
}

/// Whether there is a race.
fn races_status(groups: &[AccessGroup]) -> Status
    ensures { result ≡ races_status groups.now }
{
    if groups.is_empty() {
        Status::NoAlarm
    } else {
        Status::Alarms
    }
}

/// Whether there is an alarm.
fn alarms_status(alarms: &[AlarmContexts]) -> Status
    ensures { result ≡ alarms_status alarms.now }
{
    if alarms.is_empty() {
        Status::NoAlarm
    } else {
        Status::Alarms
    }
}

/// Whether there is an alarm in a report.
fn report_status(report: &[Alarm]) -> Status
    ensures { result ≡ report_status report.now }
{
    if report.is_empty() {
        Status::NoAlarm
    } else {
        Status::Alarms
    }
}

/// What a least solution tells as its report, where that is found.
pub(crate) fn told_report(
    alloc: Heap,
    analysis: &Analysis,
    found: &Solution,
    report: &[Alarm],
) -> Result<NoteReply, NoMemory>
    requires { IsReport (program_of analysis.now) (tables_of found.now.tables) report.now }
    ensures { IfOk result (λ reply. TellsReportOf (program_of analysis.now) found.now reply.status reply.text.items) }
{
    let _analysis = analysis;
    let _found = found;
    let line = report_json(alloc, report)?;
    Ok(NoteReply {
        status: report_status(report),
        text: line.into_bytes(),
    })
}

/// The report of a least solution.
fn report_reply(alloc: Heap, analysis: &Analysis, found: &Solution) -> Result<NoteReply, NoMemory>
    requires { IsLeastPair (program_of analysis.now) found.now }
    ensures { IfOk result (λ reply. TellsReportOf (program_of analysis.now) found.now reply.status reply.text.items) }
{
    let (program, facts) = analysis.parts();
    let report = judge(alloc, program, facts, found.tables(), found.store())?;
    told_report(alloc, analysis, found, &report.alarms)
}

/// What a least solution tells of rings.
pub(crate) fn rings_reply(
    alloc: Heap,
    bytes: &[u8],
    names: &Names,
    analysis: &Analysis,
    found: &Solution,
) -> Result<NoteReply, NoMemory>
    requires { IsLeastPair (program_of analysis.now) found.now }
    ensures { IfOk result (λ reply. TellsRingsOf (program_of analysis.now) bytes.now names.now.tasks.items
        names.now.mutexes.items found.now reply.status reply.text.items) }
{
    let (program, _) = analysis.parts();
    let rings = rings(alloc, program, found.tables())?;
    let text = rings_text(alloc, bytes, names, &rings)?;
    Ok(NoteReply {
        status: rings_status(&rings),
        text,
    })
}

/// What a least solution tells of races, where their groups are found.
pub(crate) fn told_races(
    alloc: Heap,
    bytes: &[u8],
    names: &Names,
    analysis: &Analysis,
    found: &Solution,
    groups: &[AccessGroup],
) -> Result<NoteReply, NoMemory>
    requires { AreGroups (program_of analysis.now) (tables_of found.now.tables) groups.now }
    ensures { IfOk result (λ reply. TellsRacesOf (program_of analysis.now) bytes.now names.now.objects.items
        names.now.tasks.items names.now.mutexes.items found.now reply.status reply.text.items) }
{
    let _analysis = analysis;
    let _found = found;
    let text = groups_text(alloc, bytes, names, groups)?;
    Ok(NoteReply {
        status: races_status(groups),
        text,
    })
}

/// What a least solution tells of races.
fn races_reply(
    alloc: Heap,
    bytes: &[u8],
    names: &Names,
    analysis: &Analysis,
    found: &Solution,
) -> Result<NoteReply, NoMemory>
    requires { IsLeastPair (program_of analysis.now) found.now }
    ensures { IfOk result (λ reply. TellsRacesOf (program_of analysis.now) bytes.now names.now.objects.items
        names.now.tasks.items names.now.mutexes.items found.now reply.status reply.text.items) }
{
    let (program, facts) = analysis.parts();
    let groups = groups(alloc, program, facts, found.tables(), found.store())?;
    told_races(alloc, bytes, names, analysis, found, &groups)
}

/// What a least solution tells of alarms, where their contexts are found.
pub(crate) fn told_alarms(
    alloc: Heap,
    bytes: &[u8],
    names: &Names,
    analysis: &Analysis,
    found: &Solution,
    alarms: &[AlarmContexts],
) -> Result<NoteReply, NoMemory>
    requires { AreContexts (program_of analysis.now) (tables_of found.now.tables) alarms.now }
    ensures { IfOk result (λ reply. TellsAlarmsOf (program_of analysis.now) bytes.now names.now
        found.now reply.status reply.text.items) }
{
    let _found = found;
    let (program, facts) = analysis.parts();
    let text = alarms_text(alloc, bytes, names, program, facts, alarms)?;
    Ok(NoteReply {
        status: alarms_status(alarms),
        text,
    })
}

/// What a least solution tells of alarms.
fn alarms_reply(
    alloc: Heap,
    bytes: &[u8],
    names: &Names,
    analysis: &Analysis,
    found: &Solution,
) -> Result<NoteReply, NoMemory>
    requires { IsLeastPair (program_of analysis.now) found.now }
    ensures { IfOk result (λ reply. TellsAlarmsOf (program_of analysis.now) bytes.now names.now
        found.now reply.status reply.text.items) }
{
    let (program, facts) = analysis.parts();
    let alarms = alarm_contexts(alloc, program, facts, found.tables(), found.store())?;
    told_alarms(alloc, bytes, names, analysis, found, &alarms)
}

/// Advice on the alarms of a least solution, where their contexts and the groups of its races are found.
pub(crate) fn told_causes(
    alloc: Heap,
    bytes: &[u8],
    names: &Names,
    analysis: &Analysis,
    found: &Solution,
    alarms: &[AlarmContexts],
    groups: &[AccessGroup],
) -> Result<NoteReply, NoMemory>
    requires least { IsLeastPair (program_of analysis.now) found.now }
    requires alarms { AreContexts (program_of analysis.now) (tables_of found.now.tables) alarms.now }
    requires groups { AreGroups (program_of analysis.now) (tables_of found.now.tables) groups.now }
    ensures { IfOk result (λ reply. TellsCausesOf (program_of analysis.now) bytes.now names.now
        found.now reply.status reply.text.items) }
{
    let (program, facts) = analysis.parts();
    let advices = advice_on_alarms(
        alloc,
        program,
        facts,
        found.tables(),
        found.store(),
        alarms,
        groups,
    )?;
    let text = causes_text(alloc, bytes, names, program, facts, alarms, &advices)?;
    Ok(NoteReply {
        status: alarms_status(alarms),
        text,
    })
}

/// Advice on the alarms of a least solution.
fn causes_reply(
    alloc: Heap,
    bytes: &[u8],
    names: &Names,
    analysis: &Analysis,
    found: &Solution,
) -> Result<NoteReply, NoMemory>
    requires { IsLeastPair (program_of analysis.now) found.now }
    ensures { IfOk result (λ reply. TellsCausesOf (program_of analysis.now) bytes.now names.now
        found.now reply.status reply.text.items) }
{
    let (program, facts) = analysis.parts();
    let alarms = alarm_contexts(alloc, program, facts, found.tables(), found.store())?;
    let groups = groups(alloc, program, facts, found.tables(), found.store())?;
    told_causes(alloc, bytes, names, analysis, found, &alarms, &groups)
}

/// The numbers of the objects that advice on these alarms names.
fn advised_objects(
    alloc: Heap,
    analysis: &Analysis,
    found: &Solution,
    alarms: &[AlarmContexts],
    groups: &[AccessGroup],
) -> Result<Vec<u32>, NoMemory> {
    let (program, facts) = analysis.parts();
    let advices = advice_on_alarms(
        alloc,
        program,
        facts,
        found.tables(),
        found.store(),
        alarms,
        groups,
    )?;
    objects_named(alloc, &advices)
}

/// All that a least solution tells.
pub(crate) fn contents_of(
    alloc: Heap,
    bytes: &[u8],
    analysis: &Analysis,
    found: &Solution,
) -> Result<Contents, NoMemory>
    requires { IsLeastPair (program_of analysis.now) found.now }
    ensures { IfOk result (λ contents. AreContents (program_of analysis.now) found.now contents) }
{
    let (program, facts) = analysis.parts();
    let report = judge(alloc, program, facts, found.tables(), found.store())?;
    let others = alarm_contexts(alloc, program, facts, found.tables(), found.store())?;
    let groups = groups(alloc, program, facts, found.tables(), found.store())?;
    let accesses = access_details(
        alloc,
        program,
        facts,
        found.tables(),
        found.store(),
        &groups,
    )?;
    let cells = least_cell_ranges(alloc, program, facts, found.tables(), found.store())?;
    let ranges = ranges_by_cells(alloc, program, facts, found.tables(), found.store(), &cells)?;
    let advised = advised_objects(alloc, analysis, found, &others, &groups)?;
    let details = report_details(
        alloc,
        bytes,
        &program.laid,
        &program.graphs.graphs,
        &report.alarms,
        &others,
        &groups,
        &accesses,
        &advised,
        &cells,
    )?;
    Ok(Contents {
        report,
        others,
        groups,
        accesses,
        ranges,
        cells,
        details,
    })
}

/// All notes on a least solution, where their contents are found.
pub(crate) fn told_notes(
    alloc: Heap,
    bytes: &[u8],
    declared: &Declared,
    analysis: &Analysis,
    found: &Solution,
    contents: &Contents,
) -> Result<NoteReply, NoMemory>
    requires { AreContents (program_of analysis.now) found.now contents.now }
    ensures { IfOk result (λ reply. TellsNotesOf (program_of analysis.now) bytes.now declared.now
        found.now reply.status reply.text.items) }
{
    let _found = found;
    let (program, facts) = analysis.parts();
    let text = notes_text(alloc, bytes, declared, program, facts, contents)?;
    Ok(NoteReply {
        status: report_status(&contents.report.alarms),
        text,
    })
}

/// All notes on a least solution.
fn whole_reply(
    alloc: Heap,
    bytes: &[u8],
    declared: &Declared,
    analysis: &Analysis,
    found: &Solution,
) -> Result<NoteReply, NoMemory>
    requires { IsLeastPair (program_of analysis.now) found.now }
    ensures { IfOk result (λ reply. TellsNotesOf (program_of analysis.now) bytes.now declared.now
        found.now reply.status reply.text.items) }
{
    let contents = contents_of(alloc, bytes, analysis, found)?;
    told_notes(alloc, bytes, declared, analysis, found, &contents)
}

/// What a least solution tells of assumptions, where so much is read off the source.
pub(crate) fn assumed_reply(
    alloc: Heap,
    opened: &Opened,
    analysis: &Analysis,
    found: &Solution,
) -> Result<NoteReply, NoMemory>
    requires { IsLeastPair (program_of analysis.now) found.now }
    ensures { IfOk result (λ reply. TellsAssumptionsOf (program_of analysis.now) opened.now.others.items
        opened.now.origins.items found.now reply.status reply.text.items) }
{
    let reply = assumptions_reply(alloc, opened, analysis, found)?;
    let AssumptionReply { status, text } = reply;
    Ok(NoteReply { status, text })
}

/// Whether assumptions are told.
fn is_assuming(note: Note) -> bool
    ensures { result ≡ is_assuming note }
{
    match note {
        Note::Assumptions | Note::Parts => true,
        Note::Report | Note::Rings | Note::Races | Note::Alarms | Note::Causes | Note::Whole => {
            false
        }
    }
}

/// What is read off a source of this layout and these graphs, where assumptions are told.
fn opened_for(
    alloc: Heap,
    note: Note,
    bytes: &[u8],
    laid: &Laid,
    graphs: &[Graph],
) -> Result<Opened, NoMemory>
    requires short { length bytes.now ≤ most_bytes }
    requires layable { IsLayable (typed_file_tree laid.now.file) laid.now.file.order.items }
    requires few { length laid.now.cells.items ≤ 65536 }
    ensures { IfOk result (λ o. is_assuming note ≡ true → IsOpened bytes.now (laid_tree laid.now) graphs.now o) }
{
    if is_assuming(note) {
        let opened = opened_of(alloc, bytes, laid, graphs)?;
        return Ok(opened);
    }
    Ok(Opened {
        others: Vec::new(alloc),
        origins: Vec::new(alloc),
    })
}

/// What a least solution tells.
fn reply_of(
    alloc: Heap,
    note: Note,
    bytes: &[u8],
    names: &Names,
    declared: &Declared,
    opened: &Opened,
    analysis: &Analysis,
    found: &Solution,
) -> Result<NoteReply, NoMemory>
    requires { IsLeastPair (program_of analysis.now) found.now }
    ensures { IfOk result (λ reply. TellsOf note (program_of analysis.now) bytes.now names.now declared.now
        opened.now found.now reply.status reply.text.items) }
{
    match note {
        Note::Report => report_reply(alloc, analysis, found),
        Note::Rings => rings_reply(alloc, bytes, names, analysis, found),
        Note::Races => races_reply(alloc, bytes, names, analysis, found),
        Note::Alarms => alarms_reply(alloc, bytes, names, analysis, found),
        Note::Causes => causes_reply(alloc, bytes, names, analysis, found),
        Note::Whole => whole_reply(alloc, bytes, declared, analysis, found),
        Note::Assumptions => assumed_reply(alloc, opened, analysis, found),
        Note::Parts => parts_reply(alloc, bytes, names, declared, opened, analysis, found),
    }
}

/// The notes on the bytes of a source on a scale, or its refusal there. The solution is what is found with no numbers
/// given as thresholds.
pub(crate) fn notes_by<F: Finder>(
    finder: &F,
    alloc: Heap,
    scale: Scale,
    note: Note,
    bytes: &[u8],
) -> Result<NoteReply, NoMemory>
    requires { F.serves finder.now }
    ensures { IfOk result (λ reply. HasNotes scale note bytes.now reply.status reply.text.items) }
{
    match source_program_on(alloc, scale, bytes, &[]) {
        Ok(program) => {
            let names = names_of(alloc, &program.laid)?;
            let declared = declared_of(alloc, &program.laid)?;
            let opened = opened_for(alloc, note, bytes, &program.laid, &program.graphs.graphs)?;
            let analysis = Analysis::new(alloc, program)?;
            let found = finder.find(alloc, analysis)?;
            reply_of(
                alloc,
                note,
                bytes,
                &names,
                &declared,
                &opened,
                &found.analysis,
                &found.solution,
            )
        }
        Err(Fail::Refused(refusal)) => {
            let text = refusal_line_on(alloc, scale, &refusal)?;
            Ok(NoteReply {
                status: Status::Refused,
                text: text.into_bytes(),
            })
        }
        Err(Fail::NoMemory) => Err(NoMemory),
    }
}

/// The notes on the bytes of a source on a scale, or its refusal there, found on the calling thread alone.
pub fn notes_of(alloc: Heap, scale: Scale, note: Note, bytes: &[u8]) -> Result<NoteReply, NoMemory>
    ensures { IfOk result (λ reply. HasNotes scale note bytes.now reply.status reply.text.items) }
{
    notes_by(&Alone, alloc, scale, note, bytes)
}
