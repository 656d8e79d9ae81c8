//! The answers of `waits` and `ranges`: what the least solution of a source tells.

ghost use Rattle.std.specs.Prelude.{◌≡◌, ◌<◌, ◌++◌, IfOk, OnOk, length};
ghost use Rattle.tm_terms.specs.Texts.{refusal_text};
ghost use Rattle.value_ranges.specs.Ranges.{AreRanges};
ghost use Rattle.value_ranges.specs.Places.{AreDead};
ghost use Rattle.program_solutions.specs.program_equations.Solutions.{tables_of};
ghost use Rattle.program_solutions.specs.program_systems.ReadPrograms.{program_of};
ghost use Rattle.program_solutions.specs.LeastReports.{IsLeastPair};
ghost use Rattle.source_findings.specs.Findings.{HasFinding, waits_status};
ghost use Rattle.source_findings.specs.Tellings.{TellsOf, TellsRangesOf, TellsWaitsOf, bounds_line_of};

use certificate_check::source_program;
use lock_waits::circular;
use program_solutions::{Analysis, Solution, solution};
use program_streams::Status;
use solution_lines::{push_dead_places, push_range, waits_text};
use std::alloc::Global as Heap;
use tm_laid::LaidObject;
use tm_lattice::NoMemory;
use tm_terms::{Fail, Place, Refusal, refusal_line, text_of};
use value_ranges::{ObjectBounds, Ranges, least_ranges};

/// What is asked of a least solution.
#[derive(Clone, Copy)]
pub enum Finding {
    /// The places of locks at which tasks may wait for each other.
    Waits,
    /// The bounds of objects, and the dead places.
    Ranges,
}

/// A status and the whole text that goes with it. Names of objects stand in it byte for byte, as in the source.
#[derive(Drop)]
pub struct FindingReply {
    pub status: Status,
    pub text: Vec<u8>,
}

/// Whether there is a place at which tasks may wait.
fn waits_status(places: &[Place]) -> Status
    ensures { result ≡ waits_status places.now }
{
    if places.is_empty() {
        Status::NoAlarm
    } else {
        Status::Alarms
    }
}

/// What a least solution tells of locks.
fn waits_reply(alloc: Heap, analysis: &Analysis, found: &Solution) -> Result<FindingReply, NoMemory>
    requires { IsLeastPair (program_of analysis.now) found.now }
    ensures { IfOk result (λ reply. TellsWaitsOf (program_of analysis.now) found.now reply.status reply.text.items) }
{
    let (program, _) = analysis.parts();
    let places = circular(alloc, program, found.tables())?;
    let text = waits_text(alloc, &places)?;
    Ok(FindingReply {
        status: waits_status(&places),
        text: text.into_bytes(),
    })
}

/// Appends the line of an object.
fn push_bounds(
    alloc: Heap,
    text: &mut Vec<u8>,
    bytes: &[u8],
    objects: &[LaidObject],
    bounds: ObjectBounds,
) -> Result<(), NoMemory>
    requires { bounds.object < length objects.now }
    ensures { OnOk result (text.new.items ≡ text.old.items ++ bounds_line_of bytes.now objects.now bounds) }
{
    let object = objects[bounds.object as usize];
    push_range(
        alloc,
        text,
        object.place,
        text_of(bytes, object.name),
        bounds.low,
        bounds.high,
    )
}

/// What a least solution tells of objects and places, where its ranges and dead places are found.
pub fn told_ranges(
    alloc: Heap,
    bytes: &[u8],
    analysis: &Analysis,
    found: &Solution,
    ranges: &Ranges,
) -> Result<FindingReply, NoMemory>
    requires bounds { AreRanges (program_of analysis.now) (tables_of found.now.tables) found.now.store
        ranges.now.bounds.items }
    requires dead { AreDead (program_of analysis.now) (tables_of found.now.tables) ranges.now.dead.items }
    ensures { IfOk result (λ reply.
        TellsRangesOf (program_of analysis.now) bytes.now found.now reply.status reply.text.items) }
{
    let _found = found;
    let (program, _) = analysis.parts();
    let mut text = Vec::new(alloc);
    for bounds in &ranges.bounds {
        push_bounds(alloc, &mut text, bytes, &program.laid.objects, *bounds)?;
    }
    push_dead_places(alloc, &mut text, &ranges.dead)?;
    Ok(FindingReply {
        status: Status::NoAlarm,
        text,
    })
}

/// What a least solution tells of objects and places.
fn ranges_reply(
    alloc: Heap,
    bytes: &[u8],
    analysis: &Analysis,
    found: &Solution,
) -> Result<FindingReply, NoMemory>
    requires { IsLeastPair (program_of analysis.now) found.now }
    ensures { IfOk result (λ reply.
        TellsRangesOf (program_of analysis.now) bytes.now found.now reply.status reply.text.items) }
{
    let (program, facts) = analysis.parts();
    let ranges = least_ranges(alloc, program, facts, found.tables(), found.store())?;
    told_ranges(alloc, bytes, analysis, found, &ranges)
}

/// What is asked of a least solution. What that promises of the runs of a source of the program, the answer of
/// `finding_of` says.
pub fn told_of(
    alloc: Heap,
    finding: Finding,
    bytes: &[u8],
    analysis: &Analysis,
    found: &Solution,
) -> Result<FindingReply, NoMemory>
    requires { IsLeastPair (program_of analysis.now) found.now }
    ensures { IfOk result (λ reply.
        TellsOf finding (program_of analysis.now) bytes.now found.now reply.status reply.text.items) }
{
    match finding {
        Finding::Waits => waits_reply(alloc, analysis, found),
        Finding::Ranges => ranges_reply(alloc, bytes, analysis, found),
    }
}

/// The line of a refusal.
pub(crate) fn refused(alloc: Heap, refusal: Refusal) -> Result<FindingReply, NoMemory>
    ensures status { IfOk result (λ reply. reply.status ≡ Status.Refused) }
    ensures text { IfOk result (λ reply. reply.text.items ≡ refusal_text refusal) }
{
    let text = refusal_line(alloc, &refusal)?;
    Ok(FindingReply {
        status: Status::Refused,
        text: text.into_bytes(),
    })
}

/// The answer of `waits` or `ranges` to the bytes of a source: what its least solution tells, or its refusal. The
/// solution is that of one worker, with no numbers given as thresholds.
pub fn finding_of(alloc: Heap, finding: Finding, bytes: &[u8]) -> Result<FindingReply, NoMemory>
    ensures { IfOk result (λ reply. HasFinding finding bytes.now reply.status reply.text.items) }
{
    match source_program(alloc, bytes, &[]) {
        Ok(program) => {
            let analysis = Analysis::new(alloc, program)?;
            let found = solution(alloc, &analysis)?;
            told_of(alloc, finding, bytes, &analysis, &found)
        }
        Err(Fail::Refused(refusal)) => refused(alloc, refusal),
        Err(Fail::NoMemory) => Err(NoMemory),
    }
}
