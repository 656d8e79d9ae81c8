//! The view of a report over a text.

ghost use Rattle.std.specs.Prelude.{◌≡◌, ℕ, List, Some, map, IfOk, IsErrOf};
ghost use Rattle.source_marks.specs.reading.Seen.{origin_seen};
ghost use Rattle.report_views.specs.declared.causes.Cause.{Cause as CauseOf};
ghost use Rattle.report_views.specs.Causes.{Answers, AreOrigins, IsCause, IsLogCause, IsMisplaced};
ghost use Rattle.report_views.specs.Causes.{IsReportOf};
ghost use Rattle.report_views.specs.Spots.{finding_of, spots_of};
ghost use Rattle.report_views.specs.Views.{form_text, has_alarm, IsShown, IsView};
ghost use Rattle.report_views.specs.reading.Seen.{spot_seen};

use crate::causes::Cause;
use crate::lines::spot_lines;
use crate::spots::{Finding, Spot, SpotFail, findings_of, spots_of};
use crate::summaries::summary;
use report_reading::{ReadFail, read_report};
use source_marks::{MarkFail, Origin, line_origins};
use std::alloc::{AllocError, Global};
use tm_terms::{Alarm, Report};

/// The most bytes of a report, and of a text that lists places.
pub const LONGEST_REPORT: usize = 67_108_864;

/// The most bytes of a text.
pub const LONGEST_TEXT: usize = 16_777_216;

/// The form of a view.
#[derive(Clone, Copy)]
pub enum Form {
    /// A line for each alarm, as compilers print it, and then their number.
    Lines,
    /// How many alarms each class has, and then the number of all.
    Summary,
}

/// A view: its text, and whether the report has an alarm.
#[derive(Drop)]
pub struct Reply {
    pub has_alarm: bool,
    pub text: Vec<u8>,
}

/// Why there is no view, or no log.
#[derive(Clone, Copy)]
pub enum ViewFail {
    /// What is given cannot be read.
    Refused(Cause),
    /// Memory ran out.
    NoMemory,
}

/// Alarms in their files, in a form.
fn formed(alloc: Global, form: Form, spots: &[Spot<'_>]) -> Result<Vec<u8>, AllocError>
    ensures { IfOk result (λ text. text.items ≡ form_text form (map spot_seen spots.now)) }
{
    match form {
        Form::Lines => spot_lines(alloc, spots),
        Form::Summary => summary(alloc, spots),
    }
}

/// The report that the bytes are.
pub fn read(alloc: Global, report: &[u8]) -> Result<Report, ViewFail>
    ensures ok { IfOk result (λ read. IsReportOf report.now read.alarms.items) }
    ensures refused { (cause : CauseOf) → IsErrOf result (ViewFail.Refused cause) →
        (name text : List ℕ) → IsCause name report.now text cause }
    ensures no_log { (cause : CauseOf) → IsErrOf result (ViewFail.Refused cause) →
        (name text : List ℕ) (answers : Answers) → answers.report ≡ report.now → IsLogCause name answers text cause }
{
    if report.len() > LONGEST_REPORT {
        return Err(ViewFail::Refused(Cause::LongReport));
    }
    match read_report(alloc, report) {
        Ok(report) => Ok(report),
        Err(ReadFail::NotJson) => Err(ViewFail::Refused(Cause::NotJson)),
        Err(ReadFail::NotReport) => Err(ViewFail::Refused(Cause::NotReport)),
        Err(ReadFail::NoMemory) => Err(ViewFail::NoMemory),
    }
}

/// The origins of the lines of a text.
pub fn traced<'a>(
    alloc: Global,
    name: &'a [u8],
    text: &'a [u8],
) -> Result<Vec<Origin<'a>>, ViewFail>
    ensures ok { IfOk result (λ origins. AreOrigins name.now text.now (map origin_seen origins.items)) }
    ensures refused { (cause : CauseOf) → IsErrOf result (ViewFail.Refused cause) →
        (report : List ℕ) → IsCause name.now report text.now cause }
    ensures no_log { (cause : CauseOf) → IsErrOf result (ViewFail.Refused cause) →
        (answers : Answers) → IsLogCause name.now answers text.now cause }
{
    if text.len() > LONGEST_TEXT {
        return Err(ViewFail::Refused(Cause::LongText));
    }
    match line_origins(alloc, name, text) {
        Ok(origins) => Ok(origins),
        Err(MarkFail::Broken(number)) => Err(ViewFail::Refused(Cause::BrokenMark(number))),
        Err(MarkFail::NoMemory) => Err(ViewFail::NoMemory),
    }
}

/// Findings in their files.
pub fn placed<'a>(
    alloc: Global,
    origins: &[Origin<'a>],
    findings: &[Finding],
) -> Result<Vec<Spot<'a>>, ViewFail>
    ensures ok { IfOk result (λ spots. spots_of (map origin_seen origins.now) findings.now
        ≡ Some (map spot_seen spots.items)) }
    ensures refused { (cause : CauseOf) → IsErrOf result (ViewFail.Refused cause) →
        IsMisplaced (map origin_seen origins.now) findings.now cause }
{
    match spots_of(alloc, origins, findings) {
        Ok(spots) => Ok(spots),
        Err(SpotFail::Outside(place)) => Err(ViewFail::Refused(Cause::Outside(place))),
        Err(SpotFail::NoMemory) => Err(ViewFail::NoMemory),
    }
}

/// The text of alarms in their files.
fn replied(alloc: Global, form: Form, spots: &[Spot<'_>]) -> Result<Reply, ViewFail>
    ensures ok { IfOk result (λ reply. (reply.has_alarm ≡ has_alarm (map spot_seen spots.now))
        × (reply.text.items ≡ form_text form (map spot_seen spots.now))) }
    ensures refused { (cause : CauseOf) → IsErrOf result (ViewFail.Refused cause) → ⊥ }
{
    match formed(alloc, form, spots) {
        Ok(text) => Ok(Reply {
            has_alarm: !spots.is_empty(),
            text,
        }),
        Err(_) => Err(ViewFail::NoMemory),
    }
}

/// The view of findings, by the origins of the lines of their text.
fn shown(
    alloc: Global,
    form: Form,
    origins: &[Origin<'_>],
    findings: &[Finding],
) -> Result<Reply, ViewFail>
    ensures ok { IfOk result (λ reply.
        IsShown form (map origin_seen origins.now) findings.now reply.has_alarm reply.text.items) }
    ensures refused { (cause : CauseOf) → IsErrOf result (ViewFail.Refused cause) →
        IsMisplaced (map origin_seen origins.now) findings.now cause }
{
    let spots = placed(alloc, origins, findings)?;
    replied(alloc, form, &spots)
}

/// What the alarms are, by their rules.
pub fn found(alloc: Global, alarms: &[Alarm]) -> Result<Vec<Finding>, ViewFail>
    ensures ok { IfOk result (λ findings. findings.items ≡ map finding_of alarms.now) }
    ensures refused { (cause : CauseOf) → IsErrOf result (ViewFail.Refused cause) → ⊥ }
{
    match findings_of(alloc, alarms) {
        Ok(findings) => Ok(findings),
        Err(_) => Err(ViewFail::NoMemory),
    }
}

/// The view of a report, as JSON, over the text that it is of, whose first file has the name that is spelled so.
pub fn view(
    alloc: Global,
    form: Form,
    name: &[u8],
    report: &[u8],
    text: &[u8],
) -> Result<Reply, ViewFail>
    // Each alarm of the report once, at the place that the line marks give, in this form.
    ensures ok { IfOk result (λ reply. IsView form name.now report.now text.now reply.has_alarm reply.text.items) }

    // What is refused has its cause.
    ensures refused { (cause : CauseOf) → IsErrOf result (ViewFail.Refused cause) →
        IsCause name.now report.now text.now cause }
{
    let read = read(alloc, report)?;
    let origins = traced(alloc, name, text)?;
    let findings = found(alloc, &read.alarms)?;
    shown(alloc, form, &origins, &findings)
}
