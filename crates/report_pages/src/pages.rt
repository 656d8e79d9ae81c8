//! The page of a report.

ghost use Rattle.std.specs.Prelude.{◌≡◌, ◌++◌, length, map, IfOk, IsErrOf, OnOk};
ghost use Rattle.page_pieces.specs.Pieces.{page_text};
ghost use Rattle.source_marks.specs.reading.Seen.{origin_seen};
ghost use Rattle.source_marks.specs.Names.{decoded};
ghost use Rattle.report_views.specs.Causes.{IsCause, IsMisplaced};
ghost use Rattle.report_views.specs.declared.causes.Cause.{Cause as CauseOf};
ghost use Rattle.report_views.specs.reading.Seen.{spot_seen};
ghost use Rattle.report_pages.specs.Pages.{IsPage, IsShown, list_pieces, page_pieces, source_pieces, top_pieces};
ghost use Rattle.report_pages.specs.reading.Seen.{texts_seen};

use crate::lines::lines_of;
use crate::rows::push_alarms;
use crate::sources::push_lines;
use page_pieces::{Markup, push_composed, push_markup, push_number, push_said};
use report_views::{Finding, Spot, ViewFail, found, name_in, placed, read, traced};
use source_marks::Origin;
use std::alloc::{AllocError, Global};
use tm_lattice::NoMemory;

/// What a page is written from beside a report: the name of the file from which the first line of the text comes, as a
/// line mark spells it; the text; the tables before the list of alarms; a line of notes for each alarm; and for each
/// line of the text one that shows it behind `+`, and one of remarks. Tables, notes and remarks are composed texts.
#[derive(Clone, Copy)]
pub struct Texts<'a> {
    pub name: &'a [u8],
    pub text: &'a [u8],
    pub tables: &'a [u8],
    pub notes: &'a [u8],
    pub lines: &'a [u8],
    pub remarks: &'a [u8],
}

/// Appends the title, the name of the file and how many alarms there are.
fn push_top(alloc: Global, page: &mut Vec<u8>, name: &[u8], count: usize) -> Result<(), AllocError>
    ensures { OnOk result (page.new.items ≡ page.old.items ++ page_text (top_pieces name.now count)) }
{
    push_markup(page, Markup::Head)?;
    push_said(page, name)?;
    push_markup(page, Markup::Title)?;
    push_said(page, name)?;
    push_markup(page, Markup::Count)?;
    push_number(alloc, page, count as u64)?;
    push_markup(page, Markup::Navigation)
}

/// Appends the tables and the list of alarms.
fn push_list(
    alloc: Global,
    page: &mut Vec<u8>,
    texts: Texts<'_>,
    findings: &[Finding],
    spots: &[Spot<'_>],
) -> Result<(), AllocError>
    requires { length findings.now ≡ length spots.now }
    ensures { OnOk result (page.new.items ≡ page.old.items
        ++ page_text (list_pieces (texts_seen texts.entry) findings.now (map spot_seen spots.now))) }
{
    push_composed(page, texts.tables)?;
    push_markup(page, Markup::Alarms)?;
    let notes = lines_of(alloc, texts.notes)?;
    push_alarms(alloc, page, findings, spots, &notes)
}

/// Appends the lines of the text.
fn push_sources(
    alloc: Global,
    page: &mut Vec<u8>,
    name: &[u8],
    texts: Texts<'_>,
    origins: &[Origin<'_>],
) -> Result<(), AllocError>
    requires { name.now ≡ decoded texts.name.now }
    ensures { OnOk result (page.new.items ≡ page.old.items
        ++ page_text (source_pieces (texts_seen texts.entry) (map origin_seen origins.now))) }
{
    push_markup(page, Markup::Sources)?;
    push_said(page, name)?;
    push_markup(page, Markup::SummaryEnd)?;
    let lines = lines_of(alloc, texts.lines)?;
    let remarks = lines_of(alloc, texts.remarks)?;
    push_lines(alloc, page, origins, &lines, &remarks)?;
    push_markup(page, Markup::End)
}

/// The page of findings in their files.
fn written(
    alloc: Global,
    texts: Texts<'_>,
    origins: &[Origin<'_>],
    findings: &[Finding],
    spots: &[Spot<'_>],
) -> Result<Vec<u8>, AllocError>
    requires { length findings.now ≡ length spots.now }
    ensures { IfOk result (λ page. page.items ≡ page_text (page_pieces (texts_seen texts.entry)
        (map origin_seen origins.now) findings.now (map spot_seen spots.now))) }
{
    let mut page = Vec::new(alloc);
    let name = name_in(alloc, texts.name)?;
    push_top(alloc, &mut page, &name, findings.len())?;
    push_list(alloc, &mut page, texts, findings, spots)?;
    push_sources(alloc, &mut page, &name, texts, origins)?;
    Ok(page)
}

/// The page of findings, by the origins of the lines of their text.
fn shown(
    alloc: Global,
    texts: Texts<'_>,
    origins: &[Origin<'_>],
    findings: &[Finding],
) -> Result<Vec<u8>, ViewFail>
    ensures ok { IfOk result (λ page.
        IsShown (texts_seen texts.entry) (map origin_seen origins.now) findings.now page.items) }
    ensures refused { (cause : CauseOf) → IsErrOf result (ViewFail.Refused cause) →
        IsMisplaced (map origin_seen origins.now) findings.now cause }
{
    let spots = placed(alloc, origins, findings)?;
    match written(alloc, texts, origins, findings, &spots) {
        Ok(page) => Ok(page),
        Err(_) => Err(ViewFail::NoMemory),
    }
}

/// The page of a report, as JSON, over the text that it is of.
pub fn page(alloc: Global, report: &[u8], texts: Texts<'_>) -> Result<Vec<u8>, ViewFail>
    // Each alarm of the report once, at the place that the line marks give, and each line of the text, all of it in
    // markup of this program and in texts that are escaped.
    ensures ok { IfOk result (λ page. IsPage report.now (texts_seen texts.entry) page.items) }

    // What is refused has its cause.
    ensures refused { (cause : CauseOf) → IsErrOf result (ViewFail.Refused cause) →
        IsCause texts.entry.name.now report.now texts.entry.text.now cause }
{
    let read = read(alloc, report)?;
    let origins = traced(alloc, texts.name, texts.text)?;
    let findings = found(alloc, &read.alarms)?;
    shown(alloc, texts, &origins, &findings)
}
