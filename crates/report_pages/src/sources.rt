//! The lines of the text, each by the line of the file that it comes from.

ghost use Rattle.std.specs.Prelude.{◌≡◌, ◌++◌, map, OnOk};
ghost use Rattle.page_pieces.specs.Composed.{composed};
ghost use Rattle.page_pieces.specs.Pieces.{page_text};
ghost use Rattle.source_marks.specs.reading.Seen.{origin_seen};
ghost use Rattle.report_pages.specs.Sources.{line_pieces, line_rows, line_start};
ghost use Rattle.report_pages.specs.reading.Seen.{bytes_seen};

use crate::lines::line_at;
use page_pieces::{Markup, push_composed, push_markup, push_number, push_said};
use source_marks::Origin;
use std::alloc::{AllocError, Global};

/// The byte that stands for the mark of a line with a place that no run reaches.
const UNREACHED: u8 = 16;

/// The byte that stands for the begin of a note.
const NOTE: u8 = 30;

/// The byte that stands for the begin of a note on a place whose meaning C leaves open.
const OPEN: u8 = 13;

/// How a line begins whose remarks are these.
fn line_start(remark: &[u8]) -> Markup
    ensures { result ≡ line_start remark.now }
{
    if remark.is_empty() {
        return Markup::Line;
    }
    if remark[0] == UNREACHED {
        return Markup::Unreached;
    }
    if remark[0] == NOTE {
        return Markup::Noted;
    }
    if remark[0] == OPEN {
        Markup::Opened
    } else {
        Markup::Line
    }
}

/// Appends a line of the text, which begins so where it is shown.
fn push_line(
    alloc: Global,
    page: &mut Vec<u8>,
    start: Markup,
    number: u64,
    line: u64,
    shown: &[u8],
) -> Result<(), AllocError>
    ensures { OnOk result (page.new.items ≡ page.old.items ++ page_text (line_pieces start number line shown.now)) }
{
    if shown.is_empty() || shown[0] != b'+' {
        push_markup(page, Markup::Hidden)?;
        push_number(alloc, page, number)?;
        return push_markup(page, Markup::HiddenEnd);
    }
    push_markup(page, start)?;
    push_number(alloc, page, number)?;
    push_markup(page, Markup::Number)?;
    push_number(alloc, page, line)?;
    push_markup(page, Markup::Code)?;
    push_said(page, &shown[1..])?;
    push_markup(page, Markup::LineEnd)
}

/// Appends a line of the text, and the remarks behind it.
fn push_row(
    alloc: Global,
    page: &mut Vec<u8>,
    number: u64,
    origin: Origin<'_>,
    shown: &[u8],
    remark: &[u8],
) -> Result<(), AllocError>
    ensures { OnOk result (page.new.items ≡ page.old.items
        ++ page_text (line_pieces (line_start remark.now) number origin.entry.line shown.now ++ composed remark.now)) }
{
    push_line(alloc, page, line_start(remark), number, origin.line, shown)?;
    push_composed(page, remark)
}

/// Appends the lines of the text.
pub fn push_lines(
    alloc: Global,
    page: &mut Vec<u8>,
    origins: &[Origin<'_>],
    lines: &[&[u8]],
    remarks: &[&[u8]],
) -> Result<(), AllocError>
    ensures { OnOk result (page.new.items ≡ page.old.items ++ page_text (line_rows 1 (map origin_seen origins.now)
        (map bytes_seen lines.now) (map bytes_seen remarks.now))) }
{
    for i in 0..origins.len() {
        let shown = line_at(lines, i);
        let remark = line_at(remarks, i);
        push_row(alloc, page, i as u64 + 1, origins[i], shown, remark)?;
    }
    Ok(())
}
