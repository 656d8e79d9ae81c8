//! The list of alarms.

ghost use Rattle.std.specs.Prelude.{◌≡◌, ◌++◌, length, map, IfOk, OnOk, string_bytes};
ghost use Rattle.page_pieces.specs.Pieces.{page_text};
ghost use Rattle.report_views.specs.reading.Seen.{spot_seen};
ghost use Rattle.report_pages.specs.Rows.{alarm_row, alarm_rows, place_pieces, rule_pieces, spot_place};
ghost use Rattle.report_pages.specs.reading.Seen.{bytes_seen};

use crate::lines::line_at;
use page_pieces::{Markup, push_composed, push_markup, push_number, push_said};
use report_views::{Finding, Spot, name_in, rule_sentence, rule_word};
use std::alloc::{AllocError, Global};

/// The line and the column of an alarm in its file.
fn spot_place(alloc: Global, spot: Spot<'_>) -> Result<String, AllocError>
    ensures { IfOk result (λ text. string_bytes text ≡ spot_place (spot_seen spot.entry)) }
{
    let line = spot.origin.line;
    let col = spot.col;
    format!(in alloc; ":{line}:{col}")
}

/// Appends the place of an alarm at a line of the text.
fn push_place(
    alloc: Global,
    page: &mut Vec<u8>,
    number: u32,
    spot: Spot<'_>,
) -> Result<(), AllocError>
    ensures { OnOk result (page.new.items ≡ page.old.items ++ page_text (place_pieces number (spot_seen spot.entry))) }
{
    push_markup(page, Markup::Alarm)?;
    push_number(alloc, page, u64::from(number))?;
    push_markup(page, Markup::Linked)?;
    let name = name_in(alloc, spot.origin.name)?;
    push_said(page, &name)?;
    let place = spot_place(alloc, spot)?;
    push_said(page, place.as_bytes())
}

/// Appends the class of an alarm, and what it says.
fn push_rule(page: &mut Vec<u8>, spot: Spot<'_>) -> Result<(), AllocError>
    ensures { OnOk result (page.new.items ≡ page.old.items ++ page_text (rule_pieces (spot_seen spot.entry))) }
{
    push_markup(page, Markup::Rule)?;
    push_said(page, rule_word(spot.rule).as_bytes())?;
    push_markup(page, Markup::Sentence)?;
    push_said(page, rule_sentence(spot.rule).as_bytes())
}

/// Appends the row of an alarm.
fn push_alarm(
    alloc: Global,
    page: &mut Vec<u8>,
    number: u32,
    spot: Spot<'_>,
    note: &[u8],
) -> Result<(), AllocError>
    ensures { OnOk result (page.new.items
        ≡ page.old.items ++ page_text (alarm_row number (spot_seen spot.entry) note.now)) }
{
    push_place(alloc, page, number, spot)?;
    push_rule(page, spot)?;
    push_composed(page, note)?;
    push_markup(page, Markup::AlarmEnd)
}

/// Appends a row for each alarm.
pub fn push_alarms(
    alloc: Global,
    page: &mut Vec<u8>,
    findings: &[Finding],
    spots: &[Spot<'_>],
    notes: &[&[u8]],
) -> Result<(), AllocError>
    requires { length findings.now ≡ length spots.now }
    ensures { OnOk result (page.new.items ≡ page.old.items
        ++ page_text (alarm_rows findings.now (map spot_seen spots.now) (map bytes_seen notes.now))) }
{
    for i in 0..spots.len() {
        let note = line_at(notes, i);
        push_alarm(alloc, page, findings[i].place.line, spots[i], note)?;
    }
    Ok(())
}
