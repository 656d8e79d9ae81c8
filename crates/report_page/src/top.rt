//! The page of a report, from streams to a stream.

ghost use Rattle.std.specs.Prelude.{◌≡◌, ◌≢◌, ◌⊎◌};
ghost use Rattle.std.specs.Io.KnownBytes.{append_known};
ghost use Rattle.tm_io.specs.Faults.{Rose};
ghost use Rattle.report_views.specs.Causes.{cause_text};
ghost use Rattle.report_page.specs.Answers.{Shows, ShowsNoMore, Tells};

use crate::words::Asked;
use program_streams::{Status, give, read_whole, tell as tell_line, unread};
use report_pages::{Texts, page};
use report_views::{Cause, LONGEST_REPORT, LONGEST_TEXT, ViewFail, cause_line};
use std::alloc::Global;
use tm_io::{Sink, Source};
use tm_lattice::NoMemory;

/// Writes why there is no page.
fn tell<E: Sink>(alloc: Global, told: &mut E, cause: Cause) -> Status
    ensures whole { result ≡ Status.Refused → E.taken told.new ≡ append_known (E.taken told.old) (cause_text cause) }
    ensures write { result ≡ Status.WriteFault → Rose (E.faults told.old) (E.faults told.new) }
    ensures others { (result ≢ Status.NoAlarm) × (result ≢ Status.Usage) × (result ≢ Status.ReadFault)
        × (result ≢ Status.Alarms) }
{
    match cause_line(alloc, cause) {
        Ok(line) => tell_line(told, line.as_bytes()),
        Err(NoMemory) => Status::NoMemory,
    }
}

/// Writes the page of a report over a text to `out`, or to `told` why there is none. The page is made whole before its
/// first byte is written.
pub fn answer<R: Source, T: Source, A: Source, N: Source, L: Source, M: Source, K: Sink, E: Sink>(
    alloc: Global,
    asked: Asked<'_>,
    report: &mut R,
    text: &mut T,
    tables: &mut A,
    notes: &mut N,
    lines: &mut L,
    remarks: &mut M,
    out: &mut K,
    told: &mut E,
) -> Status
    // Status 0: `out` has taken the page, on which each alarm of the report stands once in the list of alarms.
    ensures shown { result ≡ Status.NoAlarm → Shows asked.entry.name.now (R.left report.old) (R.left report.new)
        (T.left text.old) (T.left text.new) (A.left tables.old) (A.left tables.new)
        (N.left notes.old) (N.left notes.new) (L.left lines.old) (L.left lines.new)
        (M.left remarks.old) (M.left remarks.new)
        (K.taken out.old) (K.taken out.new) }

    // Status 2: there is no page, `told` has taken why, and `out` nothing.
    ensures refused { result ≡ Status.Refused → Tells asked.entry.name.now (R.left report.old) (R.left report.new)
        (T.left text.old) (T.left text.new) (A.left tables.old) (A.left tables.new)
        (N.left notes.old) (N.left notes.new) (L.left lines.old) (L.left lines.new)
        (M.left remarks.old) (M.left remarks.new)
        (E.taken told.old) (E.taken told.new)
        × (K.taken out.new ≡ K.taken out.old) }

    // Whatever comes, `out` has taken nothing, or a front of the page.
    ensures front { ShowsNoMore asked.entry.name.now (R.left report.old) (R.left report.new)
        (T.left text.old) (T.left text.new) (A.left tables.old) (A.left tables.new)
        (N.left notes.old) (N.left notes.new) (L.left lines.old) (L.left lines.new)
        (M.left remarks.old) (M.left remarks.new)
        (K.taken out.old) (K.taken out.new) }

    // A fault comes only where a count of faults rose. After a read fault nothing is taken.
    ensures read { result ≡ Status.ReadFault → (Rose (R.faults report.old) (R.faults report.new)
        ⊎ (Rose (T.faults text.old) (T.faults text.new)
        ⊎ (Rose (A.faults tables.old) (A.faults tables.new)
        ⊎ (Rose (N.faults notes.old) (N.faults notes.new)
        ⊎ (Rose (L.faults lines.old) (L.faults lines.new)
        ⊎ Rose (M.faults remarks.old) (M.faults remarks.new))))))
        × (K.taken out.new ≡ K.taken out.old) }
    ensures write { result ≡ Status.WriteFault → Rose (K.faults out.old) (K.faults out.new)
        ⊎ Rose (E.faults told.old) (E.faults told.new) }
    ensures others { (result ≢ Status.Usage) × (result ≢ Status.Alarms) }
{
    let mut report_bytes = Vec::new(alloc);
    if let Err(error) = read_whole(report, &mut report_bytes, LONGEST_REPORT + 1) {
        return unread(error);
    }
    let mut text_bytes = Vec::new(alloc);
    if let Err(error) = read_whole(text, &mut text_bytes, LONGEST_TEXT + 1) {
        return unread(error);
    }
    let mut tables_bytes = Vec::new(alloc);
    if let Err(error) = read_whole(tables, &mut tables_bytes, LONGEST_REPORT + 1) {
        return unread(error);
    }
    let mut notes_bytes = Vec::new(alloc);
    if let Err(error) = read_whole(notes, &mut notes_bytes, LONGEST_REPORT + 1) {
        return unread(error);
    }
    let mut lines_bytes = Vec::new(alloc);
    if let Err(error) = read_whole(lines, &mut lines_bytes, LONGEST_REPORT + 1) {
        return unread(error);
    }
    let mut remarks_bytes = Vec::new(alloc);
    if let Err(error) = read_whole(remarks, &mut remarks_bytes, LONGEST_REPORT + 1) {
        return unread(error);
    }
    let texts = Texts {
        name: asked.name.as_bytes(),
        text: &text_bytes,
        tables: &tables_bytes,
        notes: &notes_bytes,
        lines: &lines_bytes,
        remarks: &remarks_bytes,
    };
    match page(alloc, &report_bytes, texts) {
        Ok(page) => give(out, &page),
        Err(ViewFail::Refused(cause)) => tell(alloc, told, cause),
        Err(ViewFail::NoMemory) => Status::NoMemory,
    }
}
