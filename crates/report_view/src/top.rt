//! The view of a report, from streams to a stream.

ghost use Rattle.std.specs.Prelude.{◌≡◌, ◌≢◌, ◌⊎◌, Bool};
ghost use Rattle.std.specs.Io.KnownBytes.{append_known};
ghost use Rattle.tm_io.specs.Faults.{Rose};
ghost use Rattle.report_views.specs.Causes.{cause_text};
ghost use Rattle.report_view.specs.Answers.{Shows, ShowsNoMore, Tells};
ghost use Rattle.program_streams.specs.Statuses.{shown_status};
ghost use Rattle.program_streams.specs.Streams.{TakesFrontOf};

use crate::words::Asked;
use program_streams::{Status, read_whole, show as show_text, tell as tell_line, unread};
use report_views::{Cause, LONGEST_REPORT, LONGEST_TEXT, Reply, ViewFail, cause_line, view};
use std::alloc::Global;
use tm_io::{Sink, Source};
use tm_lattice::NoMemory;

/// Writes a view, and says whether it was taken whole and the report has an alarm.
fn show<K: Sink>(out: &mut K, reply: &Reply) -> Status
    ensures whole { (alarm : Bool) → result ≡ shown_status alarm → (alarm ≡ reply.now.has_alarm)
        × (K.taken out.new ≡ append_known (K.taken out.old) reply.now.text.items) }
    ensures front { TakesFrontOf reply.now.text.items (K.taken out.old) (K.taken out.new) }
    ensures write { result ≡ Status.WriteFault → Rose (K.faults out.old) (K.faults out.new) }
    ensures others { (result ≢ Status.Refused) × (result ≢ Status.Usage) × (result ≢ Status.ReadFault) }
{
    show_text(out, &reply.text, reply.has_alarm)
}

/// Writes why there is no view, or no log.
pub fn tell<E: Sink>(alloc: Global, told: &mut E, cause: Cause) -> Status
    ensures whole { result ≡ Status.Refused → E.taken told.new ≡ append_known (E.taken told.old) (cause_text cause) }
    ensures write { result ≡ Status.WriteFault → Rose (E.faults told.old) (E.faults told.new) }
    ensures others { (alarm : Bool) → result ≢ shown_status alarm }
    ensures other_faults { (result ≢ Status.Usage) × (result ≢ Status.ReadFault) }
{
    match cause_line(alloc, cause) {
        Ok(line) => tell_line(told, line.as_bytes()),
        Err(NoMemory) => Status::NoMemory,
    }
}

/// Writes the view of a report over a text to `out`, or to `told` why there is none. The view is made whole before its
/// first byte is written.
pub fn answer<R: Source, T: Source, K: Sink, E: Sink>(
    alloc: Global,
    asked: Asked<'_>,
    report: &mut R,
    text: &mut T,
    out: &mut K,
    told: &mut E,
) -> Status
    // Status 0 or 1: `out` has taken the view of the report, in which each of its alarms stands once, at the place that
    // the line marks of the text give; the status says whether there is one.
    ensures shown { (alarm : Bool) → result ≡ shown_status alarm → Shows asked.entry.form asked.entry.name.now
        (R.left report.old) (R.left report.new) (T.left text.old) (T.left text.new) alarm (K.taken out.old)
        (K.taken out.new) }

    // Status 2: there is no view, `told` has taken why, and `out` nothing.
    ensures refused { result ≡ Status.Refused → Tells asked.entry.form asked.entry.name.now
        (R.left report.old) (R.left report.new) (T.left text.old) (T.left text.new) (E.taken told.old)
        (E.taken told.new)
        × (K.taken out.new ≡ K.taken out.old) }

    // Whatever comes, `out` has taken nothing, or a front of the view.
    ensures front { ShowsNoMore asked.entry.form asked.entry.name.now (R.left report.old) (R.left report.new)
        (T.left text.old) (T.left text.new) (K.taken out.old) (K.taken out.new) }

    // A fault comes only where a count of faults rose. After a read fault nothing is taken.
    ensures read { result ≡ Status.ReadFault → (Rose (R.faults report.old) (R.faults report.new)
        ⊎ Rose (T.faults text.old) (T.faults text.new)) × (K.taken out.new ≡ K.taken out.old) }
    ensures write { result ≡ Status.WriteFault → Rose (K.faults out.old) (K.faults out.new)
        ⊎ Rose (E.faults told.old) (E.faults told.new) }
    ensures usage { result ≢ Status.Usage }
{
    let mut report_bytes = Vec::new(alloc);
    if let Err(error) = read_whole(report, &mut report_bytes, LONGEST_REPORT + 1) {
        return unread(error);
    }
    let mut text_bytes = Vec::new(alloc);
    if let Err(error) = read_whole(text, &mut text_bytes, LONGEST_TEXT + 1) {
        return unread(error);
    }
    match view(
        alloc,
        asked.form,
        asked.name.as_bytes(),
        &report_bytes,
        &text_bytes,
    ) {
        Ok(reply) => show(out, &reply),
        Err(ViewFail::Refused(cause)) => tell(alloc, told, cause),
        Err(ViewFail::NoMemory) => Status::NoMemory,
    }
}
