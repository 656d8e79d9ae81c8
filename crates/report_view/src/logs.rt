//! The log of a report, its waits, its dead places, the assumptions and what is told of its alarms, from streams to a
//! stream.

ghost use Rattle.std.specs.Prelude.{◌≡◌, ◌≢◌, ◌⊎◌, IfOk, IsErrOf};
ghost use Rattle.tm_io.specs.Faults.{Rose};
ghost use Rattle.report_views.specs.Causes.{IsLogCause};
ghost use Rattle.report_views.specs.declared.causes.Cause.{Cause as CauseOf};
ghost use Rattle.report_logs.specs.Logs.{IsLog};
ghost use Rattle.report_view.specs.Answers.{Logs, LogsFront, LogsNoMore, LogsWhole, TellsCause, TellsNoLog};
ghost use Rattle.report_view.specs.reading.Seen.{answers_read};

use crate::readings::{Readings, read_texts};
use crate::top::tell;
use crate::words::AskedLog;
use program_streams::{Status, give, unread};
use report_logs::{Answers, Frame, log};
use report_views::ViewFail;
use std::alloc::Global;
use tm_io::{Sink, Source};

/// The log that is asked for, of what was read.
fn log_of(alloc: Global, asked: AskedLog<'_>, readings: &Readings) -> Result<Vec<u8>, ViewFail>
    ensures ok { IfOk result (λ log. IsLog asked.entry.documents.now asked.entry.folder.now asked.entry.name.now
        (answers_read readings.now) readings.now.text.items readings.now.lines.items log.items) }
    ensures refused { (cause : CauseOf) → IsErrOf result (ViewFail.Refused cause) →
        IsLogCause asked.entry.name.now (answers_read readings.now) readings.now.text.items cause }
{
    let frame = Frame {
        documents: asked.documents.as_bytes(),
        folder: asked.folder.as_bytes(),
        name: asked.name.as_bytes(),
        text: &readings.text,
        lines: &readings.lines,
    };
    let answers = Answers {
        report: &readings.report,
        waits: &readings.waits,
        dead: &readings.dead,
        assumptions: &readings.assumptions,
        ways: &readings.ways,
    };
    log(alloc, frame, answers)
}

/// Writes the log of what was read to `out`, or to `told` why there is none. The log is made whole before its first byte
/// is written.
fn tell_log<K: Sink, E: Sink>(
    alloc: Global,
    asked: AskedLog<'_>,
    readings: &Readings,
    out: &mut K,
    told: &mut E,
) -> Status
    ensures logged { result ≡ Status.NoAlarm → LogsWhole asked.entry.documents.now asked.entry.folder.now
        asked.entry.name.now (answers_read readings.now) readings.now.text.items readings.now.lines.items
        (K.taken out.old) (K.taken out.new) }
    ensures refused { result ≡ Status.Refused → TellsCause asked.entry.documents.now asked.entry.folder.now
        asked.entry.name.now (answers_read readings.now) readings.now.text.items readings.now.lines.items
        (E.taken told.old) (E.taken told.new)
        × (K.taken out.new ≡ K.taken out.old) }
    ensures front { (K.taken out.new ≡ K.taken out.old) ⊎ LogsFront asked.entry.documents.now asked.entry.folder.now
        asked.entry.name.now (answers_read readings.now) readings.now.text.items readings.now.lines.items
        (K.taken out.old) (K.taken out.new) }
    ensures write { result ≡ Status.WriteFault → Rose (K.faults out.old) (K.faults out.new)
        ⊎ Rose (E.faults told.old) (E.faults told.new) }
    ensures others { (result ≢ Status.Usage) × (result ≢ Status.Alarms) × (result ≢ Status.ReadFault) }
{
    match log_of(alloc, asked, readings) {
        Ok(log) => give(out, &log),
        Err(ViewFail::Refused(cause)) => tell(alloc, told, cause),
        Err(ViewFail::NoMemory) => Status::NoMemory,
    }
}

/// Writes the log of a report, of its waits, of its dead places and of the assumptions over a text to `out`, with what is
/// told of each alarm, or to `told` why there is none. The log is made whole before its first byte is written.
pub fn answer_log<
    R: Source,
    T: Source,
    W: Source,
    D: Source,
    A: Source,
    P: Source,
    L: Source,
    K: Sink,
    E: Sink,
>(
    alloc: Global,
    asked: AskedLog<'_>,
    report: &mut R,
    text: &mut T,
    waits: &mut W,
    dead: &mut D,
    assumptions: &mut A,
    ways: &mut P,
    lines: &mut L,
    out: &mut K,
    told: &mut E,
) -> Status
    // Status 0: `out` has taken the log, in which each alarm of the report, each lock that the waits list, each dead
    // place and each assumption has one result, at the place that the line marks of the text give.
    ensures logged { result ≡ Status.NoAlarm → Logs (R.left report.old) (R.left report.new)
        (T.left text.old) (T.left text.new) (W.left waits.old) (W.left waits.new) (D.left dead.old) (D.left dead.new)
        (A.left assumptions.old) (A.left assumptions.new) (P.left ways.old) (P.left ways.new)
        (L.left lines.old) (L.left lines.new) asked.entry.documents.now asked.entry.folder.now asked.entry.name.now
        (K.taken out.old) (K.taken out.new) }

    // Status 2: there is no log, `told` has taken why, and `out` nothing.
    ensures refused { result ≡ Status.Refused → TellsNoLog (R.left report.old) (R.left report.new)
        (T.left text.old) (T.left text.new) (W.left waits.old) (W.left waits.new) (D.left dead.old) (D.left dead.new)
        (A.left assumptions.old) (A.left assumptions.new) (P.left ways.old) (P.left ways.new)
        (L.left lines.old) (L.left lines.new) asked.entry.documents.now asked.entry.folder.now asked.entry.name.now
        (E.taken told.old) (E.taken told.new)
        × (K.taken out.new ≡ K.taken out.old) }

    // Whatever comes, `out` has taken nothing, or a front of the log.
    ensures front { LogsNoMore (R.left report.old) (R.left report.new)
        (T.left text.old) (T.left text.new) (W.left waits.old) (W.left waits.new) (D.left dead.old) (D.left dead.new)
        (A.left assumptions.old) (A.left assumptions.new) (P.left ways.old) (P.left ways.new)
        (L.left lines.old) (L.left lines.new) asked.entry.documents.now asked.entry.folder.now asked.entry.name.now
        (K.taken out.old) (K.taken out.new) }

    // A fault comes only where a count of faults rose. After a read fault nothing is taken.
    ensures read { result ≡ Status.ReadFault → (Rose (R.faults report.old) (R.faults report.new)
        ⊎ (Rose (T.faults text.old) (T.faults text.new) ⊎ (Rose (W.faults waits.old) (W.faults waits.new)
        ⊎ (Rose (D.faults dead.old) (D.faults dead.new) ⊎ (Rose (A.faults assumptions.old) (A.faults assumptions.new)
        ⊎ (Rose (P.faults ways.old) (P.faults ways.new) ⊎ Rose (L.faults lines.old) (L.faults lines.new)))))))
        × (K.taken out.new ≡ K.taken out.old) }
    ensures write { result ≡ Status.WriteFault → Rose (K.faults out.old) (K.faults out.new)
        ⊎ Rose (E.faults told.old) (E.faults told.new) }
    ensures others { (result ≢ Status.Usage) × (result ≢ Status.Alarms) }
{
    match read_texts(alloc, report, text, waits, dead, assumptions, ways, lines) {
        Ok(readings) => tell_log(alloc, asked, &readings, out, told),
        Err(error) => unread(error),
    }
}
