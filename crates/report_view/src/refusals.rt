//! The log of a refusal, from streams to a stream.

ghost use Rattle.std.specs.Prelude.{◌≡◌, ◌≢◌, ◌⊎◌, IfOk, IsErrOf};
ghost use Rattle.std.specs.Io.KnownBytes.{append_known};
ghost use Rattle.tm_io.specs.Faults.{Rose};
ghost use Rattle.report_logs.specs.Refusals.{refusal_text};
ghost use Rattle.report_logs.specs.reading.Seen.{refusal_seen};
ghost use Rattle.report_view.specs.Answers.{BothAreRead, LogsRefusal, LogsRefusalNoMore};
ghost use Rattle.program_streams.specs.Streams.{TakesFrontOf};

use crate::readings::read_one;
use crate::words::AskedRefusal;
use program_streams::{InputError, Status, give, unread};
use report_logs::{Frame, Refusal, refusal_log};
use report_views::{LONGEST_REPORT, LONGEST_TEXT};
use std::alloc::Global;
use tm_io::{Sink, Source};
use tm_lattice::NoMemory;

/// The log of a refusal that is asked for, of what was read.
fn log_of(
    alloc: Global,
    asked: AskedRefusal<'_>,
    refusal: Refusal<'_>,
    text: &[u8],
    lines: &[u8],
) -> Result<Vec<u8>, NoMemory>
    ensures { IfOk result (λ log. log.items ≡ refusal_text asked.entry.documents.now asked.entry.name.now text.now
        lines.now (refusal_seen refusal.entry)) }
{
    let frame = Frame {
        documents: asked.documents.as_bytes(),
        folder: b"",
        name: asked.name.as_bytes(),
        text,
        lines,
    };
    refusal_log(alloc, frame, refusal)
}

/// The texts from which the log of a refusal is made.
#[derive(Drop)]
struct Refused {
    text: Vec<u8>,
    lines: Vec<u8>,
}

/// The texts from which the log of a refusal is made, each to the end of its stream, or past the most that it may have.
fn read_refused<T: Source, L: Source>(
    alloc: Global,
    text: &mut T,
    lines: &mut L,
) -> Result<Refused, InputError>
    ensures read { IfOk result (λ refused. BothAreRead (T.left text.old) (T.left text.new)
        (L.left lines.old) (L.left lines.new) refused.text.items refused.lines.items) }
    ensures failed { IsErrOf result InputError.Failed → Rose (T.faults text.old) (T.faults text.new)
        ⊎ Rose (L.faults lines.old) (L.faults lines.new) }
{
    let text = read_one(alloc, text, LONGEST_TEXT + 1)?;
    let lines = read_one(alloc, lines, LONGEST_REPORT + 1)?;
    Ok(Refused { text, lines })
}

/// Writes the log of a refusal of what was read to `out`. The log is made whole before its first byte is written.
fn tell_refusal<K: Sink>(
    alloc: Global,
    asked: AskedRefusal<'_>,
    refusal: Refusal<'_>,
    refused: &Refused,
    out: &mut K,
) -> Status
    ensures logged { result ≡ Status.NoAlarm → K.taken out.new ≡ append_known (K.taken out.old)
        (refusal_text asked.entry.documents.now asked.entry.name.now refused.now.text.items refused.now.lines.items
        (refusal_seen refusal.entry)) }
    ensures front { (K.taken out.new ≡ K.taken out.old) ⊎ TakesFrontOf (refusal_text asked.entry.documents.now
        asked.entry.name.now refused.now.text.items refused.now.lines.items (refusal_seen refusal.entry))
        (K.taken out.old) (K.taken out.new) }
    ensures write { result ≡ Status.WriteFault → Rose (K.faults out.old) (K.faults out.new) }
    ensures others { (result ≢ Status.Usage) × (result ≢ Status.Alarms) × (result ≢ Status.Refused)
        × (result ≢ Status.ReadFault) }
{
    match log_of(alloc, asked, refusal, &refused.text, &refused.lines) {
        Ok(log) => give(out, &log),
        Err(NoMemory) => Status::NoMemory,
    }
}

/// Writes the log of a refusal of a text to `out`. The log is made whole before its first byte is written.
pub fn answer_refusal<T: Source, L: Source, K: Sink>(
    alloc: Global,
    asked: AskedRefusal<'_>,
    refusal: Refusal<'_>,
    text: &mut T,
    lines: &mut L,
    out: &mut K,
) -> Status
    // Status 0: `out` has taken the log, which tells of the refusal, at the place that the line marks of the text give.
    ensures logged { result ≡ Status.NoAlarm → LogsRefusal (T.left text.old) (T.left text.new)
        (L.left lines.old) (L.left lines.new) asked.entry.documents.now asked.entry.name.now
        (refusal_seen refusal.entry) (K.taken out.old) (K.taken out.new) }

    // Whatever comes, `out` has taken nothing, or a front of the log.
    ensures front { LogsRefusalNoMore (T.left text.old) (T.left text.new)
        (L.left lines.old) (L.left lines.new) asked.entry.documents.now asked.entry.name.now
        (refusal_seen refusal.entry) (K.taken out.old) (K.taken out.new) }

    // A fault comes only where a count of faults rose. After a read fault nothing is taken.
    ensures read { result ≡ Status.ReadFault → (Rose (T.faults text.old) (T.faults text.new)
        ⊎ Rose (L.faults lines.old) (L.faults lines.new)) × (K.taken out.new ≡ K.taken out.old) }
    ensures write { result ≡ Status.WriteFault → Rose (K.faults out.old) (K.faults out.new) }
    ensures others { (result ≢ Status.Usage) × (result ≢ Status.Alarms) × (result ≢ Status.Refused) }
{
    match read_refused(alloc, text, lines) {
        Ok(refused) => tell_refusal(alloc, asked, refusal, &refused, out),
        Err(error) => unread(error),
    }
}
