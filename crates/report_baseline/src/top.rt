//! A log by an old one, from streams to a stream.

ghost use Rattle.std.specs.Prelude.{◌≡◌, ◌≢◌, ◌⊎◌, Bool, IfOk, IsErrOf, option_map};
ghost use Rattle.std.specs.Io.KnownBytes.{append_known};
ghost use Rattle.tm_io.specs.Faults.{Rose};
ghost use Rattle.log_baselines.specs.Causes.{IsCause, cause_text};
ghost use Rattle.log_baselines.specs.declared.causes.Cause.{Cause as CauseOf};
ghost use Rattle.report_baseline.specs.Answers.{IsAnswer, Shows, ShowsNoMore, Tells, old_of};
ghost use Rattle.report_baseline.specs.reading.Seen.{IsFormed};
ghost use Rattle.program_streams.specs.Statuses.{shown_status};
ghost use Rattle.program_streams.specs.Streams.{TakesFrontOf};

use crate::words::Form;
use log_baselines::{BaselineFail, Cause, LONGEST_LOG, Outcome, baseline, cause_line};
use program_streams::{Status, read_whole, show as show_text, tell as tell_line, unread};
use std::alloc::Global;
use tm_io::{Sink, Source};

/// An answer, and whether a result that is to be mended is new and not suppressed.
#[derive(Drop)]
struct Reply {
    text: Vec<u8>,
    is_worse: bool,
}

/// Writes an answer, and says whether it was taken whole and a result is new.
fn show<K: Sink>(out: &mut K, reply: &Reply) -> Status
    ensures whole { (worse : Bool) → result ≡ shown_status worse → (worse ≡ reply.now.is_worse)
        × (K.taken out.new ≡ append_known (K.taken out.old) reply.now.text.items) }
    ensures front { TakesFrontOf reply.now.text.items (K.taken out.old) (K.taken out.new) }
    ensures write { result ≡ Status.WriteFault → Rose (K.faults out.old) (K.faults out.new) }
    ensures others { (result ≢ Status.Refused) × (result ≢ Status.Usage) × (result ≢ Status.ReadFault) }
{
    show_text(out, &reply.text, reply.is_worse)
}

/// Writes why there is no answer.
fn tell<E: Sink>(alloc: Global, told: &mut E, cause: Cause) -> Status
    ensures whole { result ≡ Status.Refused → E.taken told.new ≡ append_known (E.taken told.old) (cause_text cause) }
    ensures write { result ≡ Status.WriteFault → Rose (E.faults told.old) (E.faults told.new) }
    ensures others { (worse : Bool) → result ≢ shown_status worse }
    ensures other_faults { (result ≢ Status.Usage) × (result ≢ Status.ReadFault) }
{
    match cause_line(alloc, cause) {
        Ok(line) => tell_line(told, line.as_bytes()),
        Err(_) => Status::NoMemory,
    }
}

/// The old log, where there is one: no bytes are none.
fn old_in(old: &[u8]) -> Option<&[u8]>
    ensures { option_map (λ bytes. bytes.now) result ≡ old_of old.now }
{
    if old.is_empty() { None } else { Some(old) }
}

/// What comes out in a form.
fn formed(form: Form, outcome: Outcome) -> Reply
    ensures { IsFormed form outcome result }
{
    match form {
        Form::Log => Reply {
            text: outcome.log,
            is_worse: outcome.is_worse,
        },
        Form::Standings => Reply {
            text: outcome.standings,
            is_worse: outcome.is_worse,
        },
    }
}

/// The answer for what was read.
fn reply_to(
    alloc: Global,
    form: Form,
    new: &[u8],
    remarks: &[u8],
    old: &[u8],
) -> Result<Reply, BaselineFail>
    ensures ok { IfOk result (λ reply. IsAnswer form new.now remarks.now old.now reply.is_worse reply.text.items) }
    ensures refused { (cause : CauseOf) → IsErrOf result (BaselineFail.Refused cause) →
        IsCause new.now remarks.now (old_of old.now) cause }
{
    match baseline(alloc, new, remarks, old_in(old)) {
        Ok(outcome) => Ok(formed(form, outcome)),
        Err(fail) => Err(fail),
    }
}

/// Writes the log that comes out of a new log by an old one, or where its results stand, to `out`, or to `told` why there
/// is no such log. The answer is made whole before its first byte is written.
pub fn answer<N: Source, R: Source, O: Source, K: Sink, E: Sink>(
    alloc: Global,
    form: Form,
    new: &mut N,
    remarks: &mut R,
    old: &mut O,
    out: &mut K,
    told: &mut E,
) -> Status
    // Status 0 or 1: `out` has taken the log, or where its results stand; the status says whether one that is to be mended
    // is new and not suppressed.
    ensures shown { (worse : Bool) → result ≡ shown_status worse → Shows form (N.left new.old) (N.left new.new)
        (R.left remarks.old) (R.left remarks.new) (O.left old.old) (O.left old.new) worse (K.taken out.old)
        (K.taken out.new) }

    // Status 2: there is no log, `told` has taken why, and `out` nothing.
    ensures refused { result ≡ Status.Refused → Tells form (N.left new.old) (N.left new.new)
        (R.left remarks.old) (R.left remarks.new) (O.left old.old) (O.left old.new) (E.taken told.old)
        (E.taken told.new)
        × (K.taken out.new ≡ K.taken out.old) }

    // Whatever comes, `out` has taken nothing, or a front of the answer.
    ensures front { ShowsNoMore form (N.left new.old) (N.left new.new) (R.left remarks.old) (R.left remarks.new)
        (O.left old.old) (O.left old.new) (K.taken out.old) (K.taken out.new) }

    // A fault comes only where a count of faults rose. After a read fault nothing is taken.
    ensures read { result ≡ Status.ReadFault → (Rose (N.faults new.old) (N.faults new.new)
        ⊎ (Rose (R.faults remarks.old) (R.faults remarks.new) ⊎ Rose (O.faults old.old) (O.faults old.new)))
        × (K.taken out.new ≡ K.taken out.old) }
    ensures write { result ≡ Status.WriteFault → Rose (K.faults out.old) (K.faults out.new)
        ⊎ Rose (E.faults told.old) (E.faults told.new) }
    ensures usage { result ≢ Status.Usage }
{
    let mut new_bytes = Vec::new(alloc);
    if let Err(error) = read_whole(new, &mut new_bytes, LONGEST_LOG + 1) {
        return unread(error);
    }
    let mut remarks_bytes = Vec::new(alloc);
    if let Err(error) = read_whole(remarks, &mut remarks_bytes, LONGEST_LOG + 1) {
        return unread(error);
    }
    let mut old_bytes = Vec::new(alloc);
    if let Err(error) = read_whole(old, &mut old_bytes, LONGEST_LOG + 1) {
        return unread(error);
    }
    match reply_to(alloc, form, &new_bytes, &remarks_bytes, &old_bytes) {
        Ok(reply) => show(out, &reply),
        Err(BaselineFail::Refused(cause)) => tell(alloc, told, cause),
        Err(BaselineFail::NoMemory) => Status::NoMemory,
    }
}
