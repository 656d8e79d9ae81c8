//! What stands where a text is refused, from a stream to a stream.

ghost use Rattle.std.specs.Prelude.{◌≡◌, ◌≢◌, IfOk, string_bytes};
ghost use Rattle.tm_io.specs.Faults.{Rose};
ghost use Rattle.refusal_hint.specs.Answers.{Tells, TellsNoMore, hint_text, told_text};

use crate::words::Asked;
use program_streams::{Status, read_whole, send, unread};
use refusal_hints::{Construct, construct_at, sentence};
use std::alloc::Global;
use tm_io::{Sink, Source};
use tm_lattice::NoMemory;
use tm_terms::limits::MOST_BYTES;

/// The line of a construct, or no text.
fn told_text(alloc: Global, construct: Option<Construct>) -> Result<String, NoMemory>
    ensures { IfOk result (λ text. string_bytes text ≡ told_text construct) }
{
    let Some(construct) = construct else {
        return Ok(String::new(alloc));
    };
    let sentence = sentence(construct);
    match format!(in alloc; "{sentence}\n") {
        Ok(text) => Ok(text),
        Err(_) => Err(NoMemory),
    }
}

/// What is told of a text.
fn hint_text(alloc: Global, asked: Asked, text: &[u8]) -> Result<String, NoMemory>
    ensures { IfOk result (λ told. string_bytes told ≡ hint_text asked.place asked.kind text.now) }
{
    if text.len() > MOST_BYTES as usize {
        return Ok(String::new(alloc));
    }
    let construct = construct_at(alloc, text, asked.place, asked.kind)?;
    told_text(alloc, construct)
}

/// Writes what stands where a text is refused. The answer is made whole before its first byte is written.
pub fn answer<S: Source, K: Sink>(alloc: Global, asked: Asked, text: &mut S, out: &mut K) -> Status
    // Status 0: `out` has taken the line of the construct that stands at the place, or nothing where none is told.
    ensures told { result ≡ Status.NoAlarm → Tells asked.place asked.kind (S.left text.old) (S.left text.new)
        (K.taken out.old) (K.taken out.new) }

    // Whatever comes, `out` has taken nothing, or a front of that.
    ensures front { TellsNoMore asked.place asked.kind (S.left text.old) (S.left text.new) (K.taken out.old)
        (K.taken out.new) }

    // A fault comes only where a count of faults rose. After a read fault nothing is taken.
    ensures read { result ≡ Status.ReadFault → Rose (S.faults text.old) (S.faults text.new)
        × (K.taken out.new ≡ K.taken out.old) }
    ensures write { result ≡ Status.WriteFault → Rose (K.faults out.old) (K.faults out.new) }
    ensures others { (result ≢ Status.Alarms) × (result ≢ Status.Refused) × (result ≢ Status.Usage) }
{
    let mut bytes = Vec::new(alloc);
    if let Err(error) = read_whole(text, &mut bytes, MOST_BYTES as usize + 1) {
        return unread(error);
    }
    match hint_text(alloc, asked, &bytes) {
        Ok(told) => send(out, told.as_bytes(), Status::NoAlarm),
        Err(NoMemory) => Status::NoMemory,
    }
}
