//! The joined text of units, from a stream to a stream.

ghost use Rattle.std.specs.Prelude.{◌≡◌, ◌≢◌};
ghost use Rattle.tm_io.specs.Faults.{Rose};
ghost use Rattle.join_units.specs.Answers.{Joins};

use program_streams::{Status, read_whole, send, unread};
use std::alloc::Global;
use tm_io::{Sink, Source};
use tm_lattice::NoMemory;
use tm_terms::limits::MOST_BYTES;
use unit_joins::{Cause, JoinFail, cause_line, join};

/// Writes why there is none.
fn tell<K: Sink>(alloc: Global, out: &mut K, cause: Cause) -> Status
    ensures write { result ≡ Status.WriteFault → Rose (K.faults out.old) (K.faults out.new) }
    ensures others { (result ≢ Status.NoAlarm) × (result ≢ Status.ReadFault) }
{
    match cause_line(alloc, cause) {
        Ok(line) => send(out, line.as_bytes(), Status::Refused),
        Err(NoMemory) => Status::NoMemory,
    }
}

/// Reads units, and writes their joined text, or why there is none. The text is made whole before its first byte is
/// written.
pub fn answer<S: Source, K: Sink>(alloc: Global, source: &mut S, out: &mut K) -> Status
    // Status 0: `out` has taken the joined text of the units that were read.
    ensures joined { result ≡ Status.NoAlarm → Joins (S.left source.old) (S.left source.new) (K.taken out.old)
        (K.taken out.new) }

    // A fault comes only where a count of faults rose.
    ensures read { result ≡ Status.ReadFault → Rose (S.faults source.old) (S.faults source.new) }
    ensures write { result ≡ Status.WriteFault → Rose (K.faults out.old) (K.faults out.new) }
{
    let mut units = Vec::new(alloc);
    if let Err(error) = read_whole(source, &mut units, MOST_BYTES as usize + 1) {
        return unread(error);
    }
    match join(alloc, &units) {
        Ok(text) => send(out, &text, Status::NoAlarm),
        Err(JoinFail::Refused(cause)) => tell(alloc, out, cause),
        Err(JoinFail::NoMemory) => Status::NoMemory,
    }
}
