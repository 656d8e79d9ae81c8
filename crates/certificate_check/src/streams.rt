//! The check of what a stream has.

ghost use Rattle.std.specs.Prelude.{◌≡◌, ◌≢◌};
ghost use Rattle.tm_io.specs.Faults.{Rose};
ghost use Rattle.program_streams.specs.Statuses.{IsReported, IsWhole};
ghost use Rattle.program_streams.specs.Streams.{IsReadOut};
ghost use Rattle.program_streams.specs.Taken.{Answers, TakesNoMore};
ghost use Rattle.certificate_texts.specs.Limits.{certificate_limit};
ghost use Rattle.certificate_check.specs.VerdictTexts.{HasChecked};
ghost use Rattle.certificate_check.specs.Soundness.{IsSoundCheck};

use crate::replies::checked;
use certificate_texts::CERTIFICATE_LIMIT;
use program_streams::{InputError, Status, read_whole, send};
use std::alloc::Global;
use tm_io::{Sink, Source};
use tm_lattice::NoMemory;

/// Reads the source to its end, or past the limit, and writes what may be said of its bytes as a certificate. The text
/// is made before its first byte is written.
pub fn check_source<S: Source, K: Sink>(alloc: Global, source: &mut S, out: &mut K) -> Status
    // Status 0 or 1 and `certified`: the bytes are a certificate of a solution, before it stands the report of that
    // solution, and every error that occurs in an allowed run of the source in them is listed there at its place.
    // Status 1 without it: the first edge that is not covered, or the store. Status 2: why they are no certificate.
    ensures whole { IsWhole result →
        Answers HasChecked (S.left source.old) (K.taken out.old) (K.taken out.new) result }

    // What that promises of runs, in terms of the source in the bytes alone: nothing that its definitions cite speaks
    // of tables or equations. It follows from the first clause.
    ensures sound { IsReported result →
        Answers IsSoundCheck (S.left source.old) (K.taken out.old) (K.taken out.new) result }

    // Whatever comes, the sink has taken nothing, or a front of such a text.
    ensures front { TakesNoMore HasChecked (S.left source.old) (K.taken out.old) (K.taken out.new) }

    // All that the source has left is read, unless it is too long.
    ensures all { IsWhole result → IsReadOut certificate_limit (S.left source.old) (S.left source.new) }

    // A fault comes exactly where a count of faults rose. After a read fault nothing is taken.
    ensures read { result ≡ Status.ReadFault →
        Rose (S.faults source.old) (S.faults source.new) × (K.taken out.new ≡ K.taken out.old) }
    ensures write { result ≡ Status.WriteFault → Rose (K.faults out.old) (K.faults out.new) }
    ensures source_faults { result ≢ Status.ReadFault → S.faults source.new ≡ S.faults source.old }
    ensures sink_faults { result ≢ Status.WriteFault → K.faults out.new ≡ K.faults out.old }
{
    let mut bytes = Vec::new(alloc);
    match read_whole(source, &mut bytes, CERTIFICATE_LIMIT + 1) {
        Ok(()) => {}
        Err(InputError::Failed) => return Status::ReadFault,
        Err(InputError::NoMemory) => return Status::NoMemory,
    }
    match checked(alloc, bytes) {
        Ok(reply) => send(out, reply.text.as_bytes(), reply.status),
        Err(NoMemory) => Status::NoMemory,
    }
}
