//! What all rules say, to a stream.

ghost use Rattle.std.specs.Prelude.{◌≡◌, ◌≢◌, ◌⊎◌};
ghost use Rattle.std.specs.Io.KnownBytes.{append_known};
ghost use Rattle.tm_io.specs.Faults.{Rose};
ghost use Rattle.program_streams.specs.Streams.{TakesFrontOf};
ghost use Rattle.report_views.specs.Rules.{rules_text};

use program_streams::{Status, give};
use report_views::rule_lines;
use std::alloc::Global;
use tm_io::Sink;
use tm_lattice::NoMemory;

/// Writes what all rules say to `out`. It is made whole before its first byte is written.
pub fn answer_rules<K: Sink>(alloc: Global, out: &mut K) -> Status
    // Status 0: `out` has taken a line for each rule.
    ensures told { result ≡ Status.NoAlarm → K.taken out.new ≡ append_known (K.taken out.old) rules_text }

    // Whatever comes, `out` has taken nothing, or a front of them.
    ensures front { (K.taken out.new ≡ K.taken out.old)
        ⊎ TakesFrontOf rules_text (K.taken out.old) (K.taken out.new) }

    // A fault comes only where a count of faults rose.
    ensures write { result ≡ Status.WriteFault → Rose (K.faults out.old) (K.faults out.new) }
    ensures others { (result ≢ Status.Usage) × (result ≢ Status.Alarms) × (result ≢ Status.Refused)
        × (result ≢ Status.ReadFault) }
{
    match rule_lines(alloc) {
        Ok(text) => give(out, &text),
        Err(NoMemory) => Status::NoMemory,
    }
}
