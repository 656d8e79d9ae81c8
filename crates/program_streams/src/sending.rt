//! A text, written whole with the status that goes with it.

ghost use Rattle.std.specs.Prelude.{◌≡◌, ◌≢◌, Bool};
ghost use Rattle.std.specs.Io.KnownBytes.{append_known};
ghost use Rattle.tm_io.specs.Faults.{Rose};
ghost use Rattle.program_streams.specs.Statuses.{IsWhole, shown_status, unwritten_status};
ghost use Rattle.program_streams.specs.Streams.{TakesFrontOf};

use crate::output::write_whole;
use crate::statuses::Status;
use tm_io::{Sink, Stop};

/// Writes the text, and says with which status: the given one, where the whole text was taken.
pub fn send<K: Sink>(out: &mut K, text: &[u8], status: Status) -> Status
    requires { IsWhole status }
    ensures whole { IsWhole result → (result ≡ status) × (K.taken out.new ≡ append_known (K.taken out.old) text.now) }
    ensures front { TakesFrontOf text.now (K.taken out.old) (K.taken out.new) }
    ensures write { result ≡ Status.WriteFault → Rose (K.faults out.old) (K.faults out.new) }
    ensures same { result ≢ Status.WriteFault → K.faults out.new ≡ K.faults out.old }
    ensures read { result ≢ Status.ReadFault }
{
    match write_whole(out, text) {
        Ok(()) => status,
        Err(stop) => unwritten(stop),
    }
}

/// The status of a stream that took less than the whole text.
fn unwritten(stop: Stop) -> Status
    ensures { result ≡ unwritten_status stop }
{
    match stop {
        Stop::Failed => Status::WriteFault,
        Stop::NoMemory => Status::NoMemory,
    }
}

/// Writes an answer, and says whether it was taken whole and has an alarm.
pub fn show<K: Sink>(out: &mut K, text: &[u8], has_alarm: bool) -> Status
    ensures whole { (alarm : Bool) → result ≡ shown_status alarm → (alarm ≡ has_alarm)
        × (K.taken out.new ≡ append_known (K.taken out.old) text.now) }
    ensures front { TakesFrontOf text.now (K.taken out.old) (K.taken out.new) }
    ensures write { result ≡ Status.WriteFault → Rose (K.faults out.old) (K.faults out.new) }
    ensures others { (result ≢ Status.Refused) × (result ≢ Status.Usage) × (result ≢ Status.ReadFault) }
{
    match write_whole(out, text) {
        Ok(()) => {
            if has_alarm {
                Status::Alarms
            } else {
                Status::NoAlarm
            }
        }
        Err(stop) => unwritten(stop),
    }
}

/// Writes a text that has no alarm, and says whether it was taken whole.
pub fn give<K: Sink>(out: &mut K, text: &[u8]) -> Status
    ensures whole { result ≡ Status.NoAlarm → K.taken out.new ≡ append_known (K.taken out.old) text.now }
    ensures front { TakesFrontOf text.now (K.taken out.old) (K.taken out.new) }
    ensures write { result ≡ Status.WriteFault → Rose (K.faults out.old) (K.faults out.new) }
    ensures others { (result ≢ Status.Refused) × (result ≢ Status.Usage) × (result ≢ Status.ReadFault)
        × (result ≢ Status.Alarms) }
{
    send(out, text, Status::NoAlarm)
}

/// Writes why there is no answer.
pub fn tell<K: Sink>(told: &mut K, line: &[u8]) -> Status
    ensures whole { result ≡ Status.Refused → K.taken told.new ≡ append_known (K.taken told.old) line.now }
    ensures front { TakesFrontOf line.now (K.taken told.old) (K.taken told.new) }
    ensures write { result ≡ Status.WriteFault → Rose (K.faults told.old) (K.faults told.new) }
    ensures others { (alarm : Bool) → result ≢ shown_status alarm }
    ensures other_faults { (result ≢ Status.Usage) × (result ≢ Status.ReadFault) }
{
    match write_whole(told, line) {
        Ok(()) => Status::Refused,
        Err(stop) => unwritten(stop),
    }
}
