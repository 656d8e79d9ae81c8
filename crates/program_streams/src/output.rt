//! A text, written whole.

ghost use Rattle.std.specs.Prelude.{◌≡◌, IsErrOf, OnOk};
ghost use Rattle.std.specs.Io.KnownBytes.{append_known};
ghost use Rattle.tm_io.specs.Stops.{HasStopCause};
ghost use Rattle.program_streams.specs.Streams.{TakesFrontOf};

use tm_io::{Sink, Stop};

/// Writes the text. Whatever comes, the sink has then taken a front of it, and the whole text where the answer is Ok.
pub fn write_whole<K: Sink>(out: &mut K, text: &[u8]) -> Result<(), Stop>
    ensures ok { OnOk result (K.taken out.new ≡ append_known (K.taken out.old) text.now) }
    ensures front { TakesFrontOf text.now (K.taken out.old) (K.taken out.new) }
    ensures cause { HasStopCause (K.faults out.old) (K.faults out.new) result }
{
    let mut rest = text;
    while !rest.is_empty() {
        let count = out.write(rest)?;
        rest = &rest[count..];
    }
    Ok(())
}
