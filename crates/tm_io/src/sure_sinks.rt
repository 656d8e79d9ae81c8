// A sink in memory that never fails.
ghost use Rattle.std.specs.Prelude.{◌≡◌, ◌<◌, ◌++◌, [], ℕ, List, Some, length, take, IfOk, IsOkUnless, OnOk, OnErr};
ghost use Rattle.std.specs.Io.{WritesAtMost};
ghost use Rattle.std.specs.Io.KnownBytes.{append_known};
ghost use Rattle.tm_io.specs.Stops.{HasStopCause};

use crate::{Sink, Stop};
use std::alloc::Global;
use std::marker::Model;

/// A sink in memory that never fails: contracts see it as the bytes that it has taken.
#[derive(Drop)]
pub struct SureSink {
    bytes: Vec<u8>,
}

impl Model for SureSink {
    ghost Value = { List ℕ };

    ghost view = { λ s. s.bytes.items };
}

impl SureSink {
    /// A sink that has taken nothing. It takes no memory.
    pub fn new(alloc: Global) -> Self
        ensures { result ≡ [] }
    {
        SureSink {
            bytes: Vec::new(alloc),
        }
    }

    /// The bytes that it has taken.
    pub fn taken(&self) -> &[u8]
        ensures { result.now ≡ self.now }
    {
        &self.bytes
    }
}

impl Sink for SureSink {
    ghost taken = { λ s. Some s };

    ghost faults = { λ _. 0 };

    fn write(&mut self, from: &[u8]) -> Result<usize, Stop>
        ensures bound { WritesAtMost result from.now }
        ensures progress { IfOk result (λ n. 0 < length from.now → 0 < n) }
        ensures appends { IfOk result (λ n. Some self.new ≡ append_known (Some self.old) (take n from.now)) }
        ensures stopped { OnErr result (self.new ≡ self.old) }
        ensures cause { HasStopCause 0 0 result }

        // It takes each piece whole, unless memory runs out.
        ensures count { IfOk result (λ n. n ≡ length from.now) }
        ensures ok { OnOk result (self.new ≡ self.old ++ from.now) }
        ensures no_memory { IsOkUnless result Stop.NoMemory }
    {
        match self.bytes.extend_from_slice(from) {
            Ok(()) => Ok(from.len()),
            Err(_) => Err(Stop::NoMemory),
        }
    }
}
