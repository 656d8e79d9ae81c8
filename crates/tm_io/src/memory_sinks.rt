// A sink in memory that fails at listed calls.
ghost use Rattle.std.specs.Prelude.{◌≡◌, ◌<◌, ◌++◌, ◌↔◌, [], ℕ, List, Some, length, take, min, IfOk, IsErrOf, OnErr};
ghost use Rattle.std.specs.Io.{WritesAtMost};
ghost use Rattle.std.specs.Io.KnownBytes.{append_known};
ghost use Rattle.tm_io.specs.Calls.{MemoryOutput, FailsNext, one_more, faults_among};
ghost use Rattle.tm_io.specs.Stops.{HasStopCause};

use crate::calls::Calls;
use crate::{Sink, Stop};
use std::alloc::Global;
use std::marker::Model;

/// A sink in memory that takes bytes in pieces and fails at listed calls.
#[derive(Drop)]
pub struct MemorySink {
    bytes: Vec<u8>,
    piece: usize,
    calls: Calls,
}

impl Model for MemorySink {
    ghost use Rattle.std.specs.Prelude.{ℕ, ◌<◌};
    ghost use Rattle.tm_io.specs.Calls.{MemoryOutput};

    ghost Value = { MemoryOutput };

    ghost view = { λ s. record {
      taken = s.bytes.items;
      piece = s.piece;
      failing = s.calls.failing.items;
      calls = s.calls.made;
    } };

    ghost invariant = { λ s. 0 < s.piece };
}

impl MemorySink {
    /// A sink that has taken nothing, and takes at most `piece` bytes a call. The calls with the numbers in `failing`
    /// fail: they are counted from 1, up to 2^64-1. It takes no memory.
    pub fn new(alloc: Global, piece: usize, failing: Vec<u64>) -> Self
        requires { 0 < piece }
        ensures { result ≡ record { taken = []; piece = piece; failing = failing.items; calls = 0 } }
    {
        MemorySink {
            bytes: Vec::new(alloc),
            piece,
            calls: Calls { failing, made: 0 },
        }
    }

    /// The bytes that it has taken.
    pub fn taken(&self) -> &[u8]
        ensures { result.now ≡ self.now.taken }
    {
        &self.bytes
    }
}

impl Sink for MemorySink {
    ghost taken = { λ s. Some s.taken };

    ghost faults = { λ s. faults_among s.failing s.calls };

    fn write(&mut self, from: &[u8]) -> Result<usize, Stop>
        ensures bound { WritesAtMost result from.now }
        ensures progress { IfOk result (λ n. 0 < length from.now → 0 < n) }
        ensures appends { IfOk result (λ n. Some self.new.taken ≡ append_known (Some self.old.taken)
            (take n from.now)) }
        ensures stopped { OnErr result (self.new.taken ≡ self.old.taken) }
        ensures cause { HasStopCause (faults_among self.old.failing self.old.calls)
            (faults_among self.new.failing self.new.calls) result }

        // Exactly the listed calls fail.
        ensures fails { (result ≡ Err Stop.Failed) ↔ FailsNext self.old.failing self.old.calls }
        ensures count { IfOk result (λ n. n ≡ min self.old.piece (length from.now)) }
        ensures ok { IfOk result (λ n. self.new ≡ record self.old {
          taken = self.old.taken ++ take n from.now;
          calls = one_more self.old.calls;
        }) }
        ensures err { OnErr result (self.new ≡ record self.old { calls = one_more self.old.calls }) }
    {
        if self.calls.next_fails() {
            return Err(Stop::Failed);
        }
        let n = self.piece.min(from.len());
        match self.bytes.extend_from_slice(&from[..n]) {
            Ok(()) => Ok(n),
            Err(_) => Err(Stop::NoMemory),
        }
    }
}
