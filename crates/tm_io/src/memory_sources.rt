// A source in memory that fails at listed calls.
ghost use Rattle.std.specs.Prelude.{◌≡◌, ◌≤◌, ◌<◌, ◌++◌, ◌↔◌, ℕ, List, Some, length, take, drop, min, IfOk, OnErr};
ghost use Rattle.std.specs.Prelude.{IsErr};
ghost use Rattle.std.specs.Io.{ReadsAtMost};
ghost use Rattle.std.specs.Io.KnownBytes.{IsAtEnd, prepend_known};
ghost use Rattle.tm_io.specs.Calls.{MemoryInput, FailsNext, one_more, faults_among};
ghost use Rattle.tm_io.specs.Faults.{HasCause};

use crate::calls::Calls;
use crate::pieces::copy_piece;
use crate::{Failed, Source};
use std::marker::Model;

/// A source in memory that gives its bytes in pieces and fails at listed calls.
#[derive(Drop)]
pub struct MemorySource {
    bytes: Vec<u8>,
    at: usize,
    piece: usize,
    calls: Calls,
}

impl Model for MemorySource {
    ghost use Rattle.std.specs.Prelude.{ℕ, ◌≤◌, ◌<◌, length, drop};
    ghost use Rattle.tm_io.specs.Calls.{MemoryInput};

    ghost Value = { MemoryInput };

    ghost view = { λ s. record {
      left = drop s.at s.bytes.items;
      piece = s.piece;
      failing = s.calls.failing.items;
      calls = s.calls.made;
    } };

    ghost invariant = { λ s. (s.at ≤ length s.bytes.items) × (0 < s.piece) };
}

impl MemorySource {
    /// A source of these bytes, of which a call gives at most `piece`. The calls with the numbers in `failing` fail:
    /// they are counted from 1, up to 2^64-1.
    pub fn new(bytes: Vec<u8>, piece: usize, failing: Vec<u64>) -> Self
        requires { 0 < piece }
        ensures { result ≡ record { left = bytes.items; piece = piece; failing = failing.items; calls = 0 } }
    {
        MemorySource {
            bytes,
            at: 0,
            piece,
            calls: Calls { failing, made: 0 },
        }
    }
}

impl Source for MemorySource {
    ghost left = { λ s. Some s.left };

    ghost faults = { λ s. faults_among s.failing s.calls };

    fn read(&mut self, into: &mut [u8]) -> Result<usize, Failed>
        ensures bound { ReadsAtMost result into.new }
        ensures taken { IfOk result (λ n. Some self.old.left ≡ prepend_known (take n into.new) (Some self.new.left)) }
        ensures end { IfOk result (λ n. n ≡ 0 → 0 < length into.new → IsAtEnd (Some self.new.left)) }
        ensures failed { OnErr result (self.new.left ≡ self.old.left) }
        ensures cause { HasCause (faults_among self.old.failing self.old.calls)
            (faults_among self.new.failing self.new.calls) result }

        // Exactly the listed calls fail.
        ensures fails { IsErr result ↔ FailsNext self.old.failing self.old.calls }
        ensures count { IfOk result (λ n. n ≡ min (min self.old.piece (length self.old.left)) (length into.old)) }
        ensures copied { IfOk result (λ n. into.new ≡ take n self.old.left ++ drop n into.old) }
        ensures rest { IfOk result (λ n. self.new ≡ record self.old {
          left = drop n self.old.left;
          calls = one_more self.old.calls;
        }) }
        ensures err { OnErr result (self.new ≡ record self.old { calls = one_more self.old.calls }) }
    {
        if self.calls.next_fails() {
            return Err(Failed);
        }
        let n = copy_piece(&self.bytes, self.at, self.piece, into);
        self.at += n;
        Ok(n)
    }
}
