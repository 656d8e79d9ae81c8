// A source in memory that never fails.
ghost use Rattle.std.specs.Prelude.{◌≡◌, ◌≤◌, ◌<◌, ◌++◌, ℕ, List, Ok, Some, length, take, drop, min, IfOk, OnErr};
ghost use Rattle.std.specs.Io.{ReadsAtMost};
ghost use Rattle.std.specs.Io.KnownBytes.{IsAtEnd, prepend_known};
ghost use Rattle.tm_io.specs.Faults.{HasCause};

use crate::pieces::copy_piece;
use crate::{Failed, Source};
use std::marker::Model;

/// A source in memory that never fails: contracts see it as the bytes that are left.
#[derive(Drop)]
pub struct SureSource {
    bytes: Vec<u8>,
    at: usize,
}

impl Model for SureSource {
    ghost Value = { List ℕ };

    ghost view = { λ s. drop s.at s.bytes.items };

    ghost invariant = { λ s. s.at ≤ length s.bytes.items };
}

impl SureSource {
    /// A source of these bytes, none of them read yet.
    pub fn new(bytes: Vec<u8>) -> Self
        ensures { result ≡ bytes.items }
    {
        SureSource { bytes, at: 0 }
    }
}

impl Source for SureSource {
    ghost left = { λ s. Some s };

    ghost faults = { λ _. 0 };

    fn read(&mut self, into: &mut [u8]) -> Result<usize, Failed>
        ensures bound { ReadsAtMost result into.new }
        ensures taken { IfOk result (λ n. Some self.old ≡ prepend_known (take n into.new) (Some self.new)) }
        ensures end { IfOk result (λ n. n ≡ 0 → 0 < length into.new → IsAtEnd (Some self.new)) }
        ensures failed { OnErr result (self.new ≡ self.old) }
        ensures cause { HasCause 0 0 result }

        ensures count { result ≡ Ok (min (length self.old) (length into.old)) }
        ensures copied { IfOk result (λ n. into.new ≡ take n self.old ++ drop n into.old) }
        ensures rest { IfOk result (λ n. self.new ≡ drop n self.old) }
    {
        let n = copy_piece(&self.bytes, self.at, into.len(), into);
        self.at += n;
        Ok(n)
    }
}
