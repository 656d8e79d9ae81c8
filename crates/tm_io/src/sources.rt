// What bytes are read from.
ghost use Rattle.std.specs.Prelude.{◌≡◌, ◌<◌, ℕ, List, Option, length, take, IfOk, OnErr};
ghost use Rattle.std.specs.Io.{ReadsAtMost};
ghost use Rattle.std.specs.Io.KnownBytes.{IsAtEnd, prepend_known};
ghost use Rattle.tm_io.specs.Faults.{HasCause};

/// A source has failed.
#[derive(Clone, Copy, PartialEq, Eq, Debug)]
pub struct Failed;

/// What bytes are read from, piece by piece. It takes no memory.
pub trait Source {
    /// The bytes that are left to read, where the source tells them.
    ghost left: { Self → Option (List ℕ) };

    /// How often the source has failed. The count stays at 2^64-1 once it is there.
    ghost faults: { Self → ℕ };

    /// Reads the next bytes into the front of `into`, and says how many. `Ok(0)` into a buffer with room is the end.
    /// After `Failed` nothing of what is left was taken, and `into` holds any bytes.
    fn read(&mut self, into: &mut [u8]) -> Result<usize, Failed>
        ensures bound { ReadsAtMost result into.new }

        // What was left are the bytes that were read, and what is left now. A source that tells nothing tells nothing
        // later.
        ensures taken { IfOk result (λ n. left self.old ≡ prepend_known (take n into.new) (left self.new)) }
        ensures end { IfOk result (λ n. n ≡ 0 → 0 < length into.new → IsAtEnd (left self.new)) }
        ensures failed { OnErr result (left self.new ≡ left self.old) }

        // The count never falls, stays at an Ok, and rises at a failure, up to 2^64-1.
        ensures cause { HasCause (faults self.old) (faults self.new) result };
}
