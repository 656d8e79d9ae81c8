// What bytes are written to.
ghost use Rattle.std.specs.Prelude.{◌≡◌, ◌<◌, ℕ, List, Option, length, take, IfOk, OnErr};
ghost use Rattle.std.specs.Io.{WritesAtMost};
ghost use Rattle.std.specs.Io.KnownBytes.{append_known};
ghost use Rattle.tm_io.specs.Stops.{HasStopCause};

/// Why a sink took nothing.
#[derive(Clone, Copy, PartialEq, Eq, Debug)]
pub enum Stop {
    /// The sink has failed.
    Failed,
    /// Memory ran out.
    NoMemory,
}

/// What bytes are written to, piece by piece.
pub trait Sink {
    /// The bytes that the sink has taken, where it tells them.
    ghost taken: { Self → Option (List ℕ) };

    /// How often the sink has failed. The count stays at 2^64-1 once it is there.
    ghost faults: { Self → ℕ };

    /// Takes a front of `from`, and says how many bytes: at least one, where there is one.
    /// After an error nothing was taken.
    fn write(&mut self, from: &[u8]) -> Result<usize, Stop>
        ensures bound { WritesAtMost result from.now }
        ensures progress { IfOk result (λ n. 0 < length from.now → 0 < n) }

        // What the sink has taken now is what it had, and then the front of `from`. One that tells nothing tells
        // nothing later.
        ensures appends { IfOk result (λ n. taken self.new ≡ append_known (taken self.old) (take n from.now)) }
        ensures stopped { OnErr result (taken self.new ≡ taken self.old) }

        // The count never falls, stays at an Ok and at want of memory, and rises at a failure, up to 2^64-1.
        ensures cause { HasStopCause (faults self.old) (faults self.new) result };
}
