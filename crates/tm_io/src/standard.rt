// The runtime's reader and writer as a source and a sink.
ghost use Rattle.std.specs.Prelude.{◌≡◌, ◌<◌, ◌+◌, ◌-◌, ◌^◌, ℕ, List, None, length, take, min, IfOk, OnOk, OnErr};
ghost use Rattle.std.specs.Io.{ReadsAtMost, WritesAtMost};
ghost use Rattle.std.specs.Io.KnownBytes.{IsAtEnd, ReadConsumes, WriteAppends, prepend_known, append_known};
ghost use Rattle.tm_io.specs.Faults.{HasCause, one_fault_more};
ghost use Rattle.tm_io.specs.Stops.{HasStopCause};

use crate::{Failed, Sink, Source, Stop};
use std::io::{Read, Write};
use std::marker::Model;

/// A reader as a source, which tells nothing of what is left. Each error of the reader is a fault.
#[derive(Drop)]
pub struct StdSource<I: Read + Drop> {
    input: I,
    faults: u64,
}

impl<I: Read + Drop> Model for StdSource<I> {
    ghost use Rattle.tm_io.specs.Faults.{Counted};

    ghost Value = { Counted I };

    ghost view = { λ s. record { stream = s.input; faults = s.faults } };
}

impl<I: Read + Drop> StdSource<I> {
    /// A source over this reader, with no fault yet.
    pub fn new(input: I) -> Self
        ensures { result ≡ record { stream = input; faults = 0 } }
    {
        StdSource { input, faults: 0 }
    }
}

impl<I: Read + Drop> Source for StdSource<I> {
    ghost left = { λ _. None };

    ghost faults = { λ s. s.faults };

    fn read(&mut self, into: &mut [u8]) -> Result<usize, Failed>
        ensures bound { ReadsAtMost result into.new }
        ensures cause { HasCause self.old.faults self.new.faults result }

        // It reads from the reader.
        ensures through { ReadConsumes (I.remaining self.old.stream) (I.remaining self.new.stream) result into.new }
        ensures fault { OnErr result (self.new.faults ≡ one_fault_more self.old.faults) }
    {
        match self.input.read(into) {
            Ok(n) => Ok(n),
            Err(_) => {
                self.faults = self.faults.saturating_add(1);
                Err(Failed)
            }
        }
    }
}

/// A writer as a sink, which tells nothing of what it has taken. Each error of the writer is a fault, and so is each
/// piece that is not empty and of which it takes nothing. A write asks for no flush: over a writer that keeps bytes
/// back, flush it where they must be seen.
#[derive(Drop)]
pub struct StdSink<O: Write + Drop> {
    output: O,
    faults: u64,
}

impl<O: Write + Drop> Model for StdSink<O> {
    ghost use Rattle.tm_io.specs.Faults.{Counted};

    ghost Value = { Counted O };

    ghost view = { λ s. record { stream = s.output; faults = s.faults } };
}

impl<O: Write + Drop> StdSink<O> {
    /// A sink over this writer, with no fault yet.
    pub fn new(output: O) -> Self
        ensures { result ≡ record { stream = output; faults = 0 } }
    {
        StdSink { output, faults: 0 }
    }
}

impl<O: Write + Drop> Sink for StdSink<O> {
    ghost taken = { λ _. None };

    ghost faults = { λ s. s.faults };

    fn write(&mut self, from: &[u8]) -> Result<usize, Stop>
        ensures bound { WritesAtMost result from.now }
        ensures progress { IfOk result (λ n. 0 < length from.now → 0 < n) }
        ensures cause { HasStopCause self.old.faults self.new.faults result }

        // It writes to the writer.
        ensures through { WriteAppends (O.contents self.old.stream) (O.contents self.new.stream) result from.now }
        ensures fault { OnErr result (self.new.faults ≡ one_fault_more self.old.faults) }
    {
        match self.output.write(from) {
            Ok(n) if n > 0 || from.is_empty() => Ok(n),
            _ => {
                self.faults = self.faults.saturating_add(1);
                Err(Stop::Failed)
            }
        }
    }
}
