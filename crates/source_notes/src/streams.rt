//! The answer to what a stream has.
ghost use Rattle.std.specs.Prelude.{◌≡◌, ◌+◌, ◌≤◌, IfOk};
ghost use Rattle.source_programs.specs.LaidSources.{longest_on};
ghost use Rattle.source_notes.specs.Streams.{IsTold};
ghost use Rattle.source_notes.specs.reading.Finders.{IsFound};

use crate::answers::{Note, notes_by};
use crate::finders::{Alone, Finder, Found, Workers, found_by_workers};
use crate::words::AskedNotes;
use program_streams::{InputError, Status, read_whole, send};
use std::alloc::Global;
use std::sync::Wait;
use std::thread::Threads;
use tm_io::{Gate, Sink, Source};
use tm_laid::Scale;
use tm_lattice::NoMemory;
use tm_terms::limits::{MOST_BYTES, SOURCE};
use worker_solutions::Analysis;

/// How many bytes of a source are read at most on a scale: one more than it may have.
fn most_read(scale: Scale) -> usize
    ensures { result ≡ longest_on scale + 1 }
{
    match scale {
        Scale::Usual => SOURCE as usize + 1,
        Scale::Large => MOST_BYTES as usize + 1,
    }
}

/// Reads a source to its end, or past the limit, and writes notes on it by what finds its least solution.
fn tell_by<F: Finder, S: Source, K: Sink>(
    finder: &F,
    alloc: Global,
    scale: Scale,
    note: Note,
    source: &mut S,
    out: &mut K,
) -> Status
    requires { F.serves finder.now }
    ensures { IsTold scale note (S.left source.old) (S.left source.new) (K.taken out.old) (K.taken out.new)
        (S.faults source.old) (S.faults source.new) (K.faults out.old) (K.faults out.new) result }
{
    let mut bytes = Vec::new(alloc);
    let most = most_read(scale);
    match read_whole(source, &mut bytes, most) {
        Ok(()) => {}
        Err(InputError::Failed) => return Status::ReadFault,
        Err(InputError::NoMemory) => return Status::NoMemory,
    }
    match notes_by(finder, alloc, scale, note, &bytes) {
        Ok(reply) => send(out, &reply.text, reply.status),
        Err(NoMemory) => Status::NoMemory,
    }
}

/// Reads a source to its end, or past the limit, and writes notes on it on a scale, or why it is refused there. The
/// text is made before its first byte is written. It is given no handle by which it could wait for another thread: it is
/// proved to return, for any source and sink whose calls do.
pub fn tell_notes<S: Source, K: Sink>(
    alloc: Global,
    scale: Scale,
    note: Note,
    source: &mut S,
    out: &mut K,
) -> Status
    ensures { IsTold scale note (S.left source.old) (S.left source.new) (K.taken out.old) (K.taken out.new)
        (S.faults source.old) (S.faults source.new) (K.faults out.old) (K.faults out.new) result }
{
    tell_by(&Alone, alloc, scale, note, source, out)
}

/// The same by as many workers as are asked for, who share a store; the gate is told of their passes. One worker is the
/// calling thread, as in `tell_notes`. The call may wait for its workers, so no contract says that it returns; what it
/// tells does not depend on how many they are, nor on their order.
pub fn tell_notes_by_workers<R: Threads + Wait + Sync, S: Source, K: Sink, G: Gate>(
    rt: &R,
    alloc: Global,
    asked: AskedNotes,
    source: &mut S,
    out: &mut K,
    gate: &G,
) -> Status
    requires some { 1 ≤ asked.workers }
    requires most { asked.workers ≤ 16 }
    ensures { IsTold asked.scale asked.note (S.left source.old) (S.left source.new) (K.taken out.old) (K.taken out.new)
        (S.faults source.old) (S.faults source.new) (K.faults out.old) (K.faults out.new) result }
{
    let AskedNotes {
        scale,
        workers,
        note,
    } = asked;
    if workers == 1 {
        return tell_notes(alloc, scale, note, source, out);
    }
    let find = |analysis: Analysis| -> Result<Found, NoMemory>
        requires { (1 ≤ workers) × (workers ≤ 16) }
        ensures { IfOk result (IsFound analysis) }
    { found_by_workers(rt, alloc, analysis, workers, gate) };
    tell_by(&Workers { find }, alloc, scale, note, source, out)
}
