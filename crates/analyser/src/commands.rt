//! The answer to words and a source, by whatever solves programs.

ghost use Rattle.std.specs.Prelude.{◌≡◌, ◌≢◌, false};
ghost use Rattle.tm_io.specs.Faults.{Rose};
ghost use Rattle.cmd_words.specs.Words.{command_of, texts_of};
ghost use Rattle.big_source.specs.GeneratedSources.{source_text};
ghost use Rattle.analyser.specs.Headline.{CommandGives, HasSummary, IsGenerated};
ghost use Rattle.analyser.specs.Headline.{MayGive, Reads, SaysUsage, longest_of};
ghost use Rattle.source_replays.specs.source_programs.LaidSources.{longest_source};
ghost use Rattle.program_streams.specs.Statuses.{IsWhole};
ghost use Rattle.program_streams.specs.Streams.{IsReadOut};
ghost use Rattle.program_streams.specs.Taken.{Answers, TakesNoMore};
ghost use Rattle.analyser.specs.reading.Asked.{AskedGives, IsAnswerable};
ghost use Rattle.analyser.specs.reading.Manners.{IsServed};
ghost use Rattle.analyser.specs.reading.Streams.{Says, SaysNoMore};

use crate::replies::{Asked, answer_to, generated, summarised};
use crate::solvers::Solver;
use cmd_words::{Command, DemoWords, read_words};
use program_streams::{InputError, Status, read_whole, send};
use source_findings::{Finding, check_source};
use std::alloc::Global as Heap;
use tm_io::{Sink, Source};
use tm_lattice::NoMemory;
use tm_terms::limits::SOURCE;
use tm_terms::usage_line;

/// How many bytes of a source are read at most: one more than it may have.
const MOST: usize = SOURCE as usize + 1;

/// Writes the usage line.
fn send_usage<K: Sink>(out: &mut K) -> Status
    ensures whole { IsWhole result → Says SaysUsage (K.taken out.old) (K.taken out.new) result }
    ensures front { SaysNoMore SaysUsage (K.taken out.old) (K.taken out.new) }
    ensures write { result ≡ Status.WriteFault → Rose (K.faults out.old) (K.faults out.new) }
    ensures same { result ≢ Status.WriteFault → K.faults out.new ≡ K.faults out.old }
    ensures read { result ≢ Status.ReadFault }
{
    send(out, usage_line().as_bytes(), Status::Usage)
}

/// The command `generate`: writes the source with so many functions.
fn send_source<K: Sink>(alloc: Heap, count: u32, out: &mut K) -> Status
    ensures whole { IsWhole result → Says (IsGenerated count) (K.taken out.old) (K.taken out.new) result }
    ensures front { SaysNoMore (IsGenerated count) (K.taken out.old) (K.taken out.new) }
    ensures write { result ≡ Status.WriteFault → Rose (K.faults out.old) (K.faults out.new) }
    ensures same { result ≢ Status.WriteFault → K.faults out.new ≡ K.faults out.old }
    ensures read { result ≢ Status.ReadFault }
{
    match generated(alloc, count) {
        Ok(reply) => send(out, reply.text.as_bytes(), reply.status),
        Err(NoMemory) => Status::NoMemory,
    }
}

/// The command `demo`: writes what is told of the source with so many functions, and of its report.
fn send_summary<V: Solver, K: Sink>(
    solver: &V,
    alloc: Heap,
    asked: DemoWords,
    out: &mut K,
) -> Status
    requires { V.serves solver.now asked.workers false }
    ensures whole { IsWhole result →
        Says (HasSummary (source_text asked.count)) (K.taken out.old) (K.taken out.new) result }
    ensures front { SaysNoMore (HasSummary (source_text asked.count)) (K.taken out.old) (K.taken out.new) }
    ensures write { result ≡ Status.WriteFault → Rose (K.faults out.old) (K.faults out.new) }
    ensures same { result ≢ Status.WriteFault → K.faults out.new ≡ K.faults out.old }
    ensures read { result ≢ Status.ReadFault }
{
    match summarised(solver, alloc, asked) {
        Ok(reply) => send(out, reply.text.as_bytes(), reply.status),
        Err(NoMemory) => Status::NoMemory,
    }
}

/// Reads the source to its end, or past the limit, and writes the answer to what is asked about it.
fn answer_source<V: Solver, S: Source, K: Sink>(
    solver: &V,
    alloc: Heap,
    asked: &Asked,
    source: &mut S,
    out: &mut K,
) -> Status
    requires { IsAnswerable (V.serves solver.now) asked.now }
    ensures whole { IsWhole result →
        Answers (AskedGives asked.now) (S.left source.old) (K.taken out.old) (K.taken out.new) result }
    ensures front { TakesNoMore (AskedGives asked.now) (S.left source.old) (K.taken out.old) (K.taken out.new) }
    ensures all { IsWhole result → IsReadOut longest_source (S.left source.old) (S.left source.new) }
    ensures read { result ≡ Status.ReadFault →
        Rose (S.faults source.old) (S.faults source.new) × (K.taken out.new ≡ K.taken out.old) }
    ensures write { result ≡ Status.WriteFault → Rose (K.faults out.old) (K.faults out.new) }
    ensures source_faults { result ≢ Status.ReadFault → S.faults source.new ≡ S.faults source.old }
    ensures sink_faults { result ≢ Status.WriteFault → K.faults out.new ≡ K.faults out.old }
{
    let mut bytes = Vec::new(alloc);
    match read_whole(source, &mut bytes, MOST) {
        Ok(()) => {}
        Err(InputError::Failed) => return Status::ReadFault,
        Err(InputError::NoMemory) => return Status::NoMemory,
    }
    match answer_to(solver, alloc, asked, &bytes) {
        Ok(reply) => send(out, &reply.text, reply.status),
        Err(NoMemory) => Status::NoMemory,
    }
}

/// Answers a command and a source, or words that are no command.
fn answer_command<V: Solver, S: Source, K: Sink>(
    solver: &V,
    alloc: Heap,
    command: Option<Command>,
    source: &mut S,
    out: &mut K,
) -> Status
    requires served { IsServed (V.serves solver.now) command }
    ensures headline { IsWhole result →
        Answers (CommandGives command) (S.left source.old) (K.taken out.old) (K.taken out.new) result }
    ensures front { TakesNoMore (CommandGives command) (S.left source.old) (K.taken out.old) (K.taken out.new) }
    ensures all { Reads command → IsWhole result →
        IsReadOut (longest_of command) (S.left source.old) (S.left source.new) }
    ensures unread { (Reads command → ⊥) → source.new ≡ source.old }
    ensures read { result ≡ Status.ReadFault → Reads command
        × Rose (S.faults source.old) (S.faults source.new) × (K.taken out.new ≡ K.taken out.old) }
    ensures write { result ≡ Status.WriteFault → Rose (K.faults out.old) (K.faults out.new) }
    ensures source_faults { result ≢ Status.ReadFault → S.faults source.new ≡ S.faults source.old }
    ensures sink_faults { result ≢ Status.WriteFault → K.faults out.new ≡ K.faults out.old }
{
    match command {
        None => send_usage(out),
        Some(Command::Analyse(asked)) => {
            answer_source(solver, alloc, &Asked::Report(asked), source, out)
        }
        Some(Command::Replay) => answer_source(solver, alloc, &Asked::Replay, source, out),
        Some(Command::Generate(count)) => send_source(alloc, count, out),
        Some(Command::Demo(asked)) => send_summary(solver, alloc, asked, out),
        Some(Command::Waits) => {
            answer_source(solver, alloc, &Asked::Solution(Finding::Waits), source, out)
        }
        Some(Command::Ranges) => {
            answer_source(
                solver,
                alloc,
                &Asked::Solution(Finding::Ranges),
                source,
                out,
            )
        }
        Some(Command::Certify) => answer_source(solver, alloc, &Asked::Certificate, source, out),
        Some(Command::Check) => check_source(alloc, source, out),
    }
}

/// Answers words and a source. The text is made before its first byte is written.
pub(crate) fn answer_words<V: Solver, S: Source, K: Sink>(
    solver: &V,
    alloc: Heap,
    words: &[String],
    source: &mut S,
    out: &mut K,
) -> Status
    requires served { IsServed (V.serves solver.now) (command_of (texts_of words.now)) }
    ensures headline { IsWhole result →
        Answers (MayGive (texts_of words.now)) (S.left source.old) (K.taken out.old) (K.taken out.new) result }
    ensures front { TakesNoMore (MayGive (texts_of words.now)) (S.left source.old) (K.taken out.old) (K.taken out.new) }
    ensures all { Reads (command_of (texts_of words.now)) → IsWhole result →
        IsReadOut (longest_of (command_of (texts_of words.now))) (S.left source.old) (S.left source.new) }
    ensures unread { (Reads (command_of (texts_of words.now)) → ⊥) → source.new ≡ source.old }
    ensures read { result ≡ Status.ReadFault → Reads (command_of (texts_of words.now))
        × Rose (S.faults source.old) (S.faults source.new) × (K.taken out.new ≡ K.taken out.old) }
    ensures write { result ≡ Status.WriteFault → Rose (K.faults out.old) (K.faults out.new) }
    ensures source_faults { result ≢ Status.ReadFault → S.faults source.new ≡ S.faults source.old }
    ensures sink_faults { result ≢ Status.WriteFault → K.faults out.new ≡ K.faults out.old }
{
    match read_words(alloc, words) {
        Ok(command) => answer_command(solver, alloc, command, source, out),
        Err(NoMemory) => Status::NoMemory,
    }
}
