//! The top calls: words and a source in, a status and a text out.

ghost use Rattle.std.specs.Prelude.{◌≡◌, ◌≢◌, ◌⊎◌, ℕ, List, IfOk, false};
ghost use Rattle.tm_io.specs.Faults.{Rose};
ghost use Rattle.cmd_words.specs.Words.{command_of, texts_of};
ghost use Rattle.analyser.specs.Headline.{Accepts, AnswersFor, IsCommand, MayGive, Reads, Refuses};
ghost use Rattle.analyser.specs.Headline.{asks_workers, longest_of};
ghost use Rattle.program_streams.specs.Statuses.{IsReported, IsWhole};
ghost use Rattle.program_streams.specs.Streams.{IsReadOut};
ghost use Rattle.program_streams.specs.Taken.{Answers, TakesNoMore};
ghost use Rattle.worker_solutions.specs.program_systems.ReadPrograms.{program_of};
ghost use Rattle.analyser.specs.Soundness.{AsksForReport, IsSound};
ghost use Rattle.analyser.specs.Statuses.{IsSinkStop, IsStop};
ghost use Rattle.analyser.specs.reading.Manners.{AreFew};
ghost use Rattle.analyser.specs.reading.Replies.{IsSolved};

use crate::commands::answer_words;
use crate::solvers::{Alone, Manner, Solved, Workers, solved_by_workers};
use cmd_words::{Command, read_words};
use program_streams::Status;
use std::alloc::Global as Heap;
use std::sync::Wait;
use std::thread::Threads;
use tm_io::{Gate, Sink, Source};
use tm_lattice::NoMemory;
use worker_solutions::Analysis;

/// Answers words and a source: the words are those of the command without the program's name; a command that reads the
/// source reads it to its end or past the limit; and the text that goes with the status is written whole. The text is
/// made before its first byte is written.
///
/// The tasks are analysed by as many workers as the words ask for, and the gate is told when a pass begins and when it
/// has ended; where the words ask for no workers the calling thread passes the tasks in turn, as in `analyse_alone`,
/// and the gate is not told. The call may wait for its workers, so no contract says that it returns; what it answers
/// does not depend on how many they are, nor on their order, but for the lines of a history.
pub fn analyse<R: Threads + Wait + Sync, S: Source, K: Sink, G: Gate>(
    rt: &R,
    alloc: Heap,
    words: &[String],
    source: &mut S,
    out: &mut K,
    gate: &G,
) -> Status
    // Status 0 or 1 of `analyse`: the sink has taken the report of the least solution of the source's interference
    // equations, in which each error that occurs in an allowed run is listed at its place; before it, where it is asked
    // for, stand the lines of a legal history of these workers on the source's program that has come to its end. Status
    // 2: the line of the source's refusal. Status 3: the usage line. The other commands: the whole text that theirs is.
    ensures headline { IsWhole result →
        Answers (MayGive (texts_of words.now)) (S.left source.old) (K.taken out.old) (K.taken out.new) result }

    // What soundness says of `analyse`, in terms of the source and its runs alone: nothing that its definitions cite
    // speaks of the analysis. It follows from the first clause.
    ensures sound { IsReported result → AsksForReport words.now →
        Answers IsSound (S.left source.old) (K.taken out.old) (K.taken out.new) result }

    // Whatever comes, the sink has taken nothing, or a front of a text that these words and bytes may give.
    ensures front { TakesNoMore (MayGive (texts_of words.now)) (S.left source.old) (K.taken out.old) (K.taken out.new) }

    // A command that reads the source reads all that it has left, unless it is too long.
    ensures all { Reads (command_of (texts_of words.now)) → IsWhole result →
        IsReadOut (longest_of (command_of (texts_of words.now))) (S.left source.old) (S.left source.new) }

    // Usage comes exactly where the words are no command. Where they are no command that reads, nothing is read.
    ensures words { IsCommand (command_of (texts_of words.now)) → result ≢ Status.Usage }
    ensures usage { (IsCommand (command_of (texts_of words.now)) → ⊥) → (result ≡ Status.Usage) ⊎ IsSinkStop result }
    ensures unread { (Reads (command_of (texts_of words.now)) → ⊥) → source.new ≡ source.old }

    // A fault comes exactly where a count of faults rose. After a read fault nothing is taken.
    ensures read { result ≡ Status.ReadFault → Reads (command_of (texts_of words.now))
        × Rose (S.faults source.old) (S.faults source.new) × (K.taken out.new ≡ K.taken out.old) }
    ensures write { result ≡ Status.WriteFault → Rose (K.faults out.old) (K.faults out.new) }
    ensures source_faults { result ≢ Status.ReadFault → S.faults source.new ≡ S.faults source.old }
    ensures sink_faults { result ≢ Status.WriteFault → K.faults out.new ≡ K.faults out.old }

    // Bytes that the command accepts come to their answer, and those that it refuses to their refusal, unless a device
    // fails or memory runs out.
    ensures accepted { (bytes : List ℕ) → AnswersFor (command_of (texts_of words.now)) (S.left source.old) bytes →
        Accepts (command_of (texts_of words.now)) bytes → IsReported result ⊎ IsStop result }
    ensures refused { (bytes : List ℕ) → AnswersFor (command_of (texts_of words.now)) (S.left source.old) bytes →
        Refuses (command_of (texts_of words.now)) bytes → (result ≡ Status.Refused) ⊎ IsStop result }
{
    let solve = |analysis: Analysis, workers: u32, history: bool| -> Result<Solved, NoMemory>
        requires { AreFew workers history }
        ensures { IfOk result (IsSolved (program_of analysis) workers history) }
    { solved_by_workers(rt, alloc, analysis, Manner { workers, history }, gate) };
    answer_words(&Workers { solve }, alloc, words, source, out)
}

/// Whether a command asks for workers.
fn asks(command: &Option<Command>) -> bool
    ensures { result ≡ asks_workers command.now }
{
    match command {
        Some(Command::Analyse(asked)) => asked.workers > 1 || asked.history,
        Some(Command::Demo(asked)) => asked.workers > 1,
        _ => false,
    }
}

/// Whether words ask for workers: for more than one, or for the history of one. All others, those that are no command
/// among them, `analyse_alone` answers.
pub fn asks_workers(alloc: Heap, words: &[String]) -> Result<bool, NoMemory>
    ensures { IfOk result (λ asks. asks ≡ asks_workers (command_of (texts_of words.now))) }
{
    let command = read_words(alloc, words)?;
    Ok(asks(&command))
}

/// Answers words that ask for no workers, and a source, as `analyse` does, on the calling thread alone. It is given no
/// handle by which it could wait for another thread: it is proved to return, for any source and sink whose calls do.
pub fn analyse_alone<S: Source, K: Sink>(
    alloc: Heap,
    words: &[String],
    source: &mut S,
    out: &mut K,
) -> Status
    // `asks_workers` is the test.
    requires alone { asks_workers (command_of (texts_of words.now)) ≡ false }

    // The clauses are those of `analyse`, above.
    ensures headline { IsWhole result →
        Answers (MayGive (texts_of words.now)) (S.left source.old) (K.taken out.old) (K.taken out.new) result }
    ensures sound { IsReported result → AsksForReport words.now →
        Answers IsSound (S.left source.old) (K.taken out.old) (K.taken out.new) result }
    ensures front { TakesNoMore (MayGive (texts_of words.now)) (S.left source.old) (K.taken out.old) (K.taken out.new) }
    ensures all { Reads (command_of (texts_of words.now)) → IsWhole result →
        IsReadOut (longest_of (command_of (texts_of words.now))) (S.left source.old) (S.left source.new) }
    ensures words { IsCommand (command_of (texts_of words.now)) → result ≢ Status.Usage }
    ensures usage { (IsCommand (command_of (texts_of words.now)) → ⊥) → (result ≡ Status.Usage) ⊎ IsSinkStop result }
    ensures unread { (Reads (command_of (texts_of words.now)) → ⊥) → source.new ≡ source.old }
    ensures read { result ≡ Status.ReadFault → Reads (command_of (texts_of words.now))
        × Rose (S.faults source.old) (S.faults source.new) × (K.taken out.new ≡ K.taken out.old) }
    ensures write { result ≡ Status.WriteFault → Rose (K.faults out.old) (K.faults out.new) }
    ensures source_faults { result ≢ Status.ReadFault → S.faults source.new ≡ S.faults source.old }
    ensures sink_faults { result ≢ Status.WriteFault → K.faults out.new ≡ K.faults out.old }
    ensures accepted { (bytes : List ℕ) → AnswersFor (command_of (texts_of words.now)) (S.left source.old) bytes →
        Accepts (command_of (texts_of words.now)) bytes → IsReported result ⊎ IsStop result }
    ensures refused { (bytes : List ℕ) → AnswersFor (command_of (texts_of words.now)) (S.left source.old) bytes →
        Refuses (command_of (texts_of words.now)) bytes → (result ≡ Status.Refused) ⊎ IsStop result }
{
    answer_words(&Alone, alloc, words, source, out)
}
