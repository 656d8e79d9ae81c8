//! Answers to replays.
ghost use Rattle.std.specs.Prelude.{◌≡◌, IfOk, string_bytes};
ghost use Rattle.tm_terms.specs.Texts.{refusal_text};
ghost use Rattle.tm_laid.specs.Layouts.{laid_tree};
ghost use Rattle.concrete_worlds.specs.Lawful.{HasWorlds, HasGraphs};
ghost use Rattle.source_programs.specs.Sources.{source_limit};
ghost use Rattle.source_replays.specs.Replays.{HasReplay, IsReplayable, no_replay_text};
ghost use Rattle.source_replays.specs.reading.Replies.{IsRefusalLine, TellsRun};

use concrete_worlds::laws::laid_files_have_worlds;
use flow_graph::Graph;
use program_worlds::programs_have_graphs;
use replay_lines::{Ending, choices_in, replay_text, source_in};
use replay_runs::{Run, run_by};
use source_programs::source_program;
use std::alloc::Global;
use tm_laid::Laid;
use tm_lattice::NoMemory;
use tm_terms::limits::SOURCE;
use tm_terms::{Fail, Kind, Limit, Place, Refusal, refusal_line};

/// What became of a replay.
#[derive(Clone, Copy, PartialEq, Eq)]
pub enum Outcome {
    /// All choices were done, and no tasks race on the way.
    Clean,
    /// Tasks race on the way, or a choice is not allowed, or stops the run with an error.
    Found,
    /// The bytes are refused.
    Refused,
}

/// What became of a replay, and the whole text that goes with it.
#[derive(Drop)]
pub struct Reply {
    pub outcome: Outcome,
    pub text: String,
}

/// The refusal of bytes that are too many.
fn too_long() -> Refusal
    ensures { result ≡ source_limit }
{
    Refusal {
        kind: Kind::Limit,
        place: Place { line: 0, col: 0 },
        limit: Some(Limit::Source),
    }
}

/// The line of a refusal.
fn refused(alloc: Global, refusal: Refusal) -> Result<Reply, NoMemory>
    ensures { IfOk result (λ reply. IsRefusalLine refusal reply.outcome (string_bytes reply.text)) }
{
    let text = refusal_line(alloc, &refusal)?;
    Ok(Reply {
        outcome: Outcome::Refused,
        text,
    })
}

/// The line of bytes whose source is accepted, and that ask for no run.
fn not_asked(alloc: Global) -> Result<Reply, NoMemory>
    ensures outcome { IfOk result (λ reply. reply.outcome ≡ Outcome.Refused) }
    ensures text { IfOk result (λ reply. string_bytes reply.text ≡ no_replay_text) }
{
    let text = String::from_str(alloc, "refused replay\n")?;
    Ok(Reply {
        outcome: Outcome::Refused,
        text,
    })
}

/// The lines of a run.
fn told(alloc: Global, run: &Run) -> Result<Reply, NoMemory>
    ensures { IfOk result (λ reply. TellsRun run.now.places.items run.now.ending reply.outcome
        (string_bytes reply.text)) }
{
    let text = replay_text(alloc, &run.places, run.ending)?;
    let outcome = match run.ending {
        Ending::Ran(_) => {
            if run.places.is_empty() {
                Outcome::Clean
            } else {
                Outcome::Found
            }
        }
        _ => Outcome::Found,
    };
    Ok(Reply { outcome, text })
}

/// The answer to bytes of whose source these are the layout and the graphs.
fn replayed(alloc: Global, bytes: &[u8], laid: &Laid, graphs: &[Graph]) -> Result<Reply, NoMemory>
    requires replayable { IsReplayable bytes.now (laid_tree laid.now) }
    requires worlds { HasWorlds laid.now }
    requires graphs { HasGraphs laid.now graphs.now }
    ensures { IfOk result (λ reply. HasReplay bytes.now reply.outcome (string_bytes reply.text)) }
{
    match choices_in(alloc, bytes)? {
        Some(choices) => {
            let run = run_by(alloc, laid, graphs, &choices)?;
            told(alloc, &run)
        }
        None => not_asked(alloc),
    }
}

/// The answer to the bytes of a replay. Refused are bytes that are too many, or whose source is refused, or else which
/// ask for no run: where no line is `#replay`, or a line behind it is no choice, or the choices are too many.
pub fn replay(alloc: Global, bytes: &[u8]) -> Result<Reply, NoMemory>
    ensures { IfOk result (λ reply. HasReplay bytes.now reply.outcome (string_bytes reply.text)) }
{
    laid_files_have_worlds();
    programs_have_graphs();
    if bytes.len() > SOURCE as usize {
        return refused(alloc, too_long());
    }
    match source_program(alloc, source_in(bytes), &[]) {
        Ok(program) => replayed(alloc, bytes, &program.laid, &program.graphs.graphs),
        Err(Fail::Refused(refusal)) => refused(alloc, refusal),
        Err(Fail::NoMemory) => Err(NoMemory),
    }
}
