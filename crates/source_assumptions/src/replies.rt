//! What is told of the assumptions of a source.
ghost use Rattle.std.specs.Prelude.{◌≡◌, ◌≤◌, length, IfOk};
ghost use Rattle.tm_terms.specs.Limits.{most_bytes};
ghost use Rattle.tm_laid.specs.tm_typed.TypedFiles.{typed_file_tree};
ghost use Rattle.tm_laid.specs.Layable.{IsLayable};
ghost use Rattle.tm_laid.specs.Layouts.{laid_tree};
ghost use Rattle.program_solutions.specs.program_systems.ReadPrograms.{program_of};
ghost use Rattle.program_solutions.specs.LeastReports.{IsLeastPair};
ghost use Rattle.source_assumptions.specs.Lists.{choices_status};
ghost use Rattle.source_assumptions.specs.reading.Told.{IsOpened, TellsAssumptionsOf};

use crate::lines::choices_text;
use edge_origins::{BodyOrigins, edge_origins};
use flow_graph::Graph;
use open_choices::open_choices;
use program_solutions::{Analysis, Solution};
use program_streams::Status;
use std::alloc::Global;
use text_choices::{Choice, add_text_choices, opening_places};
use tm_laid::Laid;
use tm_lattice::NoMemory;

/// What is read off a source before its program is analysed: what its text leaves open, and where the edges of its
/// graphs come from.
#[derive(Drop)]
pub struct Opened {
    pub others: Vec<Choice>,
    pub origins: Vec<BodyOrigins>,
}

/// A status and the whole text that goes with it.
#[derive(Drop)]
pub struct AssumptionReply {
    pub status: Status,
    pub text: Vec<u8>,
}

/// What is read off a source, which is laid out so and has these graphs.
pub fn opened_of(
    alloc: Global,
    bytes: &[u8],
    laid: &Laid,
    graphs: &[Graph],
) -> Result<Opened, NoMemory>
    requires short { length bytes.now ≤ most_bytes }
    requires layable { IsLayable (typed_file_tree laid.now.file) laid.now.file.order.items }
    requires few { length laid.now.cells.items ≤ 65536 }
    ensures { IfOk result (IsOpened bytes.now (laid_tree laid.now) graphs.now) }
{
    let mut others = Vec::new(alloc);
    add_text_choices(alloc, bytes, laid, &mut others)?;
    let opens = opening_places(alloc, bytes)?;
    let origins = edge_origins(alloc, laid, graphs, &opens)?;
    Ok(Opened { others, origins })
}

/// Whether there is an assumption.
fn choices_status(choices: &[Choice]) -> Status
    ensures { result ≡ choices_status choices.now }
{
    if choices.is_empty() {
        Status::NoAlarm
    } else {
        Status::Alarms
    }
}

/// The list of these choices, where the edges come from there, and of what a least solution leaves open.
fn list_reply(
    alloc: Global,
    others: Vec<Choice>,
    origins: &[BodyOrigins],
    analysis: &Analysis,
    found: &Solution,
) -> Result<AssumptionReply, NoMemory>
    requires { IsLeastPair (program_of analysis.now) found.now }
    ensures { IfOk result (λ reply. TellsAssumptionsOf (program_of analysis.now) others.items origins.now found.now
        reply.status reply.text.items) }
{
    let (program, facts) = analysis.parts();
    let choices = open_choices(
        alloc,
        others,
        program,
        facts,
        found.tables(),
        found.store(),
        origins,
    )?;
    let text = choices_text(alloc, &choices)?;
    Ok(AssumptionReply {
        status: choices_status(&choices),
        text,
    })
}

/// The list of the assumptions of a source, of which so much is read off, on a least solution of its program.
pub fn assumptions_reply(
    alloc: Global,
    opened: &Opened,
    analysis: &Analysis,
    found: &Solution,
) -> Result<AssumptionReply, NoMemory>
    requires { IsLeastPair (program_of analysis.now) found.now }
    ensures { IfOk result (λ reply. TellsAssumptionsOf (program_of analysis.now) opened.now.others.items
        opened.now.origins.items found.now reply.status reply.text.items) }
{
    let mut others = Vec::new(alloc);
    others.extend_from_slice(&opened.others)?;
    list_reply(alloc, others, &opened.origins, analysis, found)
}
