//! The operations of alarms.
ghost use Rattle.std.specs.Prelude.{◌≡◌, Some, slice_get};
ghost use Rattle.post_recheck.specs.program_systems.Analysable.{IsAnalysable};
ghost use Rattle.post_recheck.specs.program_systems.ProgramFacts.{AreProgramFacts, program_with};
ghost use Rattle.program_notes.specs.Operations.{operation_of};
ghost use Rattle.program_notes.specs.reading.Lookups.{in_graph, in_graphs};

use alarm_contexts::AlarmContexts;
use flow_graph::{Graph, Operation};
use mutex_configs::Program;
use post_recheck::ProgramFacts;

/// The operation of an edge, by its number in a graph.
fn in_graph(edge: usize, graph: &Graph) -> Operation
    ensures { result ≡ in_graph edge (Some graph.now) }
{
    match graph.edges.get(edge) {
        None => Operation::Skip,
        Some(found) => found.op,
    }
}

/// The operation of the first of the edges of an alarm.
fn first_operation(graphs: &[Graph], alarm: &AlarmContexts) -> Operation
    ensures { result ≡ in_graphs graphs.now (slice_get alarm.now.edges.items 0) }
{
    match alarm.edges.get(0) {
        None => Operation::Skip,
        Some(edge) => match graphs.get(edge.body as usize) {
            None => Operation::Skip,
            Some(graph) => in_graph(edge.edge, graph),
        },
    }
}

/// The operation of an alarm of a program.
pub fn operation_of(program: &Program, facts: &ProgramFacts, alarm: &AlarmContexts) -> Operation
    requires analysable { IsAnalysable program.now }
    requires facts { AreProgramFacts program.now facts.now }
    ensures { result ≡ operation_of (program_with program.now facts.now) alarm.now }
{
    let _facts = facts;
    first_operation(&program.graphs.graphs, alarm)
}
