//! Steps of a run along edges.
ghost use Rattle.std.specs.Prelude.{◌≡◌, ◌<◌, ◌+◌, ◌^◌, length};
ghost use Rattle.flow_graph.specs.Runs.{is_round};
ghost use Rattle.graph_positions.specs.Memories.{memory_of};
ghost use Rattle.graph_positions.specs.reading.Steps.{step_along};

use crate::outcomes::Outcome;
use crate::positions::Position;
use concrete_values::{Next, Value};
use flow_graph::Edge;

/// What a run does at a node, along an edge by its number.
#[derive(Clone, Copy)]
pub enum Step {
    /// It goes on by itself, and the edge's temporary gets this value.
    Goes { edge: usize, value: Value },
    /// The same, back to a head to which it came with no answer since.
    Round { edge: usize, value: Value },
    /// It waits for an answer to this action.
    Awaits { edge: usize, action: Next },
    /// It stops with this action.
    Halts(Next),
}

// Whether an edge leads back to a head to which the run came with no answer since.
fn is_round(position: &Position, edge: &Edge) -> bool
    requires seen { edge.now.to < length position.now.seen.items }
    requires room { position.now.used + 1 < 2 ^ 64 }
    ensures { result ≡ is_round edge.now (memory_of position.now) }
{
    edge.to <= edge.from && position.seen[edge.to as usize] == position.used + 1
}

// The step along an edge, if it can be gone.
pub(crate) fn step_along(
    position: &Position,
    number: usize,
    edge: &Edge,
    outcome: Outcome,
) -> Option<Step>
    requires seen { edge.now.to < length position.now.seen.items }
    requires room { position.now.used + 1 < 2 ^ 64 }
    ensures { result ≡ step_along number edge.now (memory_of position.now) outcome }
{
    match outcome {
        Outcome::Gives(value) => {
            if is_round(position, edge) {
                Some(Step::Round {
                    edge: number,
                    value,
                })
            } else {
                Some(Step::Goes {
                    edge: number,
                    value,
                })
            }
        }
        Outcome::Shut => None,
        Outcome::Asks(action) => Some(Step::Awaits {
            edge: number,
            action,
        }),
        Outcome::Fails(class, place) => Some(Step::Halts(Next::Fault { class, place })),
    }
}
