//! Runs along graphs, one answer after the other.
ghost use Rattle.std.specs.Prelude.{◌≡◌, List, [], ◌∷◌, ◌++◌, IsOk, IfOk, OnOk, OnErr};
ghost use Rattle.tm_laid.specs.Layouts.{laid_tree};
ghost use Rattle.concrete_values.specs.declared.values.Answer.{Answer};
ghost use Rattle.flow_graph.specs.Runs.{GraphNext};
ghost use Rattle.graph_positions.specs.Layouts.{IsServing};
ghost use Rattle.graph_positions.specs.Positions.{IsGraph, IsPositionOf, HasRoom};
ghost use Rattle.graph_positions.specs.RunsAfter.{IsRunAfter};

use crate::positions::Position;
use concrete_values::{Answer, Next};
use flow_graph::Graph;
use std::alloc::Global;
use tm_laid::Laid;
use tm_lattice::NoMemory;

/// A run along a graph, after some answers. It keeps its position, so that one answer more costs what it does, however
/// many came before.
#[derive(Drop)]
pub struct Run {
    /// Where it stands.
    pub position: Position,
    /// What it does next.
    pub next: Next,
    /// Whether each answer fitted the action before it. Once one does not, nothing follows.
    pub fits: bool,
}

impl Run {
    /// The run before any answer.
    pub fn start(alloc: Global, laid: &Laid, graph: &Graph) -> Result<Run, NoMemory>
        requires laid { IsServing laid.now }
        requires graph { IsGraph graph.now.edges.items graph.now.nodes }
        ensures { IfOk result (IsRunAfter (laid_tree laid.now) graph.now.edges.items graph.now.nodes []) }
    {
        let mut position = Position::start(alloc, graph)?;
        let next = position.advance(laid, graph);
        Ok(Run {
            position,
            next,
            fits: true,
        })
    }

    /// The run takes one answer more, and comes to its next action. The one cause of want of memory is a count of
    /// answers that leaves 64 bits; the answers are the same then.
    pub fn answer(&mut self, laid: &Laid, graph: &Graph, answer: Answer) -> Result<(), NoMemory>
        requires laid { IsServing laid.now }
        requires graph { IsGraph graph.now.edges.items graph.now.nodes }
        requires position { IsPositionOf graph.now.edges.items graph.now.nodes self.old.position }
        ensures more { OnOk result ((answers : List Answer)
            → IsRunAfter (laid_tree laid.now) graph.now.edges.items graph.now.nodes answers self.old
            → IsRunAfter (laid_tree laid.now) graph.now.edges.items graph.now.nodes (answers ++ answer ∷ []) self.new) }
        ensures same { OnErr result ((answers : List Answer)
            → IsRunAfter (laid_tree laid.now) graph.now.edges.items graph.now.nodes answers self.old
            → IsRunAfter (laid_tree laid.now) graph.now.edges.items graph.now.nodes answers self.new) }
        ensures room { HasRoom self.old.position → IsOk result }
    {
        if !self.fits {
            return Ok(());
        }
        if self.position.answer(laid, graph, answer)? {
            self.next = self.position.advance(laid, graph);
        } else {
            self.next = Next::Misfit;
            self.fits = false;
        }
        Ok(())
    }
}

/// The action that follows these answers in a run of the graph.
///
/// A public call of its own, for users of the crate who have the answers at hand; a world keeps a `Run`, to which it
/// tells each answer once.
pub fn graph_next(
    alloc: Global,
    laid: &Laid,
    graph: &Graph,
    answers: &[Answer],
) -> Result<Next, NoMemory>
    requires laid { IsServing laid.now }
    requires graph { IsGraph graph.now.edges.items graph.now.nodes }
    ensures { IfOk result (λ n. GraphNext (laid_tree laid.now) graph.now.edges.items answers.now n) }
{
    let mut run = Run::start(alloc, laid, graph)?;
    for answer in answers {
        run.answer(laid, graph, *answer)?;
    }
    Ok(run.next)
}
