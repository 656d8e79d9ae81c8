//! Positions of runs along graphs.
ghost use Rattle.std.specs.Prelude.{◌≡◌, ◌<◌, ◌+◌, ◌^◌, [], IsOk, IfOk, OnErr};
ghost use Rattle.std.specs.Prelude.{length, slice_set};
ghost use Rattle.tm_laid.specs.Layouts.{laid_tree};
ghost use Rattle.flow_graph.specs.Runs.{at_entry, move};
ghost use Rattle.flow_graph.specs.Positions.{Reaches, Is};
ghost use Rattle.graph_positions.specs.Layouts.{IsServing};
ghost use Rattle.graph_positions.specs.Memories.{memory_of};
ghost use Rattle.graph_positions.specs.Positions.{IsGraph, IsPositionOf, IsAnswered, HasRoom};
ghost use Rattle.graph_positions.specs.reading.Steps.{edge_at, behind, IsStepAt, IsStop};

use crate::outcomes::doing;
use crate::steps::{Step, step_along};
use crate::temporaries::{count_of_temporaries, no_values, none_seen, put_value};
use concrete_values::{Answer, Next, Value, answer_of};
use flow_graph::Graph;
use graph_facts::{given, leaving};
use std::alloc::Global;
use tm_laid::Laid;
use tm_lattice::NoMemory;

/// Where a run along a graph stands.
#[derive(Drop)]
pub struct Position {
    pub node: u32,
    /// The values of temporaries, by their numbers.
    pub temporaries: Vec<Value>,
    /// How many answers the run has had.
    pub used: u64,
    /// For each node one more than the number of answers that the run had had when it last came there, or 0.
    pub seen: Vec<u64>,
    /// For each node the numbers of the edges that leave it, in order.
    pub leaving: Vec<Vec<usize>>,
}

// One answer more. Where that would be nearly 2^64, there is no memory for so many answers.
fn one_more(used: u64) -> Result<u64, NoMemory>
    ensures one { IfOk result (λ n. (n ≡ used + 1) × (n + 1 < 2 ^ 64)) }
    ensures room { used + 2 < 2 ^ 64 → IsOk result }
{
    if used < u64::MAX - 1 {
        Ok(used + 1)
    } else {
        Err(NoMemory)
    }
}

impl Position {
    /// At the entry node of a graph, before any answer.
    pub fn start(alloc: Global, graph: &Graph) -> Result<Position, NoMemory>
        requires { IsGraph graph.now.edges.items graph.now.nodes }
        ensures position { IfOk result (λ p. IsPositionOf graph.now.edges.items graph.now.nodes p) }
        ensures node { IfOk result (λ p. p.node ≡ 0) }
        ensures memory { IfOk result (λ p. memory_of p ≡ at_entry) }
    {
        let leaving = leaving(alloc, graph)?;
        let temporaries = no_values(alloc, count_of_temporaries(graph))?;
        let mut seen = none_seen(alloc, graph.nodes)?;
        seen[0] = 1;
        Ok(Position {
            node: 0,
            temporaries,
            used: 0,
            seen,
            leaving,
        })
    }

    // What the run does at its node.
    fn step(&self, laid: &Laid, graph: &Graph) -> Step
        requires laid { IsServing laid.now }
        requires graph { IsGraph graph.now.edges.items graph.now.nodes }
        requires position { IsPositionOf graph.now.edges.items graph.now.nodes self.now }
        ensures { IsStepAt (laid_tree laid.now) graph.now.edges.items self.now.node (memory_of self.now) result }
    {
        for number in &self.leaving[self.node as usize] {
            let edge = &graph.edges[*number];
            let outcome = doing(laid, edge.op, &self.temporaries);
            if let Some(step) = step_along(self, *number, edge, outcome) {
                return step;
            }
        }
        Step::Halts(Next::Ended)
    }

    // The run goes along an edge, after so many answers.
    fn go(&mut self, graph: &Graph, number: usize, used: u64, value: Value)
        requires graph { IsGraph graph.now.edges.items graph.now.nodes }
        requires edge { number < length graph.now.edges.items }
        requires room { used + 1 < 2 ^ 64 }
        requires position { IsPositionOf graph.now.edges.items graph.now.nodes self.old }
        ensures position { IsPositionOf graph.now.edges.items graph.now.nodes self.new }
        ensures node { self.new.node ≡ (edge_at graph.now.edges.items number).to }
        ensures seen { self.new.seen.items ≡ slice_set self.old.seen.items
            (edge_at graph.now.edges.items number).to (used + 1) }
        ensures used { self.new.used ≡ used }
        ensures memory { memory_of self.new ≡ behind (edge_at graph.now.edges.items number) used value
            (memory_of self.old) }
    {
        let edge = &graph.edges[number];
        put_value(&mut self.temporaries, given(edge.op), value);
        self.seen[edge.to as usize] = used + 1;
        self.used = used;
        self.node = edge.to;
    }

    // The run goes on by itself to where it stands. What it does there.
    fn drift(&mut self, laid: &Laid, graph: &Graph) -> Step
        requires laid { IsServing laid.now }
        requires graph { IsGraph graph.now.edges.items graph.now.nodes }
        requires position { IsPositionOf graph.now.edges.items graph.now.nodes self.old }
        ensures position { IsPositionOf graph.now.edges.items graph.now.nodes self.new }
        ensures reaches { Reaches (laid_tree laid.now) graph.now.edges.items self.old.node (memory_of self.old) []
            self.new.node (memory_of self.new) }
        ensures step { IsStepAt (laid_tree laid.now) graph.now.edges.items self.new.node (memory_of self.new) result }
        ensures stop { IsStop result }
        ensures used { self.new.used ≡ self.old.used }
    {
        let mut step = self.step(laid, graph);
        while let Step::Goes { edge, value } = step {
            let used = self.used;
            self.go(graph, edge, used, value);
            step = self.step(laid, graph);
        }
        step
    }

    /// The run goes on by itself to where it stands: its next action there. Back to a head to which it came with no
    /// answer since it does not go.
    pub fn advance(&mut self, laid: &Laid, graph: &Graph) -> Next
        requires laid { IsServing laid.now }
        requires graph { IsGraph graph.now.edges.items graph.now.nodes }
        requires position { IsPositionOf graph.now.edges.items graph.now.nodes self.old }
        ensures position { IsPositionOf graph.now.edges.items graph.now.nodes self.new }
        ensures reaches { Reaches (laid_tree laid.now) graph.now.edges.items self.old.node (memory_of self.old) []
            self.new.node (memory_of self.new) }
        ensures stands { Is (move (laid_tree laid.now) graph.now.edges.items self.new.node (memory_of self.new))
            result }
    {
        match self.drift(laid, graph) {
            Step::Awaits { action, .. } => action,
            Step::Halts(action) => action,
            Step::Goes { .. } | Step::Round { .. } => Next::Spins,
        }
    }

    /// The run goes on by itself to where it stands, and by one answer, where that fits. Whether it does. The
    /// one cause of want of memory is a count of answers that leaves 64 bits.
    pub fn answer(&mut self, laid: &Laid, graph: &Graph, answer: Answer) -> Result<bool, NoMemory>
        requires laid { IsServing laid.now }
        requires graph { IsGraph graph.now.edges.items graph.now.nodes }
        requires position { IsPositionOf graph.now.edges.items graph.now.nodes self.old }
        ensures position { IsPositionOf graph.now.edges.items graph.now.nodes self.new }
        ensures answered { IfOk result (λ fits. IsAnswered (laid_tree laid.now) graph.now.edges.items self.old.node
            (memory_of self.old) answer fits self.new.node (memory_of self.new)) }
        ensures same { OnErr result (Reaches (laid_tree laid.now) graph.now.edges.items self.old.node
            (memory_of self.old) [] self.new.node (memory_of self.new)) }
        ensures room { HasRoom self.old → IsOk result }
    {
        match self.drift(laid, graph) {
            Step::Awaits { edge, action } => match answer_of(laid, action, answer) {
                Some(value) => {
                    let used = one_more(self.used)?;
                    self.go(graph, edge, used, value);
                    Ok(true)
                }
                None => Ok(false),
            },
            _ => Ok(false),
        }
    }
}
