//! Whether two analyses are of one program.
ghost use Rattle.std.specs.Prelude.{◌≡◌, ◌↔◌, IsTrue};
ghost use Rattle.program_equality.specs.temporary_types.PointerMarks.{pointer_marks};
ghost use Rattle.program_equality.specs.temporary_types.Temporaries.{temporaries_in};
ghost use Rattle.program_systems.specs.Analysable.{IsAnalysable};
ghost use Rattle.program_systems.specs.ProgramFacts.{AreProgramFacts, read_body, read_with};

use crate::analyses::Analysis;
use flow_graph::Graph;
use mutex_configs::{ConfiguredGraph, Program};
use program_equality::{
    are_same_copies, are_same_edges, are_same_heads, are_same_lists, are_same_marks,
    are_same_nodes, are_same_priorities, is_same_layout,
};
use program_systems::{BodyFacts, ProgramFacts};

/// A body of a program, with what is computed once of it.
#[derive(Clone, Copy)]
struct BodyOf<'a> {
    graph: &'a Graph,
    configured: &'a ConfiguredGraph,
    facts: &'a BodyFacts,
}

// Whether two bodies are equal. Which temporaries hold pointers, their edges tell.
fn is_same_body(one: &BodyOf, other: &BodyOf) -> bool
    requires one { one.now.facts.now.pointer_marks ≡ pointer_marks one.now.graph.now.edges.items
        (temporaries_in one.now.graph.now.edges.items) }
    requires other { other.now.facts.now.pointer_marks ≡ pointer_marks other.now.graph.now.edges.items
        (temporaries_in other.now.graph.now.edges.items) }
    ensures { IsTrue result ↔ (read_body one.now.graph.now one.now.configured.now one.now.facts.now
        ≡ read_body other.now.graph.now other.now.configured.now other.now.facts.now) }
{
    are_same_edges(&one.graph.edges, &other.graph.edges)
        && are_same_nodes(&one.configured.nodes, &other.configured.nodes)
        && are_same_copies(&one.configured.copies, &other.configured.copies)
        && are_same_lists(one.facts.live(), other.facts.live())
        && are_same_heads(one.facts.heads(), other.facts.heads())
        && are_same_lists(one.facts.written(), other.facts.written())
}

// Whether the bodies of two programs are equal.
fn are_same_bodies(
    one: &Program,
    one_facts: &ProgramFacts,
    other: &Program,
    other_facts: &ProgramFacts,
) -> bool
    requires one { IsAnalysable one.now }
    requires one_facts { AreProgramFacts one.now one_facts.now }
    requires other { IsAnalysable other.now }
    requires other_facts { AreProgramFacts other.now other_facts.now }
    ensures { IsTrue result
        ↔ ((read_with one.now one_facts.now).bodies ≡ (read_with other.now other_facts.now).bodies) }
{
    if one.graphs.graphs.len() != other.graphs.graphs.len() {
        return false;
    }
    for number in 0..one.graphs.graphs.len() {
        let first = BodyOf {
            graph: &one.graphs.graphs[number],
            configured: &one.configured[number],
            facts: &one_facts.bodies()[number],
        };
        let second = BodyOf {
            graph: &other.graphs.graphs[number],
            configured: &other.configured[number],
            facts: &other_facts.bodies()[number],
        };
        if !is_same_body(&first, &second) {
            return false;
        }
    }
    true
}

/// Whether two analyses are of one program, as far as its equations read it.
pub(crate) fn is_same_program(one: &Analysis, other: &Analysis) -> bool
    ensures { IsTrue result ↔ (one.now ≡ other.now) }
{
    let (program, facts) = one.parts();
    let (other_program, other_facts) = other.parts();
    program.laid.file.tasks.len() == other_program.laid.file.tasks.len()
        && are_same_priorities(facts.priorities(), other_facts.priorities())
        && are_same_marks(&program.marks, &other_program.marks)
        && is_same_layout(&program.laid, &other_program.laid)
        && are_same_bodies(program, facts, other_program, other_facts)
}
