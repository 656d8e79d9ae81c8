//! The cells that pass edges, and what constraints are by their numbers.
ghost use Rattle.std.specs.Prelude.{◌≡◌, ◌<◌, ◌+◌, ◌++◌, length, map, not, IfOk};
ghost use Rattle.std.specs.List.{filter};
ghost use Rattle.cell_placings.specs.CellLists.{is_in, cells_at};
ghost use Rattle.slot_numbers.specs.Names.{rule_named};
ghost use Rattle.slot_numbers.specs.Numberings.{rule_of, along_edge};
ghost use Rattle.slot_numbers.specs.Numbered.{AreVariables, AreFlows, AreEnds};

use crate::names::{FlowingCell, Rule};
use crate::variable_numbers::VariableNumbers;
use cell_placings::{CellGraph, CellPlacing, CellSet, has_cell};
use std::alloc::Global;
use tm_lattice::NoMemory;

/// The flows of a graph, by edge, then by cell.
pub fn list_flows(
    alloc: Global,
    graph: &CellGraph,
    placing: &CellPlacing,
    cells: &CellSet,
    variables: &VariableNumbers,
) -> Result<Vec<FlowingCell>, NoMemory>
    requires ends { AreEnds graph.now }
    requires variables { AreVariables graph.now placing.now cells.now variables.now }
    ensures { IfOk result (λ flows. AreFlows graph.now placing.now cells.now flows.items) }
{
    let mut flows = Vec::new(alloc);
    for edge in 0..graph.links.len() {
        let to = graph.links[edge].to;
        let own = variables.owned(to);
        push_flows(&mut flows, graph, edge, own)?;
    }
    Ok(flows)
}

// Adds those of these cells that the edge does not touch.
#[tactic(auto, using(crate::proofs::Lists::filtered_in, crate::proofs::Lists::filtered_out))]
fn push_flows(
    flows: &mut Vec<FlowingCell>,
    graph: &CellGraph,
    edge: usize,
    own: &[usize],
) -> Result<(), NoMemory>
    ensures { IfOk result (λ done. flows.new.items ≡ flows.old.items
        ++ map (along_edge edge) (filter (λ x. not (is_in (cells_at graph.now.touched.items edge) x)) own.now)) }
{
    for cell in own {
        if !has_cell(&graph.touched, edge, *cell) {
            flows.push(FlowingCell { edge, cell: *cell })?;
        }
    }
    Ok(())
}

/// The constraint of a number: the entry, then the rows of edges, then the flows.
pub fn rule_at(edges: usize, flows: &[FlowingCell], number: usize) -> Rule
    requires { number < edges + 1 + length flows.now }
    ensures { rule_named result ≡ rule_of edges flows.now number }
{
    if number == 0 {
        return Rule::Entered;
    }
    if number <= edges {
        return Rule::Row(number - 1);
    }
    let flow = flows[number - 1 - edges];
    Rule::Flow {
        edge: flow.edge,
        cell: flow.cell,
    }
}
