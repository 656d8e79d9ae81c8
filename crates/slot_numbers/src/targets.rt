//! To which variables constraints bring values.
ghost use Rattle.std.specs.Prelude.{◌≡◌, ◌<◌, ◌+◌, ◌++◌, ◌∷◌, [], ℕ, length, map, true, IfOk};
ghost use Rattle.table_covers.specs.Systems.{to_of};
ghost use Rattle.front_constraints.specs.Systems.{front_at, open_at, slot_at};
ghost use Rattle.cell_placings.specs.CellLists.{is_in, cells_at};
ghost use Rattle.cell_placings.specs.OwnerTrees.{placing_of};
ghost use Rattle.cell_placings.specs.Placed.{IsCellPlaced};
ghost use Rattle.slot_numbers.specs.Names.{rule_named};
ghost use Rattle.slot_numbers.specs.Numberings.{number_of, has_slot};
ghost use Rattle.slot_numbers.specs.Numbered.{IsNumberable, AreVariables, AreFlows, IsRuleOf, targets_on};
ghost use Rattle.slot_numbers.specs.reading.Building.{AreTargets};

use crate::flat_lists::FlatLists;
use crate::flows::rule_at;
use crate::names::{FlowingCell, Rule};
use crate::number_lists::NumberList;
use crate::variable_numbers::{VariableNumbers, total};
use cell_placings::{CellGraph, CellPlacing, CellSet, cells_at};
use std::alloc::Global;
use tm_lattice::NoMemory;

/// For each constraint its targets.
pub fn list_targets(
    alloc: Global,
    graph: &CellGraph,
    placing: &CellPlacing,
    cells: &CellSet,
    variables: &VariableNumbers,
    flows: &[FlowingCell],
) -> Result<FlatLists, NoMemory>
    requires placed { IsCellPlaced graph.now (placing_of graph.now placing.now) }
    requires numberable { IsNumberable graph.now placing.now cells.now }
    requires variables { AreVariables graph.now placing.now cells.now variables.now }
    requires flows { AreFlows graph.now placing.now cells.now flows.now }
    ensures { IfOk result (λ lists. AreTargets graph.now cells.now variables.now flows.now
        (length graph.now.links.items + 1 + length flows.now) lists) }
{
    let edges = graph.links.len();
    let first_flow = total(edges, 1)?;
    let count = total(first_flow, flows.len())?;
    // Each constraint has a target, and most have no other.
    let mut lists = FlatLists::with_capacity(alloc, count, count)?;
    for number in 0..count {
        let rule = rule_at(edges, flows, number);
        let list = targets(alloc, graph, placing, cells, variables, rule)?;
        lists.push_list(list.numbers())?;
    }
    lists.shrink_to_fit();
    Ok(lists)
}

// The numbers of the targets of a constraint.
fn targets(
    alloc: Global,
    graph: &CellGraph,
    placing: &CellPlacing,
    cells: &CellSet,
    variables: &VariableNumbers,
    rule: Rule,
) -> Result<NumberList, NoMemory>
    requires placed { IsCellPlaced graph.now (placing_of graph.now placing.now) }
    requires numberable { IsNumberable graph.now placing.now cells.now }
    requires variables { AreVariables graph.now placing.now cells.now variables.now }
    requires rule { IsRuleOf graph.now placing.now cells.now (rule_named rule) }
    ensures { IfOk result (λ list.
        list ≡ map (number_of variables.now) (targets_on graph.now cells.now (rule_named rule))) }
{
    match rule {
        Rule::Entered => entry_targets(alloc, variables, cells),
        Rule::Row(edge) => row_targets(alloc, graph, variables, edge),
        Rule::Flow { edge, cell } => flow_targets(alloc, graph, variables, edge, cell),
    }
}

// The numbers of the front and the slots of node 0.
fn entry_targets(
    alloc: Global,
    variables: &VariableNumbers,
    cells: &CellSet,
) -> Result<NumberList, NoMemory>
    requires { (x : ℕ) → is_in cells.now x ≡ true → has_slot variables.now 0 x ≡ true }
    ensures { IfOk result (λ list.
        list ≡ map (number_of variables.now) (front_at 0 ∷ map (slot_at 0) cells.now)) }
{
    let listed = cells.cells();
    let mut list = NumberList::new(alloc);
    list.push(0)?;
    push_slots(&mut list, variables, 0, listed)?;
    Ok(list)
}

// The numbers of the front at the end of an edge, of whether it is open, and of the slots there of what it touches.
fn row_targets(
    alloc: Global,
    graph: &CellGraph,
    variables: &VariableNumbers,
    edge: usize,
) -> Result<NumberList, NoMemory>
    requires edge { edge < length graph.now.links.items }
    requires edges { variables.now.edges ≡ length graph.now.links.items }
    requires slots { (x : ℕ) → is_in (cells_at graph.now.touched.items edge) x ≡ true
        → has_slot variables.now (to_of graph.now.links.items edge) x ≡ true }
    ensures { IfOk result (λ list. list ≡ map (number_of variables.now)
        (front_at (to_of graph.now.links.items edge) ∷ open_at edge
        ∷ map (slot_at (to_of graph.now.links.items edge)) (cells_at graph.now.touched.items edge))) }
{
    let to = graph.links[edge].to;
    let touched = cells_at(&graph.touched, edge);
    let mut list = NumberList::new(alloc);
    list.push(to)?;
    list.push(variables.number_of_edge(edge))?;
    push_slots(&mut list, variables, to, touched)?;
    Ok(list)
}

// The number of the slot to which a cell passes an edge.
fn flow_targets(
    alloc: Global,
    graph: &CellGraph,
    variables: &VariableNumbers,
    edge: usize,
    cell: usize,
) -> Result<NumberList, NoMemory>
    requires edge { edge < length graph.now.links.items }
    requires slot { has_slot variables.now (to_of graph.now.links.items edge) cell ≡ true }
    ensures { IfOk result (λ list.
        list ≡ map (number_of variables.now) (slot_at (to_of graph.now.links.items edge) cell ∷ [])) }
{
    let to = graph.links[edge].to;
    let mut list = NumberList::new(alloc);
    list.push(variables.number(to, cell))?;
    Ok(list)
}

// Adds the numbers of the slots of a node and these cells.
#[tactic(auto, using(crate::proofs::Lists::numbered_more))]
fn push_slots(
    list: &mut NumberList,
    variables: &VariableNumbers,
    node: usize,
    cells: &[usize],
) -> Result<(), NoMemory>
    requires { (x : ℕ) → is_in cells.now x ≡ true → has_slot variables.now node x ≡ true }
    ensures { IfOk result (λ done. list.new ≡ list.old
        ++ map (number_of variables.now) (map (slot_at node) cells.now)) }
{
    for cell in cells {
        let number = variables.number(node, *cell);
        list.push(number)?;
    }
    Ok(())
}
