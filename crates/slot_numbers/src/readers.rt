//! Which constraints read variables.
ghost use Rattle.std.specs.Prelude.{◌≡◌, ◌<◌, ◌+◌, ◌++◌, ◌∷◌, [], ℕ, length, map, true, IfOk};
ghost use Rattle.table_covers.specs.Systems.{from_of};
ghost use Rattle.front_constraints.specs.Systems.{front_at, open_at, slot_at};
ghost use Rattle.cell_placings.specs.CellLists.{is_in, cells_at};
ghost use Rattle.cell_placings.specs.OwnerTrees.{kept_in, placing_of};
ghost use Rattle.cell_placings.specs.Placed.{IsCellPlaced};
ghost use Rattle.slot_numbers.specs.Names.{rule_named};
ghost use Rattle.slot_numbers.specs.Numberings.{number_of, has_slot};
ghost use Rattle.slot_numbers.specs.Numbered.{IsNumberable, AreVariables, AreFlows, IsRuleOf, sources_on};
ghost use Rattle.slot_numbers.specs.reading.Building.{AreReaders, AreNoted};

use crate::flat_lists::{FlatLists, flattened};
use crate::flows::rule_at;
use crate::names::{FlowingCell, Rule};
use crate::number_lists::{NumberList, no_lists};
use crate::variable_numbers::VariableNumbers;
use cell_placings::{CellGraph, CellPlacing, CellSet, cells_at};
use std::alloc::Global;
use tm_lattice::NoMemory;

/// For each variable the constraints that read it.
pub fn list_readers(
    alloc: Global,
    graph: &CellGraph,
    placing: &CellPlacing,
    cells: &CellSet,
    variables: &VariableNumbers,
    flows: &[FlowingCell],
    count: usize,
) -> Result<FlatLists, NoMemory>
    requires nodes { length placing.now.above ≡ graph.now.nodes }
    requires placed { IsCellPlaced graph.now (placing_of graph.now placing.now) }
    requires numberable { IsNumberable graph.now placing.now cells.now }
    requires variables { AreVariables graph.now placing.now cells.now variables.now }
    requires flows { AreFlows graph.now placing.now cells.now flows.now }
    requires count { count ≡ length graph.now.links.items + 1 + length flows.now }
    ensures { IfOk result (λ lists. AreReaders graph.now placing.now variables.now flows.now count count lists) }
{
    let mut lists = no_lists(alloc, variables.count())?;
    for number in 0..count {
        let rule = rule_at(graph.links.len(), flows, number);
        let sources = sources(alloc, graph, placing, cells, variables, rule)?;
        let listed = sources.numbers();
        note_all(&mut lists, listed, number)?;
    }
    flattened(alloc, &lists)
}

// The numbers of the variables that a constraint reads.
fn sources(
    alloc: Global,
    graph: &CellGraph,
    placing: &CellPlacing,
    cells: &CellSet,
    variables: &VariableNumbers,
    rule: Rule,
) -> Result<NumberList, NoMemory>
    requires nodes { length placing.now.above ≡ graph.now.nodes }
    requires placed { IsCellPlaced graph.now (placing_of graph.now placing.now) }
    requires numberable { IsNumberable graph.now placing.now cells.now }
    requires variables { AreVariables graph.now placing.now cells.now variables.now }
    requires rule { IsRuleOf graph.now placing.now cells.now (rule_named rule) }
    ensures { IfOk result (λ list.
        list ≡ map (number_of variables.now) (sources_on graph.now placing.now (rule_named rule))) }
{
    match rule {
        Rule::Entered => Ok(NumberList::new(alloc)),
        Rule::Row(edge) => row_sources(alloc, graph, placing, variables, edge),
        Rule::Flow { edge, cell } => flow_sources(alloc, graph, placing, variables, edge, cell),
    }
}

// The numbers of the front that an edge leaves and of the slots where cells at which it looks are kept there.
fn row_sources(
    alloc: Global,
    graph: &CellGraph,
    placing: &CellPlacing,
    variables: &VariableNumbers,
    edge: usize,
) -> Result<NumberList, NoMemory>
    requires edge { edge < length graph.now.links.items }
    requires node { from_of graph.now.links.items edge < length placing.now.above }
    requires slots { (x : ℕ) → is_in (cells_at graph.now.looked.items edge) x ≡ true
        → has_slot variables.now (kept_in placing.now (from_of graph.now.links.items edge) x) x ≡ true }
    ensures { IfOk result (λ list. list ≡ map (number_of variables.now)
        (front_at (from_of graph.now.links.items edge)
        ∷ map (λ x. slot_at (kept_in placing.now (from_of graph.now.links.items edge) x) x)
        (cells_at graph.now.looked.items edge))) }
{
    let from = graph.links[edge].from;
    let looked = cells_at(&graph.looked, edge);
    let mut list = NumberList::new(alloc);
    list.push(from)?;
    push_kept(&mut list, placing, variables, from, looked)?;
    Ok(list)
}

// The numbers of whether an edge is open and of the slot where a cell is kept at the node that it leaves.
fn flow_sources(
    alloc: Global,
    graph: &CellGraph,
    placing: &CellPlacing,
    variables: &VariableNumbers,
    edge: usize,
    cell: usize,
) -> Result<NumberList, NoMemory>
    requires edge { edge < length graph.now.links.items }
    requires edges { variables.now.edges ≡ length graph.now.links.items }
    requires node { from_of graph.now.links.items edge < length placing.now.above }
    requires slot { has_slot variables.now (kept_in placing.now (from_of graph.now.links.items edge) cell) cell
        ≡ true }
    ensures { IfOk result (λ list. list ≡ map (number_of variables.now)
        (open_at edge ∷ slot_at (kept_in placing.now (from_of graph.now.links.items edge) cell) cell ∷ [])) }
{
    let from = graph.links[edge].from;
    let kept = placing.kept_at(from, cell);
    let mut list = NumberList::new(alloc);
    list.push(variables.number_of_edge(edge))?;
    list.push(variables.number(kept, cell))?;
    Ok(list)
}

// Adds the numbers of the slots where these cells are kept at a node.
#[tactic(auto, using(crate::proofs::Lists::numbered_more))]
fn push_kept(
    list: &mut NumberList,
    placing: &CellPlacing,
    variables: &VariableNumbers,
    node: usize,
    cells: &[usize],
) -> Result<(), NoMemory>
    requires node { node < length placing.now.above }
    requires slots { (x : ℕ) → is_in cells.now x ≡ true
        → has_slot variables.now (kept_in placing.now node x) x ≡ true }
    ensures { IfOk result (λ done. list.new ≡ list.old
        ++ map (number_of variables.now) (map (λ x. slot_at (kept_in placing.now node x) x) cells.now)) }
{
    for cell in cells {
        let kept = placing.kept_at(node, *cell);
        let number = variables.number(kept, *cell);
        list.push(number)?;
    }
    Ok(())
}

// Adds a number to each of these lists.
fn note_all(lists: &mut [NumberList], sources: &[usize], number: usize) -> Result<(), NoMemory>
    requires { (i : ℕ) → is_in sources.now i ≡ true → i < length lists.old }
    ensures { IfOk result (λ done. AreNoted number sources.now lists.old lists.new) }
{
    for source in sources {
        note(lists, *source, number)?;
    }
    Ok(())
}

// Adds a number to one list.
fn note(lists: &mut [NumberList], source: usize, number: usize) -> Result<(), NoMemory>
    requires { source < length lists.old }
    ensures { IfOk result (λ done. AreNoted number (source ∷ []) lists.old lists.new) }
{
    let list = &mut lists[source];
    list.push(number)?;
    Ok(())
}
