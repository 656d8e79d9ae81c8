//! The variables in order.
ghost use Rattle.std.specs.Prelude.{◌≡◌, ◌<◌, ◌+◌, ◌^◌, ◌++◌, ℕ, length, map, true, false, IfOk, MatchOption};
ghost use Rattle.front_constraints.specs.Systems.{slot_at};
ghost use Rattle.cell_placings.specs.CellLists.{is_in, cells_at};
ghost use Rattle.slot_numbers.specs.Numberings.{variable_of, number_of, has_slot, count_of, at_node};
ghost use Rattle.slot_numbers.specs.Numbered.{AreVariables};
ghost use Rattle.slot_numbers.specs.Names.{variable_named};

use crate::names::{OwnedCell, Variable};
use crate::own_cells::own_cells;
use cell_placings::{CellGraph, CellPlacing, CellSet};
use std::alloc::Global;
use std::marker::Model;
use tm_lattice::NoMemory;

/// The fronts of nodes, then whether edges are open, then the slots by node and cell.
#[derive(Drop)]
pub struct VariableNumbers {
    nodes: usize,
    edges: usize,
    // The number of the first slot, and of variables.
    first_slot: usize,
    count: usize,
    // By node the cells of its slots, and how many slots nodes before it have.
    owned: Vec<CellSet>,
    starts: Vec<usize>,
    slots: Vec<OwnedCell>,
}

impl Model for VariableNumbers {
    ghost use Rattle.slot_numbers.specs.Numberings.{VariableLists};
    ghost use Rattle.slot_numbers.specs.reading.Building.{lists_of, AreHeld};

    ghost Value = { VariableLists };

    ghost view = { λ v. lists_of v.nodes v.edges v.owned.items v.starts.items v.slots.items };

    ghost invariant = { λ v. AreHeld v.first_slot v.count (lists_of v.nodes v.edges v.owned.items v.starts.items v.slots.items) };
}

impl VariableNumbers {
    /// How many variables there are.
    pub fn count(&self) -> usize
        ensures { result ≡ count_of self.now }
    {
        self.count
    }

    /// The variable of a number.
    pub fn variable(&self, number: usize) -> Variable
        requires { number < count_of self.now }
        ensures { variable_named result ≡ variable_of self.now number }
    {
        if number < self.nodes {
            return Variable::Front(number);
        }
        if number < self.first_slot {
            return Variable::Open(number - self.nodes);
        }
        let slot = self.slots[number - self.first_slot];
        Variable::Slot {
            node: slot.node,
            cell: slot.cell,
        }
    }

    /// The number of whether an edge is open.
    pub fn number_of_edge(&self, edge: usize) -> usize
        requires { edge < self.now.edges }
        ensures { result ≡ self.now.nodes + edge }
    {
        self.nodes + edge
    }

    /// The number of the slot of a node and a cell, if there is such a slot.
    pub fn number_of_slot(&self, node: usize, cell: usize) -> Option<usize>
        ensures { MatchOption result (has_slot self.now node cell ≡ false)
            (λ number. (has_slot self.now node cell ≡ true) × (number ≡ number_of self.now (slot_at node cell))) }
    {
        if node >= self.owned.len() {
            return None;
        }
        let own = &self.owned[node];
        let cells = own.cells();
        match cells.binary_search(&cell) {
            Ok(place) => Some(self.first_slot + (self.starts[node] + place)),
            Err(_) => None,
        }
    }

    /// The number of the slot of a node and a cell.
    pub fn number(&self, node: usize, cell: usize) -> usize
        requires { has_slot self.now node cell ≡ true }
        ensures { result ≡ number_of self.now (slot_at node cell) }
    {
        match self.number_of_slot(node, cell) {
            Some(number) => number,
            None => 0,
        }
    }

    /// How many edges there are.
    pub fn edges(&self) -> usize
        ensures { result ≡ self.now.edges }
    {
        self.edges
    }

    /// The cells of the slots of a node.
    pub fn owned(&self, node: usize) -> &[usize]
        requires { node < self.now.nodes }
        ensures { result.now ≡ cells_at self.now.owned node }
    {
        self.owned[node].cells()
    }
}

/// Numbers the variables of a graph: what is placed of the cells that count.
pub fn number_variables(
    alloc: Global,
    graph: &CellGraph,
    placing: &CellPlacing,
    cells: &CellSet,
) -> Result<VariableNumbers, NoMemory>
    requires nodes { length placing.now.above ≡ graph.now.nodes }
    requires counted { (x : ℕ) → is_in cells.now x ≡ true → x < placing.now.cells }
    ensures { IfOk result (λ variables. AreVariables graph.now placing.now cells.now variables) }
{
    let edges = graph.links.len();
    let first_slot = total(graph.nodes, edges)?;
    let mut owned = Vec::new(alloc);
    let mut starts = Vec::new(alloc);
    let mut slots = Vec::new(alloc);
    for node in 0..graph.nodes {
        let own = own_cells(alloc, placing, cells, node)?;
        let listed = own.cells();
        starts.push(slots.len())?;
        push_slots(&mut slots, node, listed)?;
        owned.push(own)?;
    }
    let count = total(first_slot, slots.len())?;
    Ok(VariableNumbers {
        nodes: graph.nodes,
        edges,
        first_slot,
        count,
        owned,
        starts,
        slots,
    })
}

// Adds the slots of a node.
#[tactic(auto, using(crate::proofs::Lists::pushed_more))]
fn push_slots(slots: &mut Vec<OwnedCell>, node: usize, cells: &[usize]) -> Result<(), NoMemory>
    ensures { IfOk result (λ done. slots.new.items ≡ slots.old.items ++ map (at_node node) cells.now) }
{
    for cell in cells {
        slots.push(OwnedCell { node, cell: *cell })?;
    }
    Ok(())
}

/// The sum of two numbers. There is no memory for so many things where it is too great.
pub fn total(one: usize, other: usize) -> Result<usize, NoMemory>
    ensures sum { IfOk result (λ sum. sum ≡ one + other) }
    ensures fits { IfOk result (λ sum. sum < 2 ^ 64) }
{
    match one.checked_add(other) {
        None => Err(NoMemory),
        Some(sum) => Ok(sum),
    }
}
