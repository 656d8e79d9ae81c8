//! The numbers of variables and constraints.
ghost use Rattle.std.specs.Prelude.{◌≡◌, ◌<◌, ◌+◌, length, true, false, IfOk, MatchOption};
ghost use Rattle.front_constraints.specs.Systems.{open_at, slot_at};
ghost use Rattle.cell_placings.specs.CellLists.{cells_at};
ghost use Rattle.cell_placings.specs.OwnerTrees.{placing_of};
ghost use Rattle.cell_placings.specs.Placed.{IsCellPlaced};
ghost use Rattle.slot_numbers.specs.Names.{variable_named, rule_named};
ghost use Rattle.slot_numbers.specs.Numberings.{numbers_of, has_slot};
ghost use Rattle.slot_numbers.specs.Numbered.{IsNumberable, IsNumbering};

use crate::checks::is_numberable;
use crate::flat_lists::FlatLists;
use crate::flows::{list_flows, rule_at};
use crate::names::{FlowingCell, Rule, Variable};
use crate::readers::list_readers;
use crate::targets::list_targets;
use crate::variable_numbers::{VariableNumbers, number_variables};
use cell_placings::{CellGraph, CellPlacing, CellSet};
use std::alloc::Global;
use std::marker::Model;
use tm_lattice::NoMemory;

/// The numbers of the variables and constraints of a system whose states have fronts and cells, with what constraints
/// bring values to and what reads variables.
#[derive(Drop)]
pub struct SlotNumbers {
    variables: VariableNumbers,
    flows: Vec<FlowingCell>,
    targets: FlatLists,
    readers: FlatLists,
}

impl Model for SlotNumbers {
    ghost use Rattle.slot_numbers.specs.Numberings.{Numbering};
    ghost use Rattle.slot_numbers.specs.reading.Building.{numbering_of, AreWhole};

    ghost Value = { Numbering };

    ghost view = { λ s. numbering_of s.variables s.flows.items s.targets s.readers };

    ghost invariant = { λ s. AreWhole (numbering_of s.variables s.flows.items s.targets s.readers) };
}

impl SlotNumbers {
    /// Numbers the variables and constraints of a graph whose cells are placed. None where a cell that counts is none of
    /// those that are placed, or an edge touches or looks at one that does not count.
    pub fn new(
        alloc: Global,
        graph: &CellGraph,
        placing: &CellPlacing,
        cells: &CellSet,
    ) -> Result<Option<SlotNumbers>, NoMemory>
        requires nodes { length placing.now.above ≡ graph.now.nodes }
        requires placed { IsCellPlaced graph.now (placing_of graph.now placing.now) }
        ensures { IfOk result (λ found. MatchOption found (IsNumberable graph.now placing.now cells.now → ⊥)
            (λ numbering. IsNumbering graph.now placing.now cells.now numbering)) }
    {
        if !is_numberable(graph, placing, cells) {
            return Ok(None);
        }
        let variables = number_variables(alloc, graph, placing, cells)?;
        let flows = list_flows(alloc, graph, placing, cells, &variables)?;
        let listed = flows.as_slice();
        let targets = list_targets(alloc, graph, placing, cells, &variables, listed)?;
        let count = targets.len();
        let readers = list_readers(alloc, graph, placing, cells, &variables, listed, count)?;
        Ok(Some(SlotNumbers {
            variables,
            flows,
            targets,
            readers,
        }))
    }

    /// How many variables there are.
    pub fn variable_count(&self) -> usize
        ensures { result ≡ (numbers_of self.now).variable_count }
    {
        self.readers.len()
    }

    /// How many constraints there are.
    pub fn constraint_count(&self) -> usize
        ensures { result ≡ (numbers_of self.now).constraint_count }
    {
        self.targets.len()
    }

    /// From which number on constraints are flows.
    pub fn first_flow(&self) -> usize
        ensures { result ≡ self.now.variables.edges + 1 }
    {
        self.targets.len() - self.flows.len()
    }

    /// The variable of a number.
    pub fn variable(&self, number: usize) -> Variable
        requires { number < (numbers_of self.now).variable_count }
        ensures { variable_named result ≡ (numbers_of self.now).variable number }
    {
        self.variables.variable(number)
    }

    /// The constraint of a number.
    pub fn rule(&self, number: usize) -> Rule
        requires { number < (numbers_of self.now).constraint_count }
        ensures { rule_named result ≡ (numbers_of self.now).rule number }
    {
        rule_at(self.variables.edges(), &self.flows, number)
    }

    /// The number of whether an edge is open.
    pub fn number_of_open(&self, edge: usize) -> usize
        requires { edge < self.now.variables.edges }
        ensures { result ≡ (numbers_of self.now).number (open_at edge) }
    {
        self.variables.number_of_edge(edge)
    }

    /// The number of the slot of a node and a cell. None where the node has no such slot. It takes time logarithmic in
    /// the number of the node's slots.
    pub fn number_of_slot(&self, node: usize, cell: usize) -> Option<usize>
        ensures { MatchOption result (has_slot self.now.variables node cell ≡ false)
            (λ number. (has_slot self.now.variables node cell ≡ true)
            × (number ≡ (numbers_of self.now).number (slot_at node cell))) }
    {
        self.variables.number_of_slot(node, cell)
    }

    /// The variables to which a constraint brings values.
    pub fn targets(&self, constraint: usize) -> &[usize]
        requires { constraint < (numbers_of self.now).constraint_count }
        ensures { result.now ≡ cells_at self.now.targets constraint }
    {
        self.targets.list(constraint)
    }

    /// The constraints that read a variable.
    pub fn readers(&self, variable: usize) -> &[usize]
        requires { variable < (numbers_of self.now).variable_count }
        ensures { result.now ≡ cells_at self.now.readers variable }
    {
        self.readers.list(variable)
    }
}
