//! A body over a store as constraints of fronts and slots.
ghost use Rattle.std.specs.Prelude.{◌≡◌, ◌<◌, IfOk};
ghost use Rattle.task_equations.specs.Equations.{cells_at as rounded_cells};
ghost use Rattle.front_constraints.specs.Standings.{changed_standing};
ghost use Rattle.body_systems.specs.Systems.{body_of};
ghost use Rattle.body_fronts.specs.BodySystems.{rounded_where};
ghost use Rattle.body_slots.specs.Slots.{IsSlotSystem};

use crate::slots::BodySlots;
use body_systems::BodyOverStore;
use cell_env::{CellState, State, TempState};
use cell_placings::has_cell;
use front_constraints::Standing;
use least_assignments::ConstraintSystem;
use pointer_dom::AbsValue;
use slot_numbers::{Rule, Variable};
use std::alloc::Global;
use std::marker::Model;
use tm_lattice::{Keyed, Lattice, NoMemory};

/// What stands at a variable: the temporaries of a node, or what is said of a cell.
pub type SlotValue = Standing<Keyed<TempState<AbsValue>>, CellState<AbsValue>>;

/// A body over a store with its slots, and the state in which it begins. The three belong together.
#[derive(Drop)]
pub struct SlotSystem<'a> {
    pub(crate) body: &'a BodyOverStore<'a>,
    pub(crate) slots: &'a BodySlots,
    pub(crate) entry: &'a State<AbsValue>,
}

impl<'a> Model for SlotSystem<'a> {
    ghost use Rattle.tm_laid.specs.contracts.layouts.Laid as of_laid;
    ghost use Rattle.flow_graph.specs.contracts.graphs.Graph as of_graph;
    ghost use Rattle.mutex_configs.specs.contracts.nodes.ConfiguredGraph as of_configured;
    ghost use Rattle.body_systems.specs.contracts.facts.BodyFacts as of_facts;
    ghost use Rattle.body_systems.specs.laws.Codes.{system_code};
    ghost use Rattle.body_slots.specs.contracts.slots.BodySlots as of_slots;
    ghost use Rattle.body_slots.specs.Slots.{SlotSystemOf, IsSlotSystem};
    ghost use Rattle.body_slots.specs.laws.Codes.{slot_system_code};

    ghost Value = { SlotSystemOf };

    ghost coded = { slot_system_code (system_code of_laid.the_row.coded of_graph.the_row.coded
        of_configured.the_row.coded of_facts.the_row.coded) of_slots.the_row.coded };

    ghost view = { λ a. record { system = a.body.now; entry = a.entry.now; slots = a.slots.now } };

    ghost invariant = { λ a. IsSlotSystem (record { system = a.body.now; entry = a.entry.now; slots = a.slots.now }) };
}

impl<'a> SlotSystem<'a> {
    /// The constraints of a body that begins in the state, with its slots.
    pub fn new(
        body: &'a BodyOverStore<'a>,
        slots: &'a BodySlots,
        entry: &'a State<AbsValue>,
    ) -> SlotSystem<'a>
        requires { IsSlotSystem (record { system = body.now; entry = entry.now; slots = slots.now }) }
        ensures { result ≡ record { system = body.now; entry = entry.now; slots = slots.now } }
    {
        SlotSystem { body, slots, entry }
    }

    // What stands in a slot, rounded where the cell is among those that are rounded at the node.
    fn rounded_in(
        &self,
        alloc: Global,
        node: usize,
        cell: usize,
        value: SlotValue,
    ) -> Result<SlotValue, NoMemory>
        requires { (let s = self.now.slots in node < s.graph.nodes) }
        ensures { (let b = body_of self.now.system in IfOk result (λ outer.
            outer ≡ changed_standing (λ f. f) (rounded_where b.marks (rounded_cells b node) cell) value)) }
    {
        let slots = self.slots;
        let body = self.body;
        if !has_cell(&slots.graph.rounded, node, cell) {
            return Ok(value);
        }
        let Standing { front, cell: held } = value;
        match held {
            None => Ok(Standing { front, cell: None }),
            Some(held) => Ok(Standing {
                front,
                cell: Some(held.round(alloc, body.marks())?),
            }),
        }
    }
}

impl<'a> ConstraintSystem for SlotSystem<'a> {
    ghost use Rattle.front_constraints.specs.Rules.{front_constraints, FitsVariable};
    ghost use Rattle.body_fronts.specs.FrontForms.{FitsFront, FitsCellAt};
    ghost use Rattle.body_systems.specs.Systems.{body_of};
    ghost use Rattle.body_slots.specs.Slots.{IsSlotSystem, sparse_of, AllowsSlots};
    ghost use Rattle.body_slots.specs.laws.Chosen.{slots_lawful};

    type Value = SlotValue;

    ghost is_system = { IsSlotSystem };

    ghost system_of = { λ s. front_constraints (sparse_of s) };

    ghost fits = { λ s. FitsVariable (sparse_of s) (FitsFront (body_of s.system)) (FitsCellAt (body_of s.system)) };

    ghost allows = { AllowsSlots };

    fn variables(&self) -> usize {
        let slots = self.slots;
        slots.numbers.variable_count()
    }

    fn constraints(&self) -> usize {
        let slots = self.slots;
        slots.numbers.constraint_count()
    }

    fn first_urgent(&self) -> usize {
        let slots = self.slots;
        slots.numbers.first_flow()
    }

    fn targets(&self, constraint: usize) -> &[usize] {
        let slots = self.slots;
        slots.numbers.targets(constraint)
    }

    fn readers(&self, variable: usize) -> &[usize] {
        let slots = self.slots;
        slots.numbers.readers(variable)
    }

    fn apply(
        &self,
        alloc: Global,
        constraint: usize,
        values: &[Option<SlotValue>],
    ) -> Result<Option<Vec<Option<SlotValue>>>, NoMemory> {
        let slots = self.slots;
        match slots.numbers.rule(constraint) {
            Rule::Entered => Ok(Some(self.entered(alloc)?)),
            Rule::Row(edge) => self.row(alloc, edge, values),
            Rule::Flow { edge, cell } => Ok(Some(self.flow(alloc, edge, cell, values)?)),
        }
    }

    fn rounded(
        &self,
        alloc: Global,
        variable: usize,
        value: SlotValue,
    ) -> Result<SlotValue, NoMemory> {
        let slots = self.slots;
        match slots.numbers.variable(variable) {
            Variable::Slot { node, cell } => self.rounded_in(alloc, node, cell, value),
            _ => Ok(value),
        }
    }

    ghost lawful = { slots_lawful };
}
