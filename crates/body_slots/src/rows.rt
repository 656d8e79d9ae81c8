//! What the constraints of a body read, and what they bring.
ghost use Rattle.std.specs.Prelude.{◌≡◌, ◌<◌, ◌++◌, ◌∷◌, ◌⊎◌, [], ℕ, true, false, length, option_map, replicate};
ghost use Rattle.std.specs.Prelude.{IfOk, MatchOption, Some, None, slice_index_or, is_some};
ghost use Rattle.std.specs.Option.{option_copied};
ghost use Rattle.std.specs.FinMap.{get, empty};
ghost use Rattle.cell_placings.specs.CellLists.{is_in};
ghost use Rattle.cell_placings.specs.OwnerTrees.{kept_in};
ghost use Rattle.least_assignments.specs.Constraints.{at, AreFitting};
ghost use Rattle.front_constraints.specs.Standings.{fronted, holding, cell_in, front_in, changed_standing};
ghost use Rattle.front_constraints.specs.Systems.{entered, row, flow, slot_at, edges, from};
ghost use Rattle.front_constraints.specs.Rules.{front_constraints, FitsVariable, AllowsRule, seen, is_ready, small_at};
ghost use Rattle.front_constraints.specs.Rules.{carried_along};
ghost use Rattle.slot_numbers.specs.Numberings.{numbers_of};
ghost use Rattle.body_fronts.specs.FrontForms.{FitsFront, FitsCellAt};
ghost use Rattle.body_systems.specs.Systems.{body_of, FitsTemps};
ghost use Rattle.body_slots.specs.Slots.{sparse_of, PassesRow};
ghost use Rattle.body_slots.specs.Rows.{Values, brought_by, held_among, state_parts_at, row_parts};
ghost use Rattle.body_slots.specs.reading.Small.{HasTraced, IsSeenOver, IsPart};

use crate::systems::{SlotSystem, SlotValue};
use cell_env::{CellState, State, TempState};
use cell_placings::has_cell;
use edge_effects::After;
use front_constraints::Standing;
use pointer_dom::AbsValue;
use row_checks::{carried_cell, is_checked, is_traced};
use state_tree::Tree;
use std::alloc::Global;
use tm_lattice::{Keyed, Lattice, NoMemory};

// ## Parts of states

// What a table of cells has at one.
fn held_at(
    alloc: Global,
    table: &Tree<CellState<AbsValue>>,
    cell: usize,
) -> Result<Option<SlotValue>, NoMemory>
    requires { cell < 4294967296 }
    ensures { IfOk result (λ held. held ≡ option_map holding (get table.now cell)) }
{
    match table.get(cell as u32) {
        None => Ok(None),
        Some(held) => Ok(Some(Standing {
            front: None,
            cell: Some(held.copied(alloc)?),
        })),
    }
}

// With what a table of cells has at some of them, behind what stands before.
fn with_held(
    alloc: Global,
    table: &Tree<CellState<AbsValue>>,
    cells: &[usize],
    before: Vec<Option<SlotValue>>,
) -> Result<Vec<Option<SlotValue>>, NoMemory>
    requires { (j : ℕ) → j < length cells.now → slice_index_or cells.now j 0 < 4294967296 }
    ensures { IfOk result (λ all. all.items ≡ before.items ++ held_among table.now cells.now) }
{
    let mut all = before;
    for cell in cells {
        all.push(held_at(alloc, table, *cell)?)?;
    }
    Ok(all)
}

// The front of a state.
fn front_of(alloc: Global, state: &State<AbsValue>) -> Result<Option<SlotValue>, NoMemory>
    ensures { IfOk result (λ front. front ≡ Some (fronted state.now.temps)) }
{
    Ok(Some(Standing {
        front: Some(state.temps().copied(alloc)?),
        cell: None,
    }))
}

// As often nothing.
fn nothing(alloc: Global, count: usize) -> Result<Vec<Option<SlotValue>>, NoMemory>
    ensures { IfOk result (λ all. all.items ≡ replicate count None) }
{
    let mut all = Vec::with_capacity(alloc, count)?;
    for _ in 0..count {
        all.push(None)?;
    }
    Ok(all)
}

// What an edge brings that leads to the state, to its end, to itself, and to the cells that it touches.
fn led_to(
    alloc: Global,
    state: State<AbsValue>,
    touched: &[usize],
) -> Result<Vec<Option<SlotValue>>, NoMemory>
    requires { (j : ℕ) → j < length touched.now → slice_index_or touched.now j 0 < 4294967296 }
    ensures { IfOk result (λ all. all.items ≡ state_parts_at state touched.now) }
{
    let (temps, cells) = state.into_parts();
    let mut first = Vec::with_capacity(alloc, touched.len().saturating_add(2))?;
    first.push(Some(Standing {
        front: Some(temps),
        cell: None,
    }))?;
    first.push(Some(Standing {
        front: None,
        cell: None,
    }))?;
    with_held(alloc, &cells, touched, first)
}

// ## Values of variables

// A copy of what stands at a variable.
fn copied_at(
    alloc: Global,
    values: &[Option<SlotValue>],
    variable: usize,
) -> Result<Option<SlotValue>, NoMemory>
    ensures { IfOk result (λ copied. copied ≡ at values.now variable) }
{
    match values.get(variable) {
        Some(Some(value)) => Ok(Some(value.copied(alloc)?)),
        _ => Ok(None),
    }
}

// What stands at a variable.
fn value_at(values: &[Option<SlotValue>], variable: usize) -> Option<&SlotValue>
    ensures { option_copied result ≡ at values.now variable }
{
    match values.get(variable) {
        Some(Some(value)) => Some(value),
        _ => None,
    }
}

// A copy of the front of what stands at a variable, if it has one.
fn copied_front(
    alloc: Global,
    value: &SlotValue,
) -> Result<Option<Keyed<TempState<AbsValue>>>, NoMemory>
    ensures { (let w = value.now in IfOk result (λ front. front ≡ option_map (λ f. f) w.front)) }
{
    match &value.front {
        None => Ok(None),
        Some(front) => Ok(Some(front.copied(alloc)?)),
    }
}

// Whether anything stands at a variable.
fn is_there(values: &[Option<SlotValue>], variable: usize) -> bool
    ensures { result ≡ is_some (at values.now variable) }
{
    match values.get(variable) {
        Some(Some(_)) => true,
        _ => false,
    }
}

/// The front that stands at a variable.
pub(crate) fn front_at(
    values: &[Option<SlotValue>],
    variable: usize,
) -> Option<&Keyed<TempState<AbsValue>>>
    ensures { option_copied result ≡ front_in (at values.now variable) }
{
    match values.get(variable) {
        Some(Some(value)) => value.front.as_ref(),
        _ => None,
    }
}

/// What stands at the cell of a variable.
pub(crate) fn cell_at(values: &[Option<SlotValue>], variable: usize) -> Option<&CellState<AbsValue>>
    ensures { option_copied result ≡ cell_in (at values.now variable) }
{
    match values.get(variable) {
        Some(Some(value)) => value.cell.as_ref(),
        _ => None,
    }
}

impl<'a> SlotSystem<'a> {
    /// What the entry brings: its front to node 0, and what it has at each cell.
    pub(crate) fn entered(&self, alloc: Global) -> Result<Vec<Option<SlotValue>>, NoMemory>
        ensures { (a : Values) → IfOk result (λ all. all.items ≡ brought_by self.now entered a) }
    {
        let slots = self.slots;
        let listed = slots.cells.cells();
        let mut first = Vec::with_capacity(alloc, listed.len().saturating_add(1))?;
        first.push(front_of(alloc, self.entry)?)?;
        with_held(alloc, self.entry.cells(), listed, first)
    }

    // The number of the slot of a cell where it is kept at a node.
    fn kept_number(&self, node: usize, cell: usize) -> usize
        requires node { (let s = self.now.slots in node < s.graph.nodes) }
        requires cell { (let s = self.now.slots in is_in s.cells cell ≡ true) }
        ensures { (let s = self.now.slots in
            let numbers = numbers_of s.numbering in result ≡ numbers.number (slot_at (kept_in s.tree node cell) cell)) }
    {
        let slots = self.slots;
        let keeper = slots.placing.kept_at(node, cell);
        match slots.numbers.number_of_slot(keeper, cell) {
            None => 0,
            Some(number) => number,
        }
    }

    // The cells, with what stands at those at which an edge looks, where they are kept, put over them. None where one
    // of these does not stand there.
    fn with_seen(
        &self,
        alloc: Global,
        edge: usize,
        values: &[Option<SlotValue>],
        before: Tree<CellState<AbsValue>>,
    ) -> Result<Option<Tree<CellState<AbsValue>>>, NoMemory>
        requires { edge < edges (sparse_of self.now) }
        ensures { (let sys = sparse_of self.now in IfOk result (λ over. MatchOption over
            (is_ready sys edge (seen sys edge (at values.now)) ≡ false)
            (IsSeenOver self.now edge (at values.now) before))) }
    {
        let slots = self.slots;
        let from = slots.graph.links[edge].from;
        let looked = slots.graph.looked[edge].cells();
        let mut cells = before;
        for cell in looked {
            let number = self.kept_number(from, *cell);
            match cell_at(values, number) {
                None => return Ok(None),
                Some(held) => cells = cells.with(*cell as u32, held.copied(alloc)?)?,
            }
        }
        Ok(Some(cells))
    }

    // The cells over which those at which an edge looks are put: none where the temporaries are copies of no cells but
    // those of which they may be, and else those of the entry.
    fn other_cells(
        &self,
        alloc: Global,
        front: &Keyed<TempState<AbsValue>>,
    ) -> Result<Tree<CellState<AbsValue>>, NoMemory>
        ensures { IfOk result (λ cells.
            ((cells ≡ empty) × HasTraced self.now front.now) ⊎ (cells ≡ self.now.entry.cells)) }
    {
        let slots = self.slots;
        let entry = self.entry;
        if is_traced(&slots.traces, front) {
            Ok(Tree::new(alloc))
        } else {
            entry.cells().shared()
        }
    }

    // Of the state to which the row of an edge is applied a part that is enough for it: the front, and the cells at
    // which the edge looks. None where the node that the edge leaves is not reached, or a cell at which it looks does
    // not stand where it is kept.
    fn small_part(
        &self,
        alloc: Global,
        edge: usize,
        values: &[Option<SlotValue>],
    ) -> Result<Option<State<AbsValue>>, NoMemory>
        requires { edge < edges (sparse_of self.now) }
        ensures { IfOk result (λ part. MatchOption part (small_at (sparse_of self.now) edge (at values.now) ≡ None)
            (IsPart self.now edge (at values.now))) }
    {
        let slots = self.slots;
        match front_at(values, slots.graph.links[edge].from) {
            None => Ok(None),
            Some(front) => {
                let before = self.other_cells(alloc, front)?;
                match self.with_seen(alloc, edge, values, before)? {
                    None => Ok(None),
                    Some(cells) => Ok(Some(State::new(front.copied(alloc)?, cells))),
                }
            }
        }
    }

    /// What the row of an edge brings. None where the edge reaches what it may not.
    pub(crate) fn row(
        &self,
        alloc: Global,
        edge: usize,
        values: &[Option<SlotValue>],
    ) -> Result<Option<Vec<Option<SlotValue>>>, NoMemory>
        requires edge { edge < edges (sparse_of self.now) }
        requires fits { AreFitting (front_constraints (sparse_of self.now)) (FitsVariable (sparse_of self.now)
            (FitsFront (body_of self.now.system)) (FitsCellAt (body_of self.now.system))) (at values.now) }
        ensures { IfOk result (λ brought. MatchOption brought
            (AllowsRule (sparse_of self.now) (PassesRow self.now) (row edge) (at values.now) → ⊥)
            (λ all. AllowsRule (sparse_of self.now) (PassesRow self.now) (row edge) (at values.now)
            × (all.items ≡ brought_by self.now (row edge) (at values.now)))) }
    {
        let slots = self.slots;
        let touched = &slots.graph.touched[edge];
        match self.small_part(alloc, edge, values)? {
            None => Ok(Some(nothing(alloc, touched.cells().len() + 2)?)),
            Some(part) => self.row_from(alloc, edge, &part),
        }
    }

    // What the row of an edge brings that is applied to this state. None where the edge reaches what it may not.
    fn row_from(
        &self,
        alloc: Global,
        edge: usize,
        small: &State<AbsValue>,
    ) -> Result<Option<Vec<Option<SlotValue>>>, NoMemory>
        requires edge { edge < edges (sparse_of self.now) }
        requires fits { FitsTemps (body_of self.now.system) (from (sparse_of self.now) edge) small.now }
        ensures { IfOk result (λ brought. MatchOption brought (PassesRow self.now edge small.now → ⊥)
            (λ all. PassesRow self.now edge small.now × (all.items ≡ row_parts self.now edge small.now))) }
    {
        let slots = self.slots;
        let body = self.body;
        let touched = &slots.graph.touched[edge];
        let after = body.applied_to_part(alloc, edge, small)?;
        let view = body.view_of(edge);
        if !is_checked(
            &view,
            touched,
            &slots.graph.carried[edge],
            &slots.graph.looked[edge],
            &slots.traces,
            &after,
            body.store(),
        ) {
            return Ok(None);
        }
        let leads = body.configured().copies[edge].to.is_some();
        let After {
            state,
            added: _added,
            classes: _classes,
            targets: _targets,
        } = after;
        match state {
            Some(reached) if leads => Ok(Some(led_to(alloc, reached, touched.cells())?)),
            _ => Ok(Some(nothing(alloc, touched.cells().len() + 2)?)),
        }
    }

    /// What a cell brings along an edge that does not touch it: what the edge makes of it, if it carries the cell.
    pub(crate) fn flow(
        &self,
        alloc: Global,
        edge: usize,
        cell: usize,
        values: &[Option<SlotValue>],
    ) -> Result<Vec<Option<SlotValue>>, NoMemory>
        requires edge { edge < edges (sparse_of self.now) }
        requires cell { (let s = self.now.slots in is_in s.cells cell ≡ true) }
        ensures { IfOk result (λ all. all.items ≡ brought_by self.now (flow edge cell) (at values.now)) }
    {
        let mut all = Vec::with_capacity(alloc, 1)?;
        all.push(self.passed(alloc, edge, cell, values)?)?;
        Ok(all)
    }

    // What an edge makes of what stands at a variable of a cell, if it carries the cell.
    fn carried(
        &self,
        alloc: Global,
        edge: usize,
        cell: usize,
        values: &[Option<SlotValue>],
        variable: usize,
    ) -> Result<Option<SlotValue>, NoMemory>
        requires edge { edge < edges (sparse_of self.now) }
        requires cell { cell < 4294967296 }
        ensures { IfOk result (λ brought. brought ≡ carried_along (sparse_of self.now) edge cell (at values.now variable)) }
    {
        let slots = self.slots;
        if !has_cell(&slots.graph.carried, edge, cell) {
            return copied_at(alloc, values, variable);
        }
        match value_at(values, variable) {
            None => Ok(None),
            Some(value) => Ok(Some(self.carried_value(alloc, edge, cell, value)?)),
        }
    }

    // What an edge that carries a cell makes of what stands there.
    fn carried_value(
        &self,
        alloc: Global,
        edge: usize,
        cell: usize,
        value: &SlotValue,
    ) -> Result<SlotValue, NoMemory>
        requires edge { edge < edges (sparse_of self.now) }
        requires cell { cell < 4294967296 }
        ensures { (let sys = sparse_of self.now in IfOk result (λ made.
            made ≡ changed_standing (λ f. f) (sys.carry edge cell) value.now)) }
    {
        let front = copied_front(alloc, value)?;
        let held = self.carried_held(alloc, edge, cell, value)?;
        Ok(Standing { front, cell: held })
    }

    // What it makes of the cell, if there is one.
    fn carried_held(
        &self,
        alloc: Global,
        edge: usize,
        cell: usize,
        value: &SlotValue,
    ) -> Result<Option<CellState<AbsValue>>, NoMemory>
        requires edge { edge < edges (sparse_of self.now) }
        requires cell { cell < 4294967296 }
        ensures { (let sys = sparse_of self.now in let w = value.now in
            IfOk result (λ held. held ≡ option_map (sys.carry edge cell) w.cell)) }
    {
        match &value.cell {
            None => Ok(None),
            Some(held) => Ok(Some(self.carried_state(alloc, edge, cell, held)?)),
        }
    }

    // What an edge that carries a cell makes of what is said of it.
    fn carried_state(
        &self,
        alloc: Global,
        edge: usize,
        cell: usize,
        held: &CellState<AbsValue>,
    ) -> Result<CellState<AbsValue>, NoMemory>
        requires edge { edge < edges (sparse_of self.now) }
        requires cell { cell < 4294967296 }
        ensures { (let sys = sparse_of self.now in IfOk result (λ made. made ≡ sys.carry edge cell held.now)) }
    {
        let body = self.body;
        let view = body.view_of(edge);
        carried_cell(alloc, &view, body.store(), cell as u32, held)
    }

    // What the edge brings of what stands at a cell where it is kept for the node that it leaves, where it is open.
    fn passed(
        &self,
        alloc: Global,
        edge: usize,
        cell: usize,
        values: &[Option<SlotValue>],
    ) -> Result<Option<SlotValue>, NoMemory>
        requires edge { edge < edges (sparse_of self.now) }
        requires cell { (let s = self.now.slots in is_in s.cells cell ≡ true) }
        ensures { IfOk result (λ at_cell. (at_cell ∷ []) ≡ brought_by self.now (flow edge cell) (at values.now)) }
    {
        let slots = self.slots;
        if !is_there(values, slots.numbers.number_of_open(edge)) {
            return Ok(None);
        }
        let number = self.kept_number(slots.graph.links[edge].from, cell);
        self.carried(alloc, edge, cell, values, number)
    }
}
