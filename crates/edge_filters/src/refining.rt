//! Temporaries that are refined, and with them the cells of which they are copies.
ghost use Rattle.std.specs.Prelude.{◌≡◌, IfOk, Option};
ghost use Rattle.std.specs.Option.{option_map};
ghost use Rattle.tm_lattice.specs.Tables.{changed_table};
ghost use Rattle.pointer_dom.specs.Values.{Values};
ghost use Rattle.edge_effects.specs.calculations.operator_values.MetValues.{met_values};
ghost use Rattle.edge_effects.specs.calculations.transfer_rows.Actions.{temporary, fixed};
ghost use Rattle.edge_effects.specs.calculations.transfer_rows.Rows.{met_where, refined, is_contradicted};
ghost use Rattle.edge_effects.specs.calculations.transfer_rows.Rows.{after_refined};
ghost use Rattle.edge_effects.specs.calculations.transfer_rows.Rows.{side_refined};
ghost use Rattle.edge_effects.specs.calculations.transfer_rows.StateForms.{is_no_value, own_of};
ghost use Rattle.edge_effects.specs.calculations.transfer_rows.Rows.{then_refined, arrived};
ghost use Rattle.edge_effects.specs.edge_actions.Edges.{around_of};

use cell_env::{CellState, State, TempState};
use edge_effects::{EdgeView, arrived_state, is_shared_cell};
use pointer_dom::AbsValue;
use state_tree::Tree;
use std::alloc::Global;
use tm_lattice::{Lattice, NoMemory};

// An own value met with what is left of a copy.
fn met_value(alloc: Global, own: &AbsValue, left: &AbsValue) -> Result<AbsValue, NoMemory>
    ensures { IfOk result (λ met. met ≡ met_values own.now left.now) }
{
    let met = own.meet(alloc, left)?;
    // The calls tell that these are values.
    let _own = own.is_nothing();
    let _left = left.is_nothing();
    let _met = met.is_nothing();
    Ok(met)
}

/// The cells, where the own value of the one of which a temporary was a copy is met with what is left of the temporary.
/// They share what does not change.
pub fn met_cells(
    alloc: Global,
    cells: &Tree<CellState<AbsValue>>,
    copy: Option<u32>,
    left: &AbsValue,
) -> Result<Tree<CellState<AbsValue>>, NoMemory>
    ensures { IfOk result (λ after. after ≡ changed_table (met_where copy left.now) cells.now) }
{
    let mut after = cells.shared()?;
    let Some(cell) = copy else {
        return Ok(after);
    };
    let Some(entry) = cells.get(cell) else {
        return Ok(after);
    };
    // The calls tell that these are values.
    let _own = entry.value.is_nothing();
    let _left = left.is_nothing();
    if entry.value.below(left) {
        return Ok(after);
    }
    let value = met_value(alloc, &entry.value, left)?;
    let met = CellState {
        value,
        pending: entry.pending,
        fresh: entry.fresh,
        stored: entry.stored,
    };
    after.put(cell, met)?;
    Ok(after)
}

/// The state with a temporary refined to a value, and the cell of which it is a copy with it.
pub fn refined_state(
    alloc: Global,
    state: &State<AbsValue>,
    temp: u32,
    value: AbsValue,
    copy: Option<u32>,
) -> Result<State<AbsValue>, NoMemory>
    ensures { IfOk result (λ after. after ≡ refined state.now temp value copy) }
{
    let cells = met_cells(alloc, state.cells(), copy, &value)?;
    let mut temps = state.temps().copied(alloc)?;
    temps.put(temp, TempState { value, copy })?;
    Ok(State::new(temps, cells))
}

// Whether a state has no own value of a cell.
fn is_empty_cell(state: &State<AbsValue>, cell: u32) -> bool
    ensures { result ≡ is_no_value (own_of state.now cell) }
{
    match state.cell(cell) {
        None => true,
        Some(entry) => entry.value.is_nothing(),
    }
}

// Whether nothing is left of the local cell of which a temporary is a copy.
fn is_contradicted(view: &EdgeView, state: &State<AbsValue>, copy: Option<u32>) -> bool
    ensures { result ≡ is_contradicted (around_of view.now) state.now copy }
{
    match copy {
        None => false,
        Some(cell) => !is_shared_cell(view.laid, cell) && is_empty_cell(state, cell),
    }
}

/// The state after a temporary is refined; none where nothing is left of the value, or of a local cell.
pub fn after_refined(
    alloc: Global,
    view: &EdgeView,
    state: &State<AbsValue>,
    temp: u32,
    value: AbsValue,
) -> Result<Option<State<AbsValue>>, NoMemory>
    ensures { IfOk result (λ after. after ≡ after_refined (around_of view.now) state.now temp value) }
{
    let Some(before) = state.temp(temp) else {
        return Ok(None);
    };
    if value.is_nothing() {
        return Ok(None);
    }
    let copy = before.copy;
    let after = refined_state(alloc, state, temp, value, copy)?;
    if is_contradicted(view, &after, copy) {
        return Ok(None);
    }
    Ok(Some(after))
}

/// Both sides of a comparison of temporaries, refined to what is left of them.
pub fn both_refined(
    alloc: Global,
    view: &EdgeView,
    state: &State<AbsValue>,
    left: u32,
    right: u32,
    sides: (AbsValue, AbsValue),
) -> Result<Option<State<AbsValue>>, NoMemory>
    ensures { IfOk result (λ after. after ≡ then_refined (around_of view.now) (temporary right) sides.1
        (side_refined (around_of view.now) (temporary left) sides.0 state.now)) }
{
    let (of_left, of_right) = sides;
    let Some(before) = after_refined(alloc, view, state, left, of_left)? else {
        return Ok(None);
    };
    let after = after_refined(alloc, view, &before, right, of_right)?;
    Ok(after)
}

/// The left side of a comparison with a constant, refined to what is left of it.
pub fn one_refined(
    alloc: Global,
    view: &EdgeView,
    state: &State<AbsValue>,
    left: u32,
    sides: (AbsValue, AbsValue),
) -> Result<Option<State<AbsValue>>, NoMemory>
    ensures { IfOk result (λ after. (constant : Values) → after ≡ then_refined (around_of view.now) (fixed constant)
        sides.1 (side_refined (around_of view.now) (temporary left) sides.0 state.now)) }
{
    let (of_left, of_right) = sides;
    if of_right.is_nothing() {
        return Ok(None);
    }
    let after = after_refined(alloc, view, state, left, of_left)?;
    Ok(after)
}

/// The state where the edge leads, if it leads somewhere.
pub fn arrived_where(
    alloc: Global,
    view: &EdgeView,
    state: Option<State<AbsValue>>,
) -> Result<Option<State<AbsValue>>, NoMemory>
    ensures { IfOk result (λ after. after ≡ option_map (arrived (around_of view.now)) state) }
{
    let Some(before) = state else {
        return Ok(None);
    };
    let after = arrived_state(alloc, view, &before)?;
    Ok(Some(after))
}
