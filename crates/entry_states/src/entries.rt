//! States at which bodies begin.
ghost use Rattle.std.specs.Prelude.{◌≡◌, ◌≤◌, IfOk, length};
ghost use Rattle.std.specs.Option.{option_copied};
ghost use Rattle.tm_laid.specs.Layouts.{laid_tree};
ghost use Rattle.body_systems.specs.edge_actions.Layouts.{is_reachable};
ghost use Rattle.body_systems.specs.program_equations.Readings.{read_layout};
ghost use Rattle.body_systems.specs.program_equations.Entries.{entry_cell, entry_state, first_state, later_state};
ghost use Rattle.entry_states.specs.Beginnings.{BeginsInTypes, AreInitialValues};
ghost use Rattle.entry_states.specs.reading.Holdings.{held_value};

use body_systems::{BodyState, is_reachable, is_shared_cell, open_cell};
use cell_env::{CellState, State};
use pointer_dom::AbsValue;
use state_tree::Tree;
use std::alloc::Global;
use strided_dom::Strided;
use tm_laid::Laid;
use tm_lattice::{Keyed, Lattice, NoMemory};

/// Where it stands what cells of static storage hold.
#[derive(Clone, Copy)]
pub enum Holding<'a> {
    /// In a list, by the numbers of the abstract cells.
    Listed(&'a [AbsValue]),
    /// In a state.
    Kept(&'a State<AbsValue>),
}

// What an abstract cell holds: nothing where that stands nowhere.
fn held_value(alloc: Global, holding: &Holding, cell: u32) -> Result<AbsValue, NoMemory>
    ensures { IfOk result (λ value. value ≡ held_value holding.now cell) }
{
    match *holding {
        Holding::Listed(values) => match values.get(cell as usize) {
            Some(value) => value.copied(alloc),
            None => Ok(AbsValue::from_numbers(Strided::empty())),
        },
        Holding::Kept(state) => match state.cell(cell) {
            Some(entry) => entry.value.copied(alloc),
            None => Ok(AbsValue::from_numbers(Strided::empty())),
        },
    }
}

// An abstract cell at an entry.
fn entry_cell(
    alloc: Global,
    laid: &Laid,
    holding: &Holding,
    cell: u32,
) -> Result<CellState<AbsValue>, NoMemory>
    ensures { IfOk result
        (λ entry. entry ≡ entry_cell (read_layout (laid_tree laid.now)) (held_value holding.now) cell) }
{
    let value = if is_shared_cell(laid, cell) {
        held_value(alloc, holding, cell)?
    } else {
        open_cell(alloc, laid, cell)
    };
    Ok(CellState {
        value,
        pending: 0,
        fresh: false,
        stored: false,
    })
}

// The state at the entry of a body where cells of static storage hold these values.
fn entry_state(
    alloc: Global,
    laid: &Laid,
    task: u32,
    holding: &Holding,
) -> Result<State<AbsValue>, NoMemory>
    requires { BeginsInTypes (read_layout (laid_tree laid.now)) }
    ensures { IfOk result
        (λ state. state ≡ entry_state (read_layout (laid_tree laid.now)) task (held_value holding.now)) }
{
    let mut cells = Tree::new(alloc);
    for cell in 0..laid.abstract_cells.len() as u32 {
        if is_reachable(laid, task, laid.abstract_cells[cell as usize].object) {
            let entry = entry_cell(alloc, laid, holding, cell)?;
            cells.put(cell, entry)?;
        }
    }
    Ok(State::new(Keyed::new(alloc), cells))
}

/// The state at the entry of a body before anything has run. The values are what `initial_values` answers for the
/// layout, so that all bodies share one list.
pub fn first_state(
    alloc: Global,
    laid: &Laid,
    body: u32,
    values: &[AbsValue],
) -> Result<State<AbsValue>, NoMemory>
    requires layout { BeginsInTypes (read_layout (laid_tree laid.now)) }
    requires values { AreInitialValues (read_layout (laid_tree laid.now)) values.now }
    ensures { IfOk result (λ state. state ≡ first_state (read_layout (laid_tree laid.now)) body) }
{
    let first = entry_state(alloc, laid, body, &Holding::Listed(values))?;
    Ok(first)
}

/// The state at the entry of a task behind the initial section, which ends in this state; none where it does not end.
pub fn later_state(
    alloc: Global,
    laid: &Laid,
    task: u32,
    ended: Option<&BodyState>,
) -> Result<Option<State<AbsValue>>, NoMemory>
    requires { BeginsInTypes (read_layout (laid_tree laid.now)) }
    ensures { IfOk result
        (λ state. state ≡ later_state (read_layout (laid_tree laid.now)) task (option_copied ended.entry)) }
{
    match ended {
        None => Ok(None),
        Some(state) => {
            let later = entry_state(alloc, laid, task, &Holding::Kept(state.state()))?;
            Ok(Some(later))
        }
    }
}
