//! Edges that load.
ghost use Rattle.std.specs.Prelude.{◌≡◌, ◌<◌, cond, length, IfOk};
ghost use Rattle.std.specs.FinMap.{get};
ghost use Rattle.std.specs.Option.{option_map};
ghost use Rattle.tm_laid.specs.Layouts.{laid_tree};
ghost use Rattle.pointer_dom.specs.Values.{no_value};
ghost use Rattle.interfere_set.specs.Stores.{Interferences, HavePriorities, visible, reader_of};
ghost use Rattle.calculations.specs.transfer_rows.StateForms.{value_of};
ghost use Rattle.calculations.specs.transfer_rows.Actions.{loads, loads_any};
ghost use Rattle.calculations.specs.transfer_rows.Accesses.{targets_at};
ghost use Rattle.calculations.specs.transfer_rows.Rows.{found_in, loaded, is_stored, new_copy, after_load_any, arrived};
ghost use Rattle.edge_actions.specs.Layouts.{is_shared_cell, spots_of, open_value};
ghost use Rattle.edge_actions.specs.Edges.{around_of};
ghost use Rattle.edge_effects.specs.Effects.{IsAfter};

use crate::temps::given_state;
use crate::views::After;
use calculations::{no_classes, pointers_of};
use cell_env::State;
use edge_actions::{EdgeView, Targets, is_shared_cell, open_value, single_of, targets_at};
use interfere_set::{Store, seen_at_read};
use pointer_dom::{AbsValue, PointerSet};
use std::alloc::Global;
use strided_dom::Strided;
use tm_lattice::{Lattice, NoMemory};
use tm_typed::Scalar;

/// The abstract cells that an access by an address reaches.
pub fn reached(
    alloc: Global,
    view: &EdgeView,
    state: &State<AbsValue>,
    address: u32,
    scalar: Scalar,
) -> Result<Targets, NoMemory>
    ensures { IfOk result (λ targets. targets.items ≡ targets_at
        (spots_of (laid_tree view.now.laid.now) view.now.task scalar) (value_of state.now address).pointers) }
{
    let none = PointerSet::new(alloc);
    targets_at(
        alloc,
        view.laid,
        view.task,
        scalar,
        pointers_of(state, address, &none),
    )
}

// What the others wrote to a cell as far as the task sees it: nothing in a cell of its own.
fn seen(
    alloc: Global,
    view: &EdgeView,
    store: &Store,
    cell: u32,
    fresh: bool,
) -> Result<AbsValue, NoMemory>
    requires task { view.now.task < length view.now.priorities.now }
    requires writers { HavePriorities store.now (length view.now.priorities.now) }
    ensures { IfOk result (λ value. value ≡ cond (is_shared_cell (laid_tree view.now.laid.now) cell)
        (visible (reader_of view.now.task view.now.held view.now.found view.now.priorities.now) fresh cell store.now)
        no_value) }
{
    if is_shared_cell(view.laid, cell) {
        seen_at_read(
            alloc,
            store,
            view.task,
            view.held,
            view.found,
            cell,
            fresh,
            view.priorities,
        )
    } else {
        Ok(AbsValue::from_numbers(Strided::empty()))
    }
}

// What a load finds in a cell.
fn found_in(
    alloc: Global,
    view: &EdgeView,
    state: &State<AbsValue>,
    store: &Store,
    cell: u32,
) -> Result<AbsValue, NoMemory>
    requires task { view.now.task < length view.now.priorities.now }
    requires writers { HavePriorities store.now (length view.now.priorities.now) }
    ensures { IfOk result
        (λ value. value ≡ found_in (around_of view.now) store.now cell (get state.now.cells cell)) }
{
    match state.cell(cell) {
        None => Ok(AbsValue::from_numbers(Strided::empty())),
        Some(entry) => {
            let others = seen(alloc, view, store, cell, entry.fresh)?;
            entry.value.join(alloc, &others)
        }
    }
}

// What a load finds in some cells.
fn loaded(
    alloc: Global,
    view: &EdgeView,
    state: &State<AbsValue>,
    store: &Store,
    cells: &[u32],
) -> Result<AbsValue, NoMemory>
    requires task { view.now.task < length view.now.priorities.now }
    requires writers { HavePriorities store.now (length view.now.priorities.now) }
    ensures { IfOk result (λ value. value ≡ loaded (around_of view.now) state.now store.now cells.now) }
{
    let mut value = AbsValue::from_numbers(Strided::empty());
    for cell in cells {
        let found = found_in(alloc, view, state, store, *cell)?;
        // The call tells that it is a value.
        let _found = found.is_nothing();
        value = value.join(alloc, &found)?;
    }
    Ok(value)
}

// Whether a cell was stored since it was cleared.
fn is_stored(state: &State<AbsValue>, cell: u32) -> bool
    ensures { result ≡ is_stored (get state.now.cells cell) }
{
    match state.cell(cell) {
        None => true,
        Some(entry) => entry.stored,
    }
}

// The copy that a load makes of a single cell.
fn new_copy(view: &EdgeView, state: &State<AbsValue>, single: Option<u32>) -> Option<u32>
    ensures { result ≡ new_copy (around_of view.now) state.now single }
{
    match single {
        None => None,
        Some(cell) => {
            if is_shared_cell(view.laid, cell) || is_stored(state, cell) {
                Some(cell)
            } else {
                None
            }
        }
    }
}

/// An edge that loads.
pub fn load(
    alloc: Global,
    view: &EdgeView,
    state: &State<AbsValue>,
    store: &Store,
    target: u32,
    address: u32,
    scalar: Scalar,
) -> Result<After, NoMemory>
    requires task { view.now.task < length view.now.priorities.now }
    requires writers { HavePriorities store.now (length view.now.priorities.now) }
    ensures { IfOk result (λ after. IsAfter (around_of view.now)
        (loads (spots_of (laid_tree view.now.laid.now) view.now.task scalar) target address) state.now store.now
        after) }
{
    let targets = reached(alloc, view, state, address, scalar)?;
    let cells = targets.as_slice();
    let value = loaded(alloc, view, state, store, cells)?;
    let copy = new_copy(view, state, single_of(view.laid, cells));
    let given = given_state(alloc, view, state, target, value, copy)?;
    Ok(After {
        state: given,
        added: Store::new(alloc),
        classes: no_classes(),
        targets,
    })
}

// The state after a load of any value.
fn given_any(
    alloc: Global,
    view: &EdgeView,
    state: &State<AbsValue>,
    target: u32,
    cells: &[u32],
    value: AbsValue,
) -> Result<Option<State<AbsValue>>, NoMemory>
    ensures { IfOk result (λ after. after
        ≡ option_map (arrived (around_of view.now))
        (after_load_any (around_of view.now) state.now target cells.now value)) }
{
    match cells {
        [] => Ok(None),
        _ => given_state(alloc, view, state, target, value, None),
    }
}

/// An edge that loads a volatile cell, which may hold any value of its type.
pub fn load_any(
    alloc: Global,
    view: &EdgeView,
    state: &State<AbsValue>,
    target: u32,
    address: u32,
    scalar: Scalar,
) -> Result<After, NoMemory>
    ensures { IfOk result (λ after. (store : Interferences) → IsAfter (around_of view.now)
        (loads_any (spots_of (laid_tree view.now.laid.now) view.now.task scalar) target address (open_value scalar))
        state.now store after) }
{
    let targets = reached(alloc, view, state, address, scalar)?;
    let value = open_value(alloc, scalar);
    let cells = targets.as_slice();
    let given = given_any(alloc, view, state, target, cells, value)?;
    Ok(After {
        state: given,
        added: Store::new(alloc),
        classes: no_classes(),
        targets,
    })
}
