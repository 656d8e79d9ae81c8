//! What an edge makes of a cell that it carries.
ghost use Rattle.std.specs.Prelude.{◌≡◌, cond, IfOk};
ghost use Rattle.tm_laid.specs.Layouts.{laid_tree};
ghost use Rattle.pointer_dom.specs.Values.{joined_values, no_value};
ghost use Rattle.interfere_set.specs.Stores.{handed};
ghost use Rattle.sparse_rows.specs.transfer_rows.Rows.{aged, released, taken};
ghost use Rattle.sparse_rows.specs.Carried.{carried_by};
ghost use Rattle.edge_actions.specs.Layouts.{is_shared_cell};
ghost use Rattle.edge_actions.specs.Edges.{around_of, action_at};

use crate::checks::all_but;
use cell_env::CellState;
use edge_actions::{EdgeView, is_shared_cell};
use flow_graph::Operation;
use interfere_set::{Store, taken_at_lock};
use pointer_dom::AbsValue;
use std::alloc::Global;
use tm_lattice::{Lattice, NoMemory};

// The value of a cell with what the others left there under a mutex.
fn taken_value(
    alloc: Global,
    view: &EdgeView,
    store: &Store,
    mutex: u32,
    cell: u32,
    value: &AbsValue,
) -> Result<AbsValue, NoMemory>
    ensures { IfOk result (λ all. all ≡ joined_values value.now
        (cond (is_shared_cell (laid_tree view.now.laid.now) cell) (handed view.now.task mutex cell store.now)
        no_value)) }
{
    // The calls tell that these are values.
    let _own = value.is_nothing();
    if !is_shared_cell(view.laid, cell) {
        return Ok(value.copied(alloc)?);
    }
    let others = taken_at_lock(alloc, store, view.task, mutex, cell)?;
    let _others = others.is_nothing();
    if others.below(value) {
        return Ok(value.copied(alloc)?);
    }
    Ok(value.join(alloc, &others)?)
}

// A cell at which a mutex is pending no more.
fn released(
    alloc: Global,
    entry: &CellState<AbsValue>,
    mutex: u32,
) -> Result<CellState<AbsValue>, NoMemory>
    ensures { IfOk result (λ after. after ≡ released mutex entry.now) }
{
    Ok(CellState {
        value: entry.value.copied(alloc)?,
        pending: entry.pending & all_but(mutex),
        fresh: entry.fresh,
        stored: entry.stored,
    })
}

// A cell that is no longer fresh.
fn aged(alloc: Global, entry: &CellState<AbsValue>) -> Result<CellState<AbsValue>, NoMemory>
    ensures { IfOk result (λ after. after ≡ aged entry.now) }
{
    Ok(CellState {
        value: entry.value.copied(alloc)?,
        pending: entry.pending,
        fresh: false,
        stored: entry.stored,
    })
}

// A cell with what the others left there under a mutex; if the task may wait, it is no longer fresh.
fn taken(
    alloc: Global,
    view: &EdgeView,
    store: &Store,
    mutex: u32,
    cell: u32,
    entry: &CellState<AbsValue>,
    fresh: bool,
) -> Result<CellState<AbsValue>, NoMemory>
    ensures { IfOk result (λ after.
        after ≡ record (taken (around_of view.now) store.now mutex cell entry.now) { fresh = fresh }) }
{
    Ok(CellState {
        value: taken_value(alloc, view, store, mutex, cell, &entry.value)?,
        pending: entry.pending,
        fresh,
        stored: entry.stored,
    })
}

/// What an edge makes of a cell by itself, over a store. It takes time linear in the number of tasks, times a logarithm.
pub fn carried_cell(
    alloc: Global,
    view: &EdgeView,
    store: &Store,
    cell: u32,
    entry: &CellState<AbsValue>,
) -> Result<CellState<AbsValue>, NoMemory>
    ensures { IfOk result (λ after.
        after ≡ carried_by (around_of view.now) (action_at view.now) store.now cell entry.now) }
{
    match view.operation {
        Operation::Lock { mutex, .. } => taken(alloc, view, store, mutex, cell, entry, false),
        Operation::Unlock { mutex, .. } => released(alloc, entry, mutex),
        Operation::Yield => aged(alloc, entry),
        Operation::Probe { mutex, .. } if !view.answer => {
            taken(alloc, view, store, mutex, cell, entry, entry.fresh)
        }
        _ => Ok(entry.copied(alloc)?),
    }
}
