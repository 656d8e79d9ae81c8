//! What the edges that are no stores do to the cells of a state.
ghost use Rattle.std.specs.Prelude.{◌≡◌, ◌≤◌, ◌<◌, ◌+◌, ◌&&◌, ℕ, nat_le, nat_lt, bit_and, cond, false, IsTrue, IfOk};
ghost use Rattle.std.specs.Prelude.{MatchOption};
ghost use Rattle.tm_laid.specs.Layouts.{laid_tree, object_at};
ghost use Rattle.tm_lattice.specs.Tables.{IsPast, IsNext, changed_table};
ghost use Rattle.pointer_dom.specs.Values.{joined_values, no_value};
ghost use Rattle.interfere_set.specs.Stores.{handed};
ghost use Rattle.edge_effects.specs.calculations.transfer_rows.StateForms.{Cell};
ghost use Rattle.edge_effects.specs.calculations.transfer_rows.Rows.{cleared_to};
ghost use Rattle.edge_actions.specs.Layouts.{is_shared_cell};
ghost use Rattle.edge_actions.specs.Edges.{cleared_value};
ghost use Rattle.memory_effects.specs.reading.Changes.{change_of, kept_or, value_or};

use cell_env::CellState;
use edge_actions::{EdgeView, is_shared_cell, open_cell};
use interfere_set::{Store, taken_at_lock};
use pointer_dom::AbsValue;
use state_tree::Tree;
use std::alloc::Global;
use tm_laid::{Laid, object_at};
use tm_lattice::{Lattice, NoMemory};

/// What an edge does to every cell.
#[derive(Clone, Copy)]
pub enum Change<'a> {
    /// The task waits: no cell is fresh behind it.
    Wait,
    /// Of the mutexes that are pending those of a set stay, as bits.
    Keep(u16),
    /// What the others left under a mutex is taken over.
    Take { store: &'a Store, mutex: u32 },
    /// What the others left under a mutex is taken over, and the task waits.
    TakeWaiting { store: &'a Store, mutex: u32 },
    /// The cells of an object become open.
    Open(u32),
}

// The number of a cell has 32 bits.
fn has_32_bits(cell: u32)
    ensures { cell ≤ 4294967295 }
{}

/// The entry with the least number of those from the given one on: None exactly where there is none. Behind the last
/// number of 32 bits there is none.
pub fn next_cell<'a>(
    cells: &'a Tree<CellState<AbsValue>>,
    from: u64,
) -> Result<Option<(u32, &'a CellState<AbsValue>)>, NoMemory>
    ensures { IfOk result (λ next. MatchOption next (IsPast cells.now from)
        (λ entry. IsNext cells.now from entry.0 entry.1.now)) }
{
    if from <= u64::from(u32::MAX) {
        return Ok(cells.entry_from(from as u32));
    }
    // The calls tell that no number is greater than the last of 32 bits.
    let mut others = cells.shared()?;
    others.remove(u32::MAX)?;
    match others.entry_from(u32::MAX) {
        None => Ok(None),
        Some((cell, _)) => {
            has_32_bits(cell);
            Ok(cells.entry_from(cell))
        }
    }
}

// Whether an abstract cell is of an object.
fn is_part(laid: &Laid, object: u32, cell: u32) -> bool
    ensures { let o = object_at (laid_tree laid.now) object in
        result ≡ (nat_le o.first_abstract cell && nat_lt cell (o.first_abstract + o.abstract_cells)) }
{
    let o = object_at(laid, object);
    o.first_abstract <= cell
        && u64::from(cell) < u64::from(o.first_abstract) + u64::from(o.abstract_cells)
}

// The least number of a cell that is changed.
fn first_changed(view: &EdgeView, change: &Change) -> u32
    ensures { (cell : ℕ) (c : Cell) → cell < result → change_of view.now change.now cell c ≡ c }
{
    match *change {
        Change::Open(object) => object_at(view.laid, object).first_abstract,
        _ => 0,
    }
}

// Whether no cell is changed from this one on.
fn is_behind(view: &EdgeView, change: &Change, cell: u32) -> bool
    ensures { IsTrue result → (other : ℕ) (c : Cell) → cell ≤ other → change_of view.now change.now other c ≡ c }
{
    match *change {
        Change::Open(object) => {
            let o = object_at(view.laid, object);
            u64::from(cell) >= u64::from(o.first_abstract) + u64::from(o.abstract_cells)
        }
        _ => false,
    }
}

// A cell with what the others left there under a mutex: its value, None where it is as before.
fn taken(
    alloc: Global,
    view: &EdgeView,
    store: &Store,
    mutex: u32,
    cell: u32,
    value: &AbsValue,
) -> Result<Option<AbsValue>, NoMemory>
    ensures { IfOk result (λ more. value_or more value.now ≡ joined_values value.now
        (cond (is_shared_cell (laid_tree view.now.laid.now) cell) (handed view.now.task mutex cell store.now)
        no_value)) }
{
    // The calls tell that these are values.
    let _own = value.is_nothing();
    if !is_shared_cell(view.laid, cell) {
        return Ok(None);
    }
    let others = taken_at_lock(alloc, store, view.task, mutex, cell)?;
    let _others = others.is_nothing();
    if others.below(value) {
        return Ok(None);
    }
    Ok(Some(value.join(alloc, &others)?))
}

// A cell that is no longer fresh, with another value if there is one: None where it is as before.
fn aged(
    alloc: Global,
    entry: &CellState<AbsValue>,
    value: Option<AbsValue>,
) -> Result<Option<CellState<AbsValue>>, NoMemory>
    ensures { IfOk result (λ after. kept_or after entry.now
        ≡ record entry.now { value = value_or value entry.now.value; fresh = false }) }
{
    match value {
        Some(value) => Ok(Some(CellState {
            value,
            pending: entry.pending,
            fresh: false,
            stored: entry.stored,
        })),
        None => {
            if entry.fresh {
                Ok(Some(CellState {
                    value: entry.value.copied(alloc)?,
                    pending: entry.pending,
                    fresh: false,
                    stored: entry.stored,
                }))
            } else {
                Ok(None)
            }
        }
    }
}

// A cell at which of the pending mutexes those of a set stay: None where it is as before.
fn kept(
    alloc: Global,
    entry: &CellState<AbsValue>,
    set: u16,
) -> Result<Option<CellState<AbsValue>>, NoMemory>
    ensures { IfOk result (λ after. kept_or after entry.now
        ≡ record entry.now { pending = bit_and entry.now.pending set }) }
{
    let pending = entry.pending & set;
    if pending == entry.pending {
        return Ok(None);
    }
    Ok(Some(CellState {
        value: entry.value.copied(alloc)?,
        pending,
        fresh: entry.fresh,
        stored: entry.stored,
    }))
}

// A cell with another value if there is one: None where it is as before.
fn with_value(entry: &CellState<AbsValue>, value: Option<AbsValue>) -> Option<CellState<AbsValue>>
    ensures { kept_or result entry.now ≡ record entry.now { value = value_or value entry.now.value } }
{
    match value {
        None => None,
        Some(value) => Some(CellState {
            value,
            pending: entry.pending,
            fresh: entry.fresh,
            stored: entry.stored,
        }),
    }
}

// A cell that becomes open where it is of an object: None where it is not.
fn opened(
    alloc: Global,
    laid: &Laid,
    object: u32,
    cell: u32,
    entry: &CellState<AbsValue>,
) -> Option<CellState<AbsValue>>
    ensures { kept_or result entry.now ≡ cleared_to (cleared_value (laid_tree laid.now) object cell) entry.now }
{
    if !is_part(laid, object, cell) {
        return None;
    }
    Some(CellState {
        value: open_cell(alloc, laid, cell),
        pending: entry.pending,
        fresh: entry.fresh,
        stored: false,
    })
}

// What becomes of a cell: None where it is as before.
fn changed_cell(
    alloc: Global,
    view: &EdgeView,
    change: &Change,
    cell: u32,
    entry: &CellState<AbsValue>,
) -> Result<Option<CellState<AbsValue>>, NoMemory>
    ensures { IfOk result (λ after. kept_or after entry.now ≡ change_of view.now change.now cell entry.now) }
{
    match *change {
        Change::Wait => aged(alloc, entry, None),
        Change::Keep(set) => kept(alloc, entry, set),
        Change::Take { store, mutex } => {
            let value = taken(alloc, view, store, mutex, cell, &entry.value)?;
            Ok(with_value(entry, value))
        }
        Change::TakeWaiting { store, mutex } => {
            let value = taken(alloc, view, store, mutex, cell, &entry.value)?;
            aged(alloc, entry, value)
        }
        Change::Open(object) => Ok(opened(alloc, view.laid, object, cell, entry)),
    }
}

/// The cells of a state after a change. Those that stay as they are stay shared with the state.
pub fn changed_cells(
    alloc: Global,
    view: &EdgeView,
    before: &Tree<CellState<AbsValue>>,
    change: &Change,
) -> Result<Tree<CellState<AbsValue>>, NoMemory>
    ensures { IfOk result (λ after. after ≡ changed_table (change_of view.now change.now) before.now) }
{
    let mut after = before.shared()?;
    let mut from = u64::from(first_changed(view, change));
    while let Some((cell, entry)) = next_cell(before, from)? {
        if is_behind(view, change, cell) {
            return Ok(after);
        }
        if let Some(changed) = changed_cell(alloc, view, change, cell, entry)? {
            after = after.with(cell, changed)?;
        }
        from = u64::from(cell) + 1;
    }
    Ok(after)
}
