//! What edges add to the store of interferences.
ghost use Rattle.std.specs.Prelude.{◌≡◌, ◌&&◌, ◌<◌, ℕ, List, [], ◌∷◌, ◌++◌, eqb, cond, IfOk};
ghost use Rattle.std.specs.Int.{bit_at};
ghost use Rattle.std.specs.FinMap.{get, keys};
ghost use Rattle.tm_laid.specs.Layouts.{laid_tree};
ghost use Rattle.pointer_dom.specs.Values.{no_value};
ghost use Rattle.edge_effects.specs.calculations.transfer_rows.Accesses.{is_among};
ghost use Rattle.edge_effects.specs.calculations.transfer_rows.Reports.{left_by};
ghost use Rattle.edge_effects.specs.calculations.transfer_rows.Contributions.{cells_added, nested_under};
ghost use Rattle.edge_actions.specs.Layouts.{is_shared_cell};
ghost use Rattle.memory_effects.specs.reading.Changes.{shown_value, IsWrittenAt};

use crate::changes::next_cell;
use cell_env::CellState;
use edge_actions::{EdgeView, is_shared_cell};
use interfere_set::Nested;
use pointer_dom::AbsValue;
use state_tree::Tree;
use std::alloc::Global;
use tm_lattice::{Keyed, Lattice, NoMemory};

/// One table of cells, if it has some, under a task and a set of mutexes, or a mutex.
pub fn nested_under(
    alloc: Global,
    task: u32,
    set: u32,
    cells: Keyed<AbsValue>,
) -> Result<Nested, NoMemory>
    ensures { IfOk result (λ nested. nested ≡ nested_under task set cells) }
{
    let mut nested = Keyed::new(alloc);
    if !Lattice::is_nothing(&cells) {
        let mut sets = Keyed::new(alloc);
        sets.put(set, cells)?;
        nested.put(task, sets)?;
    }
    Ok(nested)
}

// The entries with a value at one more cell, if it is shared.
fn with_written(
    alloc: Global,
    view: &EdgeView,
    added: Keyed<AbsValue>,
    value: &AbsValue,
    cell: u32,
) -> Result<Keyed<AbsValue>, NoMemory>
    requires { value.now ≡ no_value → ⊥ }
    ensures { IfOk result (λ more. (cells : List ℕ)
        → IsWrittenAt (is_shared_cell (laid_tree view.now.laid.now)) value.now cells added
        → IsWrittenAt (is_shared_cell (laid_tree view.now.laid.now)) value.now (cells ++ cell ∷ []) more) }
{
    if !is_shared_cell(view.laid, cell) {
        return Ok(added);
    }
    if let Some(_) = added.get(cell) {
        return Ok(added);
    }
    let copy = value.copied(alloc)?;
    let mut more = added;
    more.put(cell, copy)?;
    Ok(more)
}

/// The value at each shared cell of these; no cell where it is nothing.
pub fn written_cells(
    alloc: Global,
    view: &EdgeView,
    value: &AbsValue,
    cells: &[u32],
) -> Result<Keyed<AbsValue>, NoMemory>
    ensures { IfOk result (λ added. added ≡ cells_added
        (λ cell. cond (is_shared_cell (laid_tree view.now.laid.now) cell && is_among cells.now cell) value.now no_value)
        cells.now) }
{
    let mut added = Keyed::new(alloc);
    if value.is_nothing() {
        return Ok(added);
    }
    for cell in cells {
        added = with_written(alloc, view, added, value, *cell)?;
    }
    Ok(added)
}

// The value of a cell that is left under a mutex: None where the cell is a task's own, the mutex is not pending there,
// or the value is nothing.
fn left_value(
    alloc: Global,
    view: &EdgeView,
    mutex: u32,
    cell: u32,
    entry: &CellState<AbsValue>,
) -> Result<Option<AbsValue>, NoMemory>
    requires { mutex < 16 }
    ensures { IfOk result (λ value. value ≡ shown_value
        (cond (is_shared_cell (laid_tree view.now.laid.now) cell) (left_by mutex (Some entry.now)) no_value)) }
{
    if !is_shared_cell(view.laid, cell) {
        return Ok(None);
    }
    if !has_mutex(entry.pending, mutex) {
        return Ok(None);
    }
    if entry.value.is_nothing() {
        return Ok(None);
    }
    Ok(Some(entry.value.copied(alloc)?))
}

/// Whether a mutex is in a set.
pub fn has_mutex(set: u16, mutex: u32) -> bool
    requires { mutex < 16 }
    ensures { result ≡ eqb (bit_at set mutex) 1 }
{
    (set >> mutex) % 2 == 1
}

/// What the shared cells hold at which a mutex is pending; no cell where that is nothing.
pub fn left_cells(
    alloc: Global,
    view: &EdgeView,
    cells: &Tree<CellState<AbsValue>>,
    mutex: u32,
) -> Result<Keyed<AbsValue>, NoMemory>
    requires { mutex < 16 }
    ensures { IfOk result (λ left. left ≡ cells_added (λ cell. cond
        (is_shared_cell (laid_tree view.now.laid.now) cell) (left_by mutex (get cells.now cell)) no_value)
        (keys cells.now)) }
{
    let mut left = Keyed::new(alloc);
    let mut from = 0;
    while let Some((cell, entry)) = next_cell(cells, from)? {
        if let Some(value) = left_value(alloc, view, mutex, cell, entry)? {
            left.put(cell, value)?;
        }
        from = u64::from(cell) + 1;
    }
    Ok(left)
}
