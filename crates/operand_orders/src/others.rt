//! The cells that tasks other than the body store.
ghost use Rattle.std.specs.Prelude.{◌≡◌, ◌≢◌, ◌↔◌, ◌<◌, ℕ, length, IfOk, IsTrue};
ghost use Rattle.std.specs.FinMap.{get};
ghost use Rattle.pointer_dom.specs.Values.{no_value};
ghost use Rattle.interfere_set.specs.Stores.{value_or_none};
ghost use Rattle.operand_orders.specs.Order.{IsStoredByOthers};
ghost use Rattle.operand_orders.specs.reading.Marks.{IsMarked};
ghost use Rattle.operand_orders.specs.reading.Touches.{LeavesIn};
ghost use Rattle.operand_orders.specs.reading.Views.{solved};

use crate::lists::small;
use crate::views::BodyView;
use pointer_dom::AbsValue;
use tm_lattice::{Keyed, Lattice, NoMemory};

// Whether there is something in a cell of a table.
fn has_value(cells: &Keyed<AbsValue>, cell: u32) -> bool
    ensures { IsTrue result ↔ (value_or_none (get cells.now cell) ≢ no_value) }
{
    match cells.get(cell) {
        Some(value) => !value.is_nothing(),
        None => false,
    }
}

// Whether a task left something in a cell, with any mutexes held.
fn leaves_in(written: &Keyed<Keyed<AbsValue>>, cell: u32) -> bool
    ensures { IsTrue result ↔ LeavesIn written.now cell }
{
    let sets = written.entries();
    for index in 0..sets.len() {
        if has_value(&sets[index].1, cell) {
            return true;
        }
    }
    false
}

// Whether these entries are of a task other than the body, and it left something in a cell.
fn is_of_other(entry: &(u32, Keyed<Keyed<AbsValue>>), body: u32, cell: u32) -> bool
    ensures { IsTrue result ↔ ((entry.now.0 ≢ body) × LeavesIn entry.now.1 cell) }
{
    entry.0 != body && leaves_in(&entry.1, cell)
}

// Whether a task other than the body stores a cell.
fn is_stored_by_others(view: BodyView<'_>, cell: u32) -> bool
    ensures { IsTrue result ↔ IsStoredByOthers (solved view.entry) cell }
{
    let tasks = view.store.weak().entries();
    for index in 0..tasks.len() {
        if is_of_other(&tasks[index], view.number, cell) {
            return true;
        }
    }
    false
}

/// For each cell of the layout whether a task other than the body stores it.
pub(crate) fn others_of(view: BodyView<'_>) -> Result<Vec<bool>, NoMemory>
    ensures { IfOk result (λ others. (k : ℕ) → k < length others.items
        → IsMarked others.items k ↔ IsStoredByOthers (solved view.entry) k) }
{
    let mut others = Vec::new(view.alloc);
    for cell in 0..view.laid.abstract_cells.len() {
        let is = is_stored_by_others(view, small(cell)?);
        others.push(is)?;
    }
    Ok(others)
}

/// Whether a task other than the body stores a cell, where it is known of the first cells.
pub(crate) fn is_other(view: BodyView<'_>, others: &[bool], cell: u32) -> bool
    requires known { (k : ℕ) → k < length others.now → IsMarked others.now k ↔ IsStoredByOthers (solved view) k }
    ensures { IsTrue result ↔ IsStoredByOthers (solved view.entry) cell }
{
    match others.get(cell as usize) {
        Some(mark) => *mark,
        None => is_stored_by_others(view, cell),
    }
}
