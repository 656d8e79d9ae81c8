//! What stores do to the cells of a state.
ghost use Rattle.std.specs.Prelude.{◌≡◌, bit_or, cond, eqb, IfOk};
ghost use Rattle.tm_laid.specs.Layouts.{laid_tree};
ghost use Rattle.tm_lattice.specs.Tables.{changed_table};
ghost use Rattle.edge_effects.specs.calculations.transfer_rows.StateForms.{Cell};
ghost use Rattle.edge_effects.specs.calculations.transfer_rows.Rows.{overwriting, overwritten, joining, written};
ghost use Rattle.edge_effects.specs.calculations.transfer_rows.Rows.{stored_cell};
ghost use Rattle.edge_effects.specs.calculations.transfer_rows.Accesses.{single_of};
ghost use Rattle.edge_actions.specs.Layouts.{is_shared_cell, is_smashed_cell};
ghost use Rattle.edge_actions.specs.Edges.{around_of};
ghost use Rattle.memory_effects.specs.reading.Changes.{kept_or};

use cell_env::CellState;
use edge_actions::{EdgeView, is_shared_cell, single_of};
use pointer_dom::AbsValue;
use state_tree::Tree;
use std::alloc::Global;
use tm_lattice::{Lattice, NoMemory};

// A cell that is overwritten: it has the value and is fresh. In a shared cell the mutexes held are pending; one of the
// task's own is stored.
fn overwritten(
    alloc: Global,
    view: &EdgeView,
    value: &AbsValue,
    cell: u32,
    entry: &CellState<AbsValue>,
) -> Result<CellState<AbsValue>, NoMemory>
    ensures { IfOk result (λ after. after ≡ overwriting (is_shared_cell (laid_tree view.now.laid.now) cell)
        view.now.held value.now entry.now) }
{
    let shared = is_shared_cell(view.laid, cell);
    Ok(CellState {
        value: value.copied(alloc)?,
        pending: if shared { view.held } else { entry.pending },
        fresh: true,
        stored: if shared { entry.stored } else { true },
    })
}

// The cells with one overwritten, if it is there.
fn with_overwritten(
    alloc: Global,
    view: &EdgeView,
    cells: &Tree<CellState<AbsValue>>,
    value: &AbsValue,
    cell: u32,
) -> Result<Tree<CellState<AbsValue>>, NoMemory>
    ensures { IfOk result (λ after. after
        ≡ changed_table (overwritten (around_of view.now) value.now cell) cells.now) }
{
    let mut after = cells.shared()?;
    let Some(entry) = cells.get(cell) else {
        return Ok(after);
    };
    let written = overwritten(alloc, view, value, cell, entry)?;
    after.put(cell, written)?;
    Ok(after)
}

// The mutexes that are pending in a cell, with those held in a shared one.
fn with_held(view: &EdgeView, cell: u32, pending: u16) -> u16
    ensures { result ≡ cond (is_shared_cell (laid_tree view.now.laid.now) cell) (bit_or pending view.now.held) pending }
{
    if is_shared_cell(view.laid, cell) {
        pending | view.held
    } else {
        pending
    }
}

// A cell that is joined with a value: None where it is as before. In a shared cell the mutexes held become pending.
fn joined(
    alloc: Global,
    view: &EdgeView,
    value: &AbsValue,
    cell: u32,
    entry: &CellState<AbsValue>,
) -> Result<Option<CellState<AbsValue>>, NoMemory>
    ensures { IfOk result (λ after. kept_or after entry.now
        ≡ joining (is_shared_cell (laid_tree view.now.laid.now) cell)
        view.now.held value.now entry.now) }
{
    // The calls tell that these are values.
    let _new = value.is_nothing();
    let _own = entry.value.is_nothing();
    let pending = with_held(view, cell, entry.pending);
    if pending == entry.pending && value.below(&entry.value) {
        return Ok(None);
    }
    Ok(Some(CellState {
        value: entry.value.join(alloc, value)?,
        pending,
        fresh: entry.fresh,
        stored: entry.stored,
    }))
}

// The cells with a value joined to one, if it is there.
fn with_one_joined(
    alloc: Global,
    view: &EdgeView,
    cells: Tree<CellState<AbsValue>>,
    value: &AbsValue,
    cell: u32,
) -> Result<Tree<CellState<AbsValue>>, NoMemory>
    ensures { IfOk result (λ after. after ≡ changed_table (λ key (c : Cell). cond (eqb key cell)
        (joining (is_shared_cell (laid_tree view.now.laid.now) key) view.now.held value.now c) c) cells) }
{
    let Some(entry) = cells.get(cell) else {
        return Ok(cells);
    };
    let Some(more) = joined(alloc, view, value, cell, entry)? else {
        return Ok(cells);
    };
    let mut after = cells;
    after.put(cell, more)?;
    Ok(after)
}

// The cells with a value joined to each of these that is there. One may be given more than once.
fn with_joined(
    alloc: Global,
    view: &EdgeView,
    cells: &Tree<CellState<AbsValue>>,
    value: &AbsValue,
    targets: &[u32],
) -> Result<Tree<CellState<AbsValue>>, NoMemory>
    ensures { IfOk result (λ after. after
        ≡ changed_table (written (around_of view.now) value.now targets.now) cells.now) }
{
    // The calls tell that these are values.
    let _new = value.is_nothing();
    let _empty = Lattice::is_nothing(cells);
    let mut after = cells.shared()?;
    for target in targets {
        after = with_one_joined(alloc, view, after, value, *target)?;
    }
    Ok(after)
}

/// The cells behind a store: a single target is overwritten, and each of several is joined with the value.
pub fn stored_cells(
    alloc: Global,
    view: &EdgeView,
    cells: &Tree<CellState<AbsValue>>,
    value: &AbsValue,
    targets: &[u32],
) -> Result<Tree<CellState<AbsValue>>, NoMemory>
    ensures { IfOk result (λ after. after ≡ changed_table (stored_cell (around_of view.now) value.now targets.now
        (single_of (is_smashed_cell (laid_tree view.now.laid.now)) targets.now)) cells.now) }
{
    match single_of(view.laid, targets) {
        None => with_joined(alloc, view, cells, value, targets),
        Some(cell) => with_overwritten(alloc, view, cells, value, cell),
    }
}
