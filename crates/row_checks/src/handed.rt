//! Where a store hands something over under a mutex.
ghost use Rattle.std.specs.Prelude.{◌≡◌};
ghost use Rattle.std.specs.List.{list_all};
ghost use Rattle.std.specs.Option.{option_copied};
ghost use Rattle.tm_laid.specs.Layouts.{laid_tree};
ghost use Rattle.row_checks.specs.Passing.{is_shared_in, are_cells_in, is_left_in, is_handed_in};

use cell_placings::CellSet;
use edge_actions::is_shared_cell;
use interfere_set::Store;
use pointer_dom::AbsValue;
use tm_laid::Laid;
use tm_lattice::Keyed;

// Whether those of the cells that are shared are in the set.
fn are_shared_in(laid: &Laid, set: &CellSet, cells: &[(u32, AbsValue)]) -> bool
    ensures { result ≡ list_all (is_shared_in (laid_tree laid.now) set.now) cells.now }
{
    for (cell, _) in cells {
        if is_shared_cell(laid, *cell) && !set.has(*cell as usize) {
            return false;
        }
    }
    true
}

// Whether those of the cells of a table that are shared are in the set, if there is one.
fn are_cells_in(laid: &Laid, set: &CellSet, cells: Option<&Keyed<AbsValue>>) -> bool
    ensures { result ≡ are_cells_in (laid_tree laid.now) set.now (option_copied cells.entry) }
{
    match cells {
        None => true,
        Some(cells) => are_shared_in(laid, set, cells.entries()),
    }
}

// Whether the shared cells in which the tasks of these entries left something under a mutex, one task apart, are in the
// set.
fn are_left_in(
    laid: &Laid,
    set: &CellSet,
    task: u32,
    mutex: u32,
    entries: &[(u32, Keyed<Keyed<AbsValue>>)],
) -> bool
    ensures { result ≡ list_all (is_left_in (laid_tree laid.now) set.now task mutex) entries.now }
{
    for (other, left) in entries {
        if *other != task && !are_cells_in(laid, set, left.get(mutex)) {
            return false;
        }
    }
    true
}

/// Whether the shared cells in which other tasks left something under a mutex are in the set.
pub(crate) fn is_handed_in(laid: &Laid, set: &CellSet, task: u32, mutex: u32, store: &Store) -> bool
    ensures { result ≡ is_handed_in (laid_tree laid.now) set.now task mutex store.now }
{
    are_left_in(laid, set, task, mutex, store.sync().entries())
}
