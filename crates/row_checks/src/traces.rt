//! Of which cells temporaries may be copies, which cells may be fresh, and where mutexes may be pending.
ghost use Rattle.std.specs.Prelude.{◌≡◌, ◌↔◌, ℕ, IsTrue};
ghost use Rattle.std.specs.List.{list_all};
ghost use Rattle.std.specs.FinMap.{get};
ghost use Rattle.cell_placings.specs.CellLists.{cells_at};
ghost use Rattle.sparse_rows.specs.Traces.{AreCopies, IsFreshAt, IsPendingAt};
ghost use Rattle.row_checks.specs.TracedCells.{may_copy, may_be_fresh, may_pend};
ghost use Rattle.row_checks.specs.reading.Copies.{is_copy_in, is_entry_traced};

use cell_env::{CellState, TempState};
use cell_placings::CellSet;
use pointer_dom::AbsValue;
use tm_lattice::Keyed;

/// What there may be in the states of a body, whichever way its edges are taken.
#[derive(Drop)]
pub struct Traces {
    /// For each temporary the cells of which it may be a copy. One for which no set stands is no copy.
    pub copies: Vec<CellSet>,
    /// The cells that may be fresh.
    pub fresh: CellSet,
    /// For each cell the mutexes that may be pending there, as bits. At one for which none stand none is pending.
    pub pending: Vec<u16>,
}

/// The cells of which a temporary may be a copy, in rising order.
pub(crate) fn copies_of(traces: &Traces, temp: u32) -> &[usize]
    ensures { result.now ≡ cells_at traces.now.copies.items temp }
{
    match traces.copies.get(temp as usize) {
        None => &[],
        Some(set) => set.cells(),
    }
}

/// Whether a temporary may be a copy of a cell.
pub(crate) fn may_copy(traces: &Traces, temp: u32, cell: u32) -> bool
    ensures { result ≡ may_copy traces.now temp cell }
{
    match traces.copies.get(temp as usize) {
        None => false,
        Some(set) => set.has(cell as usize),
    }
}

/// The mutexes that may be pending at a cell.
pub(crate) fn may_pend(traces: &Traces, cell: u32) -> u16
    ensures { result ≡ may_pend traces.now cell }
{
    match traces.pending.get(cell as usize) {
        None => 0,
        Some(mutexes) => *mutexes,
    }
}

// Whether a temporary is a copy of no cell but those of which it may be one.
fn is_entry_traced(traces: &Traces, temp: u32, entry: &TempState<AbsValue>) -> bool
    ensures { result ≡ is_copy_in (may_copy traces.now temp) entry.now.copy }
{
    match entry.copy {
        None => true,
        Some(cell) => may_copy(traces, temp, cell),
    }
}

// Whether the temporaries of these entries are copies of no cells but those of which they may be copies.
fn are_entries_traced(traces: &Traces, entries: &[(u32, TempState<AbsValue>)]) -> bool
    ensures { result ≡ list_all (is_entry_traced traces.now) entries.now }
{
    for (temp, entry) in entries {
        if !is_entry_traced(traces, *temp, entry) {
            return false;
        }
    }
    true
}

/// Whether the temporaries of a front are copies of no cells but those of which they may be copies.
pub fn is_traced(traces: &Traces, front: &Keyed<TempState<AbsValue>>) -> bool
    ensures { IsTrue result ↔ ((u : ℕ)
        → AreCopies (may_copy traces.now) (may_be_fresh traces.now) (may_pend traces.now) u (get front.now u)) }
{
    are_entries_traced(traces, front.entries())
}

/// Whether a cell in this state is fresh only where it may be, and no mutex is pending there but those that may be.
pub fn is_cell_traced(traces: &Traces, cell: u32, state: &CellState<AbsValue>) -> bool
    ensures { IsTrue result ↔
        (IsFreshAt (may_copy traces.now) (may_be_fresh traces.now) (may_pend traces.now) cell (Some state.now)
        × IsPendingAt (may_copy traces.now) (may_be_fresh traces.now) (may_pend traces.now) cell (Some state.now)) }
{
    if state.fresh && !traces.fresh.has(cell as usize) {
        return false;
    }
    let mutexes = may_pend(traces, cell);
    state.pending | mutexes == mutexes
}
