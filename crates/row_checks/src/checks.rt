//! The check of an edge where it was applied.
ghost use Rattle.std.specs.Prelude.{◌≡◌, ◌-◌, ◌^◌, IsTrue};
ghost use Rattle.std.specs.List.{list_all};
ghost use Rattle.tm_laid.specs.Layouts.{laid_tree};
ghost use Rattle.edge_actions.specs.Edges.{around_of, action_at};
ghost use Rattle.edge_effects.specs.Effects.{IsAfter};
ghost use Rattle.sparse_rows.specs.transfer_rows.StateForms.{State};
ghost use Rattle.sparse_rows.specs.Checks.{IsChecked};
ghost use Rattle.cell_placings.specs.CellLists.{is_in};
ghost use Rattle.row_checks.specs.TracedCells.{may_copy, may_be_fresh, may_pend};
ghost use Rattle.row_checks.specs.Passing.{are_in, are_copies_in, is_loaded_in, is_pending_in, is_stored_in};
ghost use Rattle.row_checks.specs.Passing.{is_cleared_in, is_tested_in, is_locked_in, is_unlocked_in, is_probed_in, passes};

use crate::handed::is_handed_in;
use crate::traces::{Traces, copies_of, may_copy, may_pend};
use cell_placings::CellSet;
use edge_actions::{EdgeView, is_shared_cell};
use edge_effects::After;
use flow_graph::{Operation, Test};
use interfere_set::Store;
use tm_laid::{Laid, object_at};

// Whether all of these cells are in the set.
fn are_in(set: &CellSet, cells: &[usize]) -> bool
    ensures { result ≡ are_in set.now cells.now }
{
    for cell in cells {
        if !set.has(*cell) {
            return false;
        }
    }
    true
}

// Whether a load looks at no targets but those that it may, and gives a copy of none but those of which it may.
fn are_loaded_in(looked: &CellSet, traces: &Traces, temp: u32, targets: &[u32]) -> bool
    ensures { result ≡ list_all (is_loaded_in looked.now traces.now temp) targets.now }
{
    for target in targets {
        if !looked.has(*target as usize) || !may_copy(traces, temp, *target) {
            return false;
        }
    }
    true
}

// Whether mutexes may be pending at a cell, if it is shared.
fn is_pending_in(laid: &Laid, traces: &Traces, held: u16, cell: u32) -> bool
    ensures { result ≡ is_pending_in (laid_tree laid.now) traces.now held cell }
{
    if !is_shared_cell(laid, cell) {
        return true;
    }
    let mutexes = may_pend(traces, cell);
    held | mutexes == mutexes
}

// Whether a store touches no targets but those that it may, and makes none fresh but those that may be, and no mutex
// pending but where it may be.
fn are_stored_in(
    laid: &Laid,
    touched: &CellSet,
    traces: &Traces,
    held: u16,
    targets: &[u32],
) -> bool
    ensures { result ≡ list_all (is_stored_in (laid_tree laid.now) touched.now traces.now held) targets.now }
{
    for target in targets {
        let cell = *target as usize;
        if !touched.has(cell) || !traces.fresh.has(cell) {
            return false;
        }
        if !is_pending_in(laid, traces, held, *target) {
            return false;
        }
    }
    true
}

// Whether the cells of an object are in the set.
fn is_cleared_in(laid: &Laid, touched: &CellSet, object: u32) -> bool
    ensures { result ≡ is_cleared_in (laid_tree laid.now) touched.now object }
{
    let cleared = object_at(laid, object);
    for place in 0..cleared.abstract_cells {
        if !touched.has(cleared.first_abstract as usize + place as usize) {
            return false;
        }
    }
    true
}

// Whether the cells of which a temporary may be a copy are in the set.
fn are_copies_in(touched: &CellSet, traces: &Traces, temp: u32) -> bool
    ensures { result ≡ are_copies_in touched.now traces.now temp }
{
    are_in(touched, copies_of(traces, temp))
}

// Whether the cells of which temporaries that are tested may be copies are in the set.
fn is_tested_in(touched: &CellSet, traces: &Traces, test: Test) -> bool
    ensures { result ≡ is_tested_in touched.now traces.now test }
{
    match test {
        Test::Numbers { left, right, .. } | Test::Pointers { left, right, .. } => {
            are_copies_in(touched, traces, left) && are_copies_in(touched, traces, right)
        }
        Test::Truth { value, .. } | Test::Case { value, .. } => {
            are_copies_in(touched, traces, value)
        }
    }
}

// Whether the cells that may be fresh are in the set, and those in which other tasks left something under a mutex.
fn is_locked_in(
    laid: &Laid,
    set: &CellSet,
    traces: &Traces,
    task: u32,
    mutex: u32,
    store: &Store,
) -> bool
    ensures { result ≡ is_locked_in (laid_tree laid.now) set.now traces.now task mutex store.now }
{
    are_in(set, traces.fresh.cells()) && is_handed_in(laid, set, task, mutex, store)
}

// Whether the cells in which other tasks left something under a mutex are in the set, where it is found free.
fn is_probed_in(
    laid: &Laid,
    set: &CellSet,
    answer: bool,
    task: u32,
    mutex: u32,
    store: &Store,
) -> bool
    ensures { result ≡ is_probed_in (laid_tree laid.now) set.now answer task mutex store.now }
{
    answer || is_handed_in(laid, set, task, mutex, store)
}

/// All mutexes but one, as bits.
pub(crate) fn all_but(mutex: u32) -> u16
    ensures { result ≡ 65535 - 2 ^ mutex }
{
    if mutex < 16 { 65535 - (1 << mutex) } else { 0 }
}

// Whether the cells at which a mutex may be pending are in the set.
fn is_unlocked_in(set: &CellSet, traces: &Traces, mutex: u32) -> bool
    ensures { result ≡ is_unlocked_in set.now traces.now.pending.items mutex }
{
    let others = all_but(mutex);
    for cell in 0..traces.pending.len() {
        let mutexes = traces.pending[cell];
        if mutexes & others != mutexes && !set.has(cell) {
            return false;
        }
    }
    true
}

// Whether an edge that reaches these targets looks at, touches and changes one by one no cells but those that it may.
fn passes(
    view: &EdgeView,
    touched: &CellSet,
    carried: &CellSet,
    looked: &CellSet,
    traces: &Traces,
    targets: &[u32],
    store: &Store,
) -> bool
    ensures { result ≡ passes view.now touched.now carried.now looked.now traces.now targets.now store.now }
{
    match view.operation {
        Operation::Load { to, .. } => are_loaded_in(looked, traces, to, targets),
        Operation::Store { .. } => are_stored_in(view.laid, touched, traces, view.held, targets),
        Operation::Clear { object } => is_cleared_in(view.laid, touched, object),
        Operation::Usable { pointer, .. } => are_copies_in(touched, traces, pointer),
        Operation::Assume { test } => is_tested_in(touched, traces, test),
        Operation::Lock { mutex, .. } => {
            is_locked_in(view.laid, carried, traces, view.task, mutex, store)
        }
        Operation::Unlock { mutex, .. } => is_unlocked_in(carried, traces, mutex),
        Operation::Yield => are_in(carried, traces.fresh.cells()),
        Operation::Probe { mutex, .. } => {
            is_probed_in(view.laid, carried, view.answer, view.task, mutex, store)
        }
        _ => true,
    }
}

/// Whether an edge, applied with this outcome over a store, looked at, touched and changed one by one no cells but those
/// that it may, and made no copies, fresh cells and pending mutexes but those that there may be: what a lock, an unlock,
/// a wait or a probe changes, it may carry, and what another operation changes, it may touch. It takes no memory, and
/// time linear in the cells reached, the lists that it reads and the entries of the store under the mutex, times a
/// logarithm for each cell that it looks for.
pub fn is_checked(
    view: &EdgeView,
    touched: &CellSet,
    carried: &CellSet,
    looked: &CellSet,
    traces: &Traces,
    after: &After,
    store: &Store,
) -> bool
    ensures decides { result ≡
        passes view.now touched.now carried.now looked.now traces.now after.now.targets.items store.now }
    ensures checks { IsTrue result → (s : State) → IsAfter (around_of view.now) (action_at view.now) s store.now after.now
        → IsChecked (around_of view.now) (is_in touched.now) (is_in carried.now) (is_in looked.now)
        (may_copy traces.now) (may_be_fresh traces.now) (may_pend traces.now) (action_at view.now) s store.now }
{
    passes(
        view,
        touched,
        carried,
        looked,
        traces,
        after.targets.as_slice(),
        store,
    )
}
