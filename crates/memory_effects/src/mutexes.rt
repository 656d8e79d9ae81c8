//! Edges that lock, unlock, wait, and ask whether a mutex is held.
ghost use Rattle.std.specs.Prelude.{◌≡◌, ◌<◌, ◌-◌, ◌^◌, IfOk};
ghost use Rattle.pointer_dom.specs.Values.{Values};
ghost use Rattle.interfere_set.specs.Stores.{Interferences};
ghost use Rattle.edge_effects.specs.calculations.transfer_rows.Actions.{locks, unlocks, yields, probes};
ghost use Rattle.edge_effects.specs.calculations.transfer_rows.Rows.{holds, arrived, after_lock, after_unlock};
ghost use Rattle.edge_effects.specs.calculations.transfer_rows.Rows.{after_yield};
ghost use Rattle.edge_effects.specs.calculations.transfer_rows.Rows.{after_free};
ghost use Rattle.edge_actions.specs.Edges.{around_of};
ghost use Rattle.edge_effects.specs.Effects.{IsAfter};
ghost use Rattle.edge_effects.specs.calculations.Given.{no_class};

use crate::changes::{Change, changed_cells};
use crate::contributions::{has_mutex, left_cells, nested_under};
use cell_env::State;
use edge_actions::{EdgeView, Targets};
use edge_effects::{After, Ending, given_state, live_temps, no_classes, plain, with_temp};
use interfere_set::Store;
use pointer_dom::AbsValue;
use std::alloc::Global;
use strided_dom::Strided;
use tm_lattice::{Keyed, NoMemory};
use transfer_int::Classes;

// The class of errors with mutexes, or none.
fn lock_class(lock: bool) -> Classes
    ensures { result ≡ record no_class { lock = lock } }
{
    let mut classes = no_classes();
    classes.lock = lock;
    classes
}

// The state behind a lock of a mutex that the task does not hold.
fn locked(
    alloc: Global,
    view: &EdgeView,
    state: &State<AbsValue>,
    store: &Store,
    mutex: u32,
) -> Result<State<AbsValue>, NoMemory>
    ensures { IfOk result (λ after. after
        ≡ arrived (around_of view.now) (after_lock (around_of view.now) state.now store.now mutex)) }
{
    let temps = live_temps(alloc, view.live, state, &Ending::Everywhere)?;
    let change = Change::TakeWaiting { store, mutex };
    let cells = changed_cells(alloc, view, state.cells(), &change)?;
    Ok(State::new(temps, cells))
}

/// An edge that locks a mutex. Where the task holds it, control does not go on, and that is an error; else what the
/// others left under the mutex is joined to the shared cells, no cell is fresh, and copies end.
pub fn lock(
    alloc: Global,
    view: &EdgeView,
    state: &State<AbsValue>,
    store: &Store,
    mutex: u32,
) -> Result<After, NoMemory>
    requires { mutex < 16 }
    ensures { IfOk result
        (λ after. IsAfter (around_of view.now) (locks mutex) state.now store.now after) }
{
    if has_mutex(view.held, mutex) {
        return Ok(plain(alloc, None, lock_class(true)));
    }
    let after = locked(alloc, view, state, store, mutex)?;
    Ok(plain(alloc, Some(after), lock_class(false)))
}

// All mutexes but one, as bits.
fn all_but(mutex: u32) -> u16
    requires { mutex < 16 }
    ensures { result ≡ 65535 - 2 ^ mutex }
{
    65535 - (1 << mutex)
}

// The state behind an unlock of a mutex that the task holds.
fn unlocked(
    alloc: Global,
    view: &EdgeView,
    state: &State<AbsValue>,
    mutex: u32,
) -> Result<State<AbsValue>, NoMemory>
    requires { mutex < 16 }
    ensures { IfOk result (λ after. after ≡ arrived (around_of view.now) (after_unlock state.now mutex)) }
{
    let temps = live_temps(alloc, view.live, state, &Ending::Nowhere)?;
    let change = Change::Keep(all_but(mutex));
    let cells = changed_cells(alloc, view, state.cells(), &change)?;
    Ok(State::new(temps, cells))
}

/// An edge that unlocks a mutex. Where the task does not hold it, control does not go on, and that is an error; else
/// the mutex is pending nowhere behind it, and what shared cells hold at which it was is added for those who lock it.
pub fn unlock(
    alloc: Global,
    view: &EdgeView,
    state: &State<AbsValue>,
    mutex: u32,
) -> Result<After, NoMemory>
    requires { mutex < 16 }
    ensures { IfOk result (λ after. (store : Interferences)
        → IsAfter (around_of view.now) (unlocks mutex) state.now store after) }
{
    if !has_mutex(view.held, mutex) {
        return Ok(plain(alloc, None, lock_class(true)));
    }
    let left = left_cells(alloc, view, state.cells(), mutex)?;
    let sync = nested_under(alloc, view.task, mutex, left)?;
    let after = unlocked(alloc, view, state, mutex)?;
    Ok(After {
        state: Some(after),
        added: Store::from_parts(Keyed::new(alloc), sync),
        classes: lock_class(false),
        targets: Targets::new(alloc),
    })
}

/// An edge at which the task waits: no cell is fresh behind it.
pub fn yields(alloc: Global, view: &EdgeView, state: &State<AbsValue>) -> Result<After, NoMemory>
    ensures { IfOk result (λ after. (store : Interferences)
        → IsAfter (around_of view.now) yields state.now store after) }
{
    let temps = live_temps(alloc, view.live, state, &Ending::Nowhere)?;
    let cells = changed_cells(alloc, view, state.cells(), &Change::Wait)?;
    Ok(plain(alloc, Some(State::new(temps, cells)), no_classes()))
}

// The state behind a probe that finds a mutex free.
fn found_free(
    alloc: Global,
    view: &EdgeView,
    state: &State<AbsValue>,
    store: &Store,
    mutex: u32,
    target: u32,
) -> Result<State<AbsValue>, NoMemory>
    ensures { IfOk result (λ after. after
        ≡ arrived (around_of view.now) (after_free (around_of view.now) state.now store.now mutex target)) }
{
    let kept = live_temps(alloc, view.live, state, &Ending::Everywhere)?;
    let zero = AbsValue::from_numbers(Strided::one(0));
    let temps = with_temp(view.live, kept, target, zero, None)?;
    let change = Change::Take { store, mutex };
    let cells = changed_cells(alloc, view, state.cells(), &change)?;
    Ok(State::new(temps, cells))
}

/// The copy of an edge that asks whether a mutex is held, for the answer of the view. Where some task holds it, 1 is
/// given and nothing else changes. Where none does, 0 is given, what the others left under the mutex is joined to the
/// shared cells, which stay fresh, and copies end; control does not go on there if the task holds it itself.
pub fn probe(
    alloc: Global,
    view: &EdgeView,
    state: &State<AbsValue>,
    store: &Store,
    mutex: u32,
    target: u32,
) -> Result<After, NoMemory>
    requires { mutex < 16 }
    ensures { IfOk result (λ after. IsAfter (around_of view.now) (probes mutex target view.now.answer) state.now
        store.now after) }
{
    if view.answer {
        let one = AbsValue::from_numbers(Strided::one(1));
        let given = given_state(alloc, view, state, target, one, None)?;
        return Ok(plain(alloc, given, no_classes()));
    }
    if has_mutex(view.held, mutex) {
        return Ok(plain(alloc, None, no_classes()));
    }
    let after = found_free(alloc, view, state, store, mutex, target)?;
    Ok(plain(alloc, Some(after), no_classes()))
}
