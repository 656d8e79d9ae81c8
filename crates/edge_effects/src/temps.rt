//! Temporaries that are live where an edge leads.
ghost use Rattle.std.specs.Prelude.{◌≡◌, IfOk, Option};
ghost use Rattle.std.specs.Option.{option_map};
ghost use Rattle.std.specs.FinMap.{retain_keys, insert};
ghost use Rattle.tm_lattice.specs.Tables.{Table};
ghost use Rattle.calculations.specs.transfer_rows.StateForms.{Temp};
ghost use Rattle.calculations.specs.transfer_rows.Accesses.{is_among};
ghost use Rattle.calculations.specs.transfer_rows.Rows.{kept_copy, dropped, given, arrived};
ghost use Rattle.edge_actions.specs.Edges.{around_of};
ghost use Rattle.edge_effects.specs.Endings.{is_ended};

use cell_env::{State, TempState};
use edge_actions::{EdgeView, is_among};
use pointer_dom::AbsValue;
use std::alloc::Global;
use tm_lattice::{Keyed, Lattice, NoMemory};

/// The cells of which copies end.
#[derive(Clone, Copy)]
pub enum Ending<'a> {
    Nowhere,
    Everywhere,
    Among(&'a [u32]),
    /// So many cells, from the first on.
    Between { first: u32, count: u32 },
}

// Whether copies of a cell end.
fn is_ended(ending: &Ending, cell: u32) -> bool
    ensures { result ≡ is_ended ending.now cell }
{
    match *ending {
        Ending::Nowhere => false,
        Ending::Everywhere => true,
        Ending::Among(cells) => is_among(cells, cell),
        Ending::Between { first, count } => {
            first <= cell && u64::from(cell) < u64::from(first) + u64::from(count)
        }
    }
}

// A copy, unless it ends.
fn kept_copy(ending: &Ending, copy: Option<u32>) -> Option<u32>
    ensures { result ≡ kept_copy (is_ended ending.now) copy }
{
    match copy {
        None => None,
        Some(cell) => {
            if is_ended(ending, cell) {
                None
            } else {
                Some(cell)
            }
        }
    }
}

// A temporary, the copy of which may end.
fn kept_temp(
    alloc: Global,
    ending: &Ending,
    entry: &TempState<AbsValue>,
) -> Result<TempState<AbsValue>, NoMemory>
    ensures { IfOk result
        (λ kept. kept ≡ record entry.now { copy = kept_copy (is_ended ending.now) entry.now.copy }) }
{
    Ok(TempState {
        value: entry.value.copied(alloc)?,
        copy: kept_copy(ending, entry.copy),
    })
}

/// The temporaries of a state that are live where an edge leads, after some copies have ended.
pub fn live_temps(
    alloc: Global,
    live: &[u32],
    state: &State<AbsValue>,
    ending: &Ending,
) -> Result<Keyed<TempState<AbsValue>>, NoMemory>
    ensures { IfOk result (λ temps. temps
        ≡ retain_keys (dropped (is_ended ending.now) state.now.temps) (is_among live.now)) }
{
    let mut temps = Keyed::new(alloc);
    for temp in live {
        if let Some(entry) = state.temp(*temp) {
            let kept = kept_temp(alloc, ending, entry)?;
            temps.put(*temp, kept)?;
        }
    }
    Ok(temps)
}

/// The temporaries with one written, where it is live.
pub fn with_temp(
    live: &[u32],
    temps: Keyed<TempState<AbsValue>>,
    temp: u32,
    value: AbsValue,
    copy: Option<u32>,
) -> Result<Keyed<TempState<AbsValue>>, NoMemory>
    ensures { IfOk result (λ after. (before : Table Temp) → temps ≡ retain_keys before (is_among live.now)
        → after ≡ retain_keys (insert before temp record { value = value; copy = copy }) (is_among live.now)) }
{
    let mut temps = temps;
    if is_among(live, temp) {
        temps.put(temp, TempState { value, copy })?;
    }
    Ok(temps)
}

/// The state where the edge leads, if it has these temporaries and the cells of this one.
pub fn with_temps(
    state: &State<AbsValue>,
    temps: Keyed<TempState<AbsValue>>,
) -> Result<State<AbsValue>, NoMemory>
    ensures { IfOk result (λ after. after ≡ record { temps = temps; cells = state.now.cells }) }
{
    let cells = state.cells().shared()?;
    Ok(State::new(temps, cells))
}

/// The state with a temporary given, which ends the copy that it was; none where nothing is given.
pub fn given_state(
    alloc: Global,
    view: &EdgeView,
    state: &State<AbsValue>,
    target: u32,
    value: AbsValue,
    copy: Option<u32>,
) -> Result<Option<State<AbsValue>>, NoMemory>
    ensures { IfOk result
        (λ after. after ≡ option_map (arrived (around_of view.now)) (given state.now target value copy)) }
{
    if value.is_nothing() {
        return Ok(None);
    }
    let kept = live_temps(alloc, view.live, state, &Ending::Nowhere)?;
    let temps = with_temp(view.live, kept, target, value, copy)?;
    let after = with_temps(state, temps)?;
    Ok(Some(after))
}

/// The state where the edge leads, if the edge changes nothing.
pub fn arrived_state(
    alloc: Global,
    view: &EdgeView,
    state: &State<AbsValue>,
) -> Result<State<AbsValue>, NoMemory>
    ensures { IfOk result (λ after. after ≡ arrived (around_of view.now) state.now) }
{
    let kept = live_temps(alloc, view.live, state, &Ending::Nowhere)?;
    let after = with_temps(state, kept)?;
    Ok(after)
}
