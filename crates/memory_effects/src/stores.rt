//! Edges that store.
ghost use Rattle.std.specs.Prelude.{◌≡◌, IfOk};
ghost use Rattle.std.specs.Option.{option_map};
ghost use Rattle.tm_laid.specs.Layouts.{laid_tree};
ghost use Rattle.interfere_set.specs.Stores.{Interferences};
ghost use Rattle.edge_effects.specs.calculations.transfer_rows.Actions.{stores};
ghost use Rattle.edge_effects.specs.calculations.transfer_rows.Rows.{after_store, arrived};
ghost use Rattle.edge_actions.specs.Layouts.{spots_of};
ghost use Rattle.edge_actions.specs.Edges.{around_of};
ghost use Rattle.edge_effects.specs.Effects.{IsAfter};

use crate::contributions::{nested_under, written_cells};
use crate::writes::stored_cells;
use cell_env::State;
use edge_actions::EdgeView;
use edge_effects::{After, Ending, live_temps, no_classes, reached, value_of};
use interfere_set::Store;
use pointer_dom::AbsValue;
use std::alloc::Global;
use tm_lattice::{Keyed, NoMemory};
use tm_typed::Scalar;

// The state behind a store: copies of its targets end. None where it has none.
fn stored(
    alloc: Global,
    view: &EdgeView,
    state: &State<AbsValue>,
    value: &AbsValue,
    targets: &[u32],
) -> Result<Option<State<AbsValue>>, NoMemory>
    ensures { IfOk result (λ after. after ≡ option_map (arrived (around_of view.now))
        (after_store (around_of view.now) state.now value.now targets.now)) }
{
    match targets {
        [] => Ok(None),
        _ => {
            let temps = live_temps(alloc, view.live, state, &Ending::Among(targets))?;
            let cells = stored_cells(alloc, view, state.cells(), value, targets)?;
            Ok(Some(State::new(temps, cells)))
        }
    }
}

/// An edge that stores: a single target becomes the value, and each of several is joined with it; copies of targets
/// end; and the value is added for the other tasks at each shared target, under the mutexes held.
pub fn store(
    alloc: Global,
    view: &EdgeView,
    state: &State<AbsValue>,
    address: u32,
    source: u32,
    scalar: Scalar,
) -> Result<After, NoMemory>
    ensures { IfOk result (λ after. (store : Interferences) → IsAfter (around_of view.now)
        (stores (spots_of (laid_tree view.now.laid.now) view.now.task scalar) address source) state.now store after) }
{
    let targets = reached(alloc, view, state, address, scalar)?;
    let value = value_of(alloc, state, source)?;
    let cells = targets.as_slice();
    let written = written_cells(alloc, view, &value, cells)?;
    let weak = nested_under(alloc, view.task, u32::from(view.held), written)?;
    let after = stored(alloc, view, state, &value, cells)?;
    Ok(After {
        state: after,
        added: Store::from_parts(weak, Keyed::new(alloc)),
        classes: no_classes(),
        targets,
    })
}
