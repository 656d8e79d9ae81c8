//! Edges that clear an object.
ghost use Rattle.std.specs.Prelude.{◌≡◌, IfOk};
ghost use Rattle.tm_laid.specs.Layouts.{laid_tree};
ghost use Rattle.interfere_set.specs.Stores.{Interferences};
ghost use Rattle.edge_effects.specs.calculations.transfer_rows.Actions.{clears};
ghost use Rattle.edge_actions.specs.Edges.{around_of, cleared_value};
ghost use Rattle.edge_effects.specs.Effects.{IsAfter};

use crate::changes::{Change, changed_cells};
use cell_env::State;
use edge_actions::EdgeView;
use edge_effects::{After, Ending, live_temps, no_classes, plain};
use pointer_dom::AbsValue;
use std::alloc::Global;
use tm_laid::object_at;
use tm_lattice::NoMemory;

/// An edge that clears an object: its cells become open, as they are before the first store, and copies of them end.
/// Cells of other objects are as before.
pub fn clear(
    alloc: Global,
    view: &EdgeView,
    state: &State<AbsValue>,
    object: u32,
) -> Result<After, NoMemory>
    ensures { IfOk result (λ after. (store : Interferences) → IsAfter (around_of view.now)
        (clears (cleared_value (laid_tree view.now.laid.now) object)) state.now store after) }
{
    let place = object_at(view.laid, object);
    let ending = Ending::Between {
        first: place.first_abstract,
        count: place.abstract_cells,
    };
    let temps = live_temps(alloc, view.live, state, &ending)?;
    let cells = changed_cells(alloc, view, state.cells(), &Change::Open(object))?;
    Ok(plain(alloc, Some(State::new(temps, cells)), no_classes()))
}
