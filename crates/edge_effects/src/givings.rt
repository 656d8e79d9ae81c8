//! Edges that give a temporary without a look at memory.
ghost use Rattle.std.specs.Prelude.{◌≡◌, IfOk};
ghost use Rattle.tm_laid.specs.Layouts.{laid_tree};
ghost use Rattle.interfere_set.specs.Stores.{Interferences};
ghost use Rattle.calculations.specs.transfer_rows.Actions.{Calculation, gives, skips};
ghost use Rattle.calculations.specs.Given.{IsCalculated};
ghost use Rattle.edge_actions.specs.Edges.{around_of, pointer_value, pointer_within};
ghost use Rattle.edge_effects.specs.Effects.{IsAfter};

use crate::temps::{arrived_state, given_state};
use crate::views::{After, plain};
use calculations::{Calculated, no_classes};
use cell_env::State;
use concrete_values::Pointer;
use edge_actions::EdgeView;
use pointer_dom::{AbsValue, PointerSet};
use std::alloc::Global;
use tm_laid::{Laid, object_at};
use tm_lattice::NoMemory;

/// An edge that does nothing.
pub fn skip(alloc: Global, view: &EdgeView, state: &State<AbsValue>) -> Result<After, NoMemory>
    ensures { IfOk result (λ after. (store : Interferences)
        → IsAfter (around_of view.now) skips state.now store after) }
{
    let arrived = arrived_state(alloc, view, state)?;
    Ok(plain(alloc, Some(arrived), no_classes()))
}

/// An edge that gives what is calculated.
pub fn give(
    alloc: Global,
    view: &EdgeView,
    state: &State<AbsValue>,
    target: u32,
    calculated: Calculated,
) -> Result<After, NoMemory>
    ensures { IfOk result (λ after. (calculation : Calculation) (store : Interferences)
        → IsCalculated calculation state.now calculated
        → IsAfter (around_of view.now) (gives target calculation) state.now store after) }
{
    let given = given_state(alloc, view, state, target, calculated.value, None)?;
    Ok(plain(alloc, given, calculated.classes))
}

// The pointer to an object of this size; none beyond its end.
fn pointer_within(
    alloc: Global,
    object: u32,
    size: u32,
    offset: u32,
) -> Result<PointerSet, NoMemory>
    ensures { IfOk result (λ set. set ≡ pointer_within object size offset) }
{
    if offset <= size {
        PointerSet::to(alloc, object, size, offset)
    } else {
        Ok(PointerSet::new(alloc))
    }
}

/// A pointer as a set of pointers.
pub fn pointer_value(alloc: Global, laid: &Laid, pointer: Pointer) -> Result<PointerSet, NoMemory>
    ensures { IfOk result (λ set. set ≡ pointer_value (laid_tree laid.now) pointer) }
{
    match pointer {
        Pointer::Null => Ok(PointerSet::null(alloc)),
        Pointer::Invalid => Ok(PointerSet::invalid(alloc)),
        Pointer::To { object, offset } => {
            pointer_within(alloc, object, object_at(laid, object).cells, offset)
        }
    }
}
