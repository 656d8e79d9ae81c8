//! What an edge does.
ghost use Rattle.std.specs.Prelude.{IfOk, MatchOption};
ghost use Rattle.memory_effects.specs.edge_actions.Edges.{around_of, action_at};
ghost use Rattle.memory_effects.specs.edge_effects.Effects.{IsAfter};
ghost use Rattle.transfer_mem.specs.Applicable.{IsApplicable};
ghost use Rattle.transfer_mem.specs.reading.Givings.{IsAccess, IsControl};

use crate::giving::calculated;
use cell_env::State;
use edge_filters::{refine, usable};
use flow_graph::Operation;
use interfere_set::Store;
use memory_effects::{
    After, EdgeView, clear, give, load, load_any, lock, probe, skip, store as stored, unlock,
    yields,
};
use pointer_dom::AbsValue;
use std::alloc::Global;
use tm_lattice::NoMemory;

// What an edge does that reaches cells; none of any other.
fn accessed(
    alloc: Global,
    view: &EdgeView,
    state: &State<AbsValue>,
    store: &Store,
) -> Result<Option<After>, NoMemory>
    requires { IsApplicable view.now state.now store.now }
    ensures { IfOk result (λ given. MatchOption given (IsAccess view.now.operation → ⊥)
        (λ after. IsAfter (around_of view.now) (action_at view.now) state.now store.now after)) }
{
    match view.operation {
        Operation::Load {
            to,
            address,
            scalar,
            ..
        } => {
            let after = load(alloc, view, state, store, to, address, scalar)?;
            Ok(Some(after))
        }
        Operation::LoadAny {
            to,
            address,
            scalar,
            ..
        } => {
            let after = load_any(alloc, view, state, to, address, scalar)?;
            Ok(Some(after))
        }
        Operation::Store {
            address,
            value,
            scalar,
            ..
        } => {
            let after = stored(alloc, view, state, address, value, scalar)?;
            Ok(Some(after))
        }
        Operation::Clear { object } => {
            let after = clear(alloc, view, state, object)?;
            Ok(Some(after))
        }
        _ => Ok(None),
    }
}

// What an edge does that neither gives a temporary by a calculation nor reaches cells; none of any other.
fn controlled(
    alloc: Global,
    view: &EdgeView,
    state: &State<AbsValue>,
    store: &Store,
) -> Result<Option<After>, NoMemory>
    requires { IsApplicable view.now state.now store.now }
    ensures { IfOk result (λ given. MatchOption given (IsControl view.now.operation → ⊥)
        (λ after. IsAfter (around_of view.now) (action_at view.now) state.now store.now after)) }
{
    match view.operation {
        Operation::Skip => {
            let after = skip(alloc, view, state)?;
            Ok(Some(after))
        }
        Operation::Usable { pointer, .. } => {
            let after = usable(alloc, view, state, pointer)?;
            Ok(Some(after))
        }
        Operation::Assume { test } => {
            let after = refine(alloc, view, state, test)?;
            Ok(Some(after))
        }
        Operation::Lock { mutex, .. } => {
            let after = lock(alloc, view, state, store, mutex)?;
            Ok(Some(after))
        }
        Operation::Unlock { mutex, .. } => {
            let after = unlock(alloc, view, state, mutex)?;
            Ok(Some(after))
        }
        Operation::Yield => {
            let after = yields(alloc, view, state)?;
            Ok(Some(after))
        }
        Operation::Probe { to, mutex, .. } => {
            let after = probe(alloc, view, state, store, mutex, to)?;
            Ok(Some(after))
        }
        _ => Ok(None),
    }
}

/// What an edge does to the state of its task, over what the other tasks wrote: the state where it leads, none where
/// control does not go on; what it adds to the store; the abstract cells that it reaches, and the classes of errors
/// that it does not exclude. Condition: the task and the writers of the store have priorities, the layout has the form
/// and the limits of one, and the temporaries that the operation uses have values that it is made for.
pub fn apply(
    alloc: Global,
    view: &EdgeView,
    state: &State<AbsValue>,
    store: &Store,
) -> Result<After, NoMemory>
    requires { IsApplicable view.now state.now store.now }
    ensures { IfOk result
        (λ after. IsAfter (around_of view.now) (action_at view.now) state.now store.now after) }
{
    let given = calculated(alloc, view, state)?;
    if let Some(given) = given {
        return give(alloc, view, state, given.to, given.calculated);
    }
    let accessed = accessed(alloc, view, state, store)?;
    if let Some(after) = accessed {
        return Ok(after);
    }
    let controlled = controlled(alloc, view, state, store)?;
    match controlled {
        Some(after) => Ok(after),
        None => unreachable!(),
    }
}
