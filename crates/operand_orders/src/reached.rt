//! The cells that edges load and store.
ghost use Rattle.std.specs.Prelude.{◌≡◌, ◌↔◌, ◌⊎◌, Contains, IfOk, OnOk, IsTrue};
ghost use Rattle.operand_orders.specs.declared.pairs.Pair.{Pair as APair};
ghost use Rattle.operand_orders.specs.Reached.{targets};
ghost use Rattle.operand_orders.specs.Order.{IsInitialising};
ghost use Rattle.operand_orders.specs.reading.Touches.{load_of, store_of, access_of, HasTarget, HasTargetAt, Reaches};
ghost use Rattle.operand_orders.specs.reading.Views.{solved, IsIndexed};

use crate::lists::small;
use crate::pairs::Pair;
use crate::views::BodyView;
use cell_env::State;
use flow_graph::Operation;
use path_origins::Form;
use pointer_dom::AbsValue;
use tm_lattice::NoMemory;
use tm_typed::Scalar;

/// An access by an address to a cell of a type.
#[derive(Clone, Copy)]
struct Access {
    address: u32,
    scalar: Scalar,
}

// The access of a load.
#[tactic(auto, unfolding(crate::specs::reading::Touches::load_of))]
fn load_of(operation: Operation) -> Option<Access>
    ensures { result ≡ load_of operation }
{
    match operation {
        Operation::Load {
            address,
            scalar,
            ..
        }
        | Operation::LoadAny {
            address,
            scalar,
            ..
        } => Some(Access { address, scalar }),
        _ => None,
    }
}

// The access of a store.
#[tactic(auto, unfolding(crate::specs::reading::Touches::store_of))]
fn store_of(operation: Operation) -> Option<Access>
    ensures { result ≡ store_of operation }
{
    match operation {
        Operation::Store {
            address,
            scalar,
            ..
        } => Some(Access { address, scalar }),
        _ => None,
    }
}

// The access of a store, or of a load.
fn access_of(operation: Operation, stores: bool) -> Option<Access>
    ensures { result ≡ access_of stores operation }
{
    if stores {
        store_of(operation)
    } else {
        load_of(operation)
    }
}

// Adds that an edge reaches these cells.
fn add_cells(edge: u32, cells: &[u32], pairs: &mut Vec<Pair>) -> Result<(), NoMemory>
    ensures { OnOk result ((p : APair) → Contains pairs.new.items p
        ↔ (Contains pairs.old.items p ⊎ ((p.first ≡ edge) × Contains cells.now p.second))) }
{
    for cell in cells {
        pairs.push(Pair {
            first: edge,
            second: *cell,
        })?;
    }
    Ok(())
}

// Adds the cells that an edge reaches in a state.
fn add_in_state(
    view: BodyView<'_>,
    edge: u32,
    access: Access,
    state: &State<AbsValue>,
    pairs: &mut Vec<Pair>,
) -> Result<(), NoMemory>
    ensures { OnOk result ((p : APair) → Contains pairs.new.items p
        ↔ (Contains pairs.old.items p ⊎ ((p.first ≡ edge)
        × Contains (targets (solved view.entry) access.scalar access.address state.now) p.second))) }
{
    let targets = view.targets(state, access.address, access.scalar)?;
    add_cells(edge, &targets, pairs)
}

// Adds the cells that a copy of an edge reaches in the state that it leaves.
fn add_copy(
    view: BodyView<'_>,
    edge: u32,
    access: Access,
    copy: u32,
    pairs: &mut Vec<Pair>,
) -> Result<(), NoMemory>
    ensures { OnOk result ((p : APair) → Contains pairs.new.items p
        ↔ (Contains pairs.old.items p ⊎ ((p.first ≡ edge) × HasTarget (solved view.entry) access p.second copy))) }
{
    match view.state(copy) {
        Some(state) => add_in_state(view, edge, access, state, pairs),
        None => Ok(()),
    }
}

// Adds the cells that an edge reaches in its states.
fn add_targets(
    view: BodyView<'_>,
    edge: u32,
    access: Access,
    pairs: &mut Vec<Pair>,
) -> Result<(), NoMemory>
    requires indexed { IsIndexed view }
    ensures { OnOk result ((p : APair) → Contains pairs.new.items p
        ↔ (Contains pairs.old.items p ⊎ ((p.first ≡ edge) × HasTargetAt (solved view.entry) access edge p.second))) }
{
    for copy in view.copies_of(edge as usize) {
        add_copy(view, edge, access, *copy, pairs)?;
    }
    Ok(())
}

// Adds the cells that an edge stores, or those that it loads.
fn add_edge(
    view: BodyView<'_>,
    edge: usize,
    stores: bool,
    pairs: &mut Vec<Pair>,
) -> Result<(), NoMemory>
    requires indexed { IsIndexed view }
    ensures { OnOk result ((p : APair) → Contains pairs.new.items p
        ↔ (Contains pairs.old.items p ⊎ ((p.first ≡ edge) × Reaches (solved view.entry) stores edge p.second))) }
{
    let held = small(edge)?;
    match access_of(view.operation(edge), stores) {
        Some(access) => add_targets(view, held, access, pairs),
        None => Ok(()),
    }
}

/// All edges with the cells that they store, or with those that they load.
pub(crate) fn all_reached(view: BodyView<'_>, stores: bool) -> Result<Vec<Pair>, NoMemory>
    requires indexed { IsIndexed view }
    ensures { IfOk result (λ pairs. (p : APair) → Contains pairs.items p
        ↔ Reaches (solved view.entry) stores p.first p.second) }
{
    let mut pairs = Vec::new(view.alloc);
    for edge in 0..view.edges.len() {
        add_edge(view, edge, stores, &mut pairs)?;
    }
    Ok(pairs)
}

// Whether an edge stores by an initialiser.
fn is_initialising(view: BodyView<'_>, edge: u32) -> bool
    ensures { IsTrue result ↔ IsInitialising (solved view.entry) edge }
{
    match view.origin(edge as usize).form {
        Form::Initialise => true,
        _ => false,
    }
}

// Adds a store if it is not one of an initialiser.
fn add_change(view: BodyView<'_>, store: Pair, changes: &mut Vec<Pair>) -> Result<(), NoMemory>
    ensures { OnOk result ((p : APair) → Contains changes.new.items p
        ↔ (Contains changes.old.items p ⊎ ((IsInitialising (solved view.entry) store.first → ⊥) × (p ≡ store)))) }
{
    if is_initialising(view, store.first) {
        return Ok(());
    }
    changes.push(store)?;
    Ok(())
}

/// Those of these stores that are not by an initialiser.
pub(crate) fn changes_of(view: BodyView<'_>, stores: &[Pair]) -> Result<Vec<Pair>, NoMemory>
    ensures { IfOk result (λ changes. (p : APair) → Contains changes.items p
        ↔ (Contains stores.now p × (IsInitialising (solved view.entry) p.first → ⊥))) }
{
    let mut changes = Vec::new(view.alloc);
    for store in stores {
        add_change(view, *store, &mut changes)?;
    }
    Ok(changes)
}
