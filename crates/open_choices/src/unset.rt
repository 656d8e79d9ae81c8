//! UNSET: values that were never stored.
ghost use Rattle.std.specs.Prelude.{◌≡◌, ◌↔◌, IsTrue, IfOk, OnOk};
ghost use Rattle.std.specs.FinMap as map;
ghost use Rattle.post_recheck.specs.transfer_rows.Rows.{is_stored};
ghost use Rattle.text_choices.specs.Choices.{Adds};
ghost use Rattle.operand_orders.specs.reading.Views.{solved, IsIndexed};
ghost use Rattle.operand_orders.specs.access_races.reading.Ways.{HasOne};
ghost use Rattle.operand_orders.specs.reading.Scopes.{AreLivesOf};
ghost use Rattle.open_choices.specs.Unset.{IsUninitialised, FindsUnset};
ghost use Rattle.open_choices.specs.reading.Found.{AreUninitialised, LoadsUnset, IsOfSome, IsFallen};

use crate::adding::add_if;
use cell_env::State;
use operand_orders::{BodyView, ObjectLives, is_static, is_within};
use path_origins::Life;
use pointer_dom::AbsValue;
use text_choices::{Choice, Kind};
use tm_laid::abstract_at;
use tm_lattice::NoMemory;
use tm_typed::Scalar;

// Whether a cell was stored since it was cleared, as far as a state tells.
fn is_stored(state: &State<AbsValue>, cell: u32) -> bool
    ensures { result ≡ is_stored (map.get state.now.cells cell) }
{
    match state.cell(cell) {
        Some(entry) => entry.stored,
        None => true,
    }
}

// Whether a life has no initialiser, or an edge is one of it.
fn is_uninitialised(edge: usize, life: Life) -> bool
    ensures { IsTrue result ↔ IsUninitialised edge life }
{
    match life.initialiser {
        Some(span) => is_within(edge, span),
        None => true,
    }
}

// Whether what an edge loads of an object with these lives may never have been stored.
fn are_uninitialised(lives: &[Life], edge: usize) -> bool
    ensures { IsTrue result ↔ AreUninitialised edge lives.now }
{
    for life in lives {
        if !is_uninitialised(edge, *life) {
            return false;
        }
    }
    true
}

// Whether a load may find a local cell that was not stored.
fn finds_unset(
    view: BodyView<'_>,
    lives: &ObjectLives,
    edge: usize,
    state: &State<AbsValue>,
    cell: u32,
) -> bool
    requires { AreLivesOf view.origins.now.lives.items lives.now }
    ensures { IsTrue result ↔ FindsUnset (solved view.entry) edge state.now cell }
{
    let object = abstract_at(view.laid, cell).object;
    if is_static(view.laid, object) {
        return false;
    }
    if is_stored(state, cell) {
        return false;
    }
    are_uninitialised(lives.of(object), edge)
}

// Whether it may find one of these cells unset.
fn finds_one(
    view: BodyView<'_>,
    lives: &ObjectLives,
    edge: usize,
    state: &State<AbsValue>,
    cells: &[u32],
) -> bool
    requires { AreLivesOf view.origins.now.lives.items lives.now }
    ensures { IsTrue result ↔ HasOne (FindsUnset (solved view.entry) edge state.now) cells.now }
{
    for cell in cells {
        if finds_unset(view, lives, edge, state, *cell) {
            return true;
        }
    }
    false
}

/// Whether a load by an address may find a local cell that was not stored.
pub(crate) fn loads_unset(
    view: BodyView<'_>,
    lives: &ObjectLives,
    edge: usize,
    state: &State<AbsValue>,
    address: u32,
    scalar: Scalar,
) -> Result<bool, NoMemory>
    requires { AreLivesOf view.origins.now.lives.items lives.now }
    ensures { IfOk result (λ is. IsTrue is ↔ LoadsUnset (solved view.entry) edge state.now scalar address) }
{
    let targets = view.targets(state, address, scalar)?;
    Ok(finds_one(view, lives, edge, state, targets.as_slice()))
}

/// Adds the functions whose end without `return` is reached while their value is used.
pub(crate) fn add_falls(view: BodyView<'_>, choices: &mut Vec<Choice>) -> Result<(), NoMemory>
    requires { IsIndexed view }
    ensures { OnOk result (let o = view.entry.origins.now in
        Adds choices.old.items choices.new.items (IsOfSome (IsFallen (solved view.entry)) o.falls.items)) }
{
    for fall in &view.origins.falls {
        let is = view.is_reached(fall.edge as usize);
        add_if(choices, Kind::Unset, fall.place, is)?;
    }
    Ok(())
}
