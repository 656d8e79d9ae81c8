//! ORDER: operands whose order C99 leaves open.
ghost use Rattle.std.specs.Prelude.{◌≡◌, ◌↔◌, ℕ, IfOk, OnOk, IsTrue};
ghost use Rattle.pointer_dom.specs.Values.{IsValuesBelow};
ghost use Rattle.post_recheck.specs.transfer_rows.StateForms.{own_of};
ghost use Rattle.text_choices.specs.Choices.{Adds, OfKind};
ghost use Rattle.text_choices.specs.declared.kinds.Kind.TheVariants as Kinds;
ghost use Rattle.operand_orders.specs.Reached.{HasState, operation_at};
ghost use Rattle.operand_orders.specs.Order.{ReadsMore, Matters, IsOfOrder};
ghost use Rattle.access_races.specs.reading.Ways.{HasOne};
ghost use Rattle.operand_orders.specs.reading.Touches.{AreTables, AreTouches};
ghost use Rattle.operand_orders.specs.reading.Operands.{IsJoinOf, IsJoinedBy, IsJoinedWith, Exceeds, HasMore};
ghost use Rattle.operand_orders.specs.reading.Operands.{LoadsMore, IsOfOperands, IsOfReloads, IsOfOverwrites};
ghost use Rattle.operand_orders.specs.reading.Views.{solved, IsIndexed, state_at};

use crate::overlaps::{do_touch, is_overwritten, is_reloaded};
use crate::touches::{Touches, is_marked_in, touches_of};
use crate::views::BodyView;
use cell_env::State;
use path_origins::{Overwrite, Reload, Span, Unsequenced};
use pointer_dom::AbsValue;
use std::alloc::Global;
use strided_dom::Strided;
use text_choices::{Choice, Kind, add_where};
use tm_lattice::{Lattice, NoMemory};
use tm_terms::Place;

// A value joined with that of a cell in a state.
fn joined_in(
    alloc: Global,
    state: &State<AbsValue>,
    cell: u32,
    joined: AbsValue,
) -> Result<AbsValue, NoMemory>
    ensures { IfOk result (λ more. IsJoinedBy (own_of state.now cell) joined more) }
{
    match state.cell(cell) {
        Some(entry) => joined.join(alloc, &entry.value),
        None => Ok(joined),
    }
}

// A value joined with that of a cell in the state that a copy leaves.
fn joined_with(
    view: BodyView<'_>,
    copy: u32,
    cell: u32,
    joined: AbsValue,
) -> Result<AbsValue, NoMemory>
    ensures { IfOk result (λ more. IsJoinedWith (state_at (solved view.entry) copy) cell joined more) }
{
    match view.state(copy) {
        Some(state) => joined_in(view.alloc, state, cell, joined),
        None => Ok(joined),
    }
}

// The values of a cell in the states of an edge, joined.
fn joined_at(view: BodyView<'_>, edge: usize, cell: u32) -> Result<AbsValue, NoMemory>
    requires indexed { IsIndexed view }
    ensures { IfOk result (λ joined. IsJoinOf
        (HasState (solved view.entry) edge (operation_at (solved view.entry) edge)) cell joined) }
{
    let mut joined = AbsValue::from_numbers(Strided::empty());
    for copy in view.copies_of(edge) {
        joined = joined_with(view, *copy, cell, joined)?;
    }
    Ok(joined)
}

// Whether the value of a cell in a state is not below another one.
fn is_beyond(state: &State<AbsValue>, cell: u32, joined: &AbsValue) -> bool
    ensures { IsTrue result ↔ (IsValuesBelow (own_of state.now cell) joined.now → ⊥) }
{
    match state.cell(cell) {
        Some(entry) => !entry.value.below(joined),
        None => false,
    }
}

// Whether a cell has in the state that a copy leaves a value that is not below another one.
fn exceeds(view: BodyView<'_>, copy: u32, cell: u32, joined: &AbsValue) -> bool
    ensures { IsTrue result ↔ Exceeds (solved view.entry) cell joined.now copy }
{
    match view.state(copy) {
        Some(state) => is_beyond(state, cell, joined),
        None => false,
    }
}

// Whether a cell has in the state that one of these copies leaves a value that is not below another one.
fn do_exceed(view: BodyView<'_>, copies: &[u32], cell: u32, joined: &AbsValue) -> bool
    ensures { IsTrue result ↔ HasOne (λ (k : ℕ). Exceeds (solved view.entry) cell joined.now k) copies.now }
{
    for copy in copies {
        if exceeds(view, *copy, cell, joined) {
            return true;
        }
    }
    false
}

// Whether a cell has in a state of an edge a value that it has in no state of another one.
fn has_more(view: BodyView<'_>, before: usize, behind: usize, cell: u32) -> Result<bool, NoMemory>
    requires indexed { IsIndexed view }
    ensures { IfOk result (λ more. IsTrue more ↔ HasMore (solved view.entry) before behind cell) }
{
    let joined = joined_at(view, behind, cell)?;
    Ok(do_exceed(view, view.copies_of(before), cell, &joined))
}

// Whether the second operand loads a cell that has a value before that it has not behind, where both are reached.
fn loads_more(
    view: BodyView<'_>,
    touches: &Touches,
    first: Span,
    second: Span,
) -> Result<bool, NoMemory>
    requires indexed { IsIndexed view }
    requires touches { AreTouches (solved view) touches.now }
    ensures { IfOk result (λ more. IsTrue more ↔ LoadsMore (solved view.entry) first second) }
{
    for load in touches.loads.within(second) {
        let more = has_more(
            view,
            first.first as usize,
            second.first as usize,
            load.second,
        )?;
        if more {
            return Ok(true);
        }
    }
    Ok(false)
}

// Whether the second operand can read what it does not read behind the first one, since that may not end: it is not
// reached where the first one is, and does more than to give a constant; or one of the cells that it loads has a value
// before that it has not behind.
fn reads_more(
    view: BodyView<'_>,
    touches: &Touches,
    first: Span,
    second: Span,
) -> Result<bool, NoMemory>
    requires indexed { IsIndexed view }
    requires touches { AreTouches (solved view) touches.now }
    ensures { IfOk result (λ more. IsTrue more ↔ ReadsMore (solved view.entry) first second) }
{
    let before = view.is_reached(first.first as usize);
    let behind = view.is_reached(second.first as usize);
    if !before {
        return Ok(false);
    }
    if !behind {
        return Ok(is_marked_in(&touches.acting, second));
    }
    loads_more(view, touches, first, second)
}

// Whether the order of two operands matters.
fn matters(
    view: BodyView<'_>,
    touches: &Touches,
    first: Span,
    second: Span,
) -> Result<bool, NoMemory>
    requires indexed { IsIndexed view }
    requires touches { AreTouches (solved view) touches.now }
    ensures { IfOk result (λ is. IsTrue is ↔ Matters (solved view.entry) first second) }
{
    if do_touch(touches, first, second) {
        return Ok(true);
    }
    reads_more(view, touches, first, second)
}

// What is left open at a place.
fn choice_at(place: Place) -> Choice
    ensures { result ≡ record { place = place; kind = Kinds.Order } }
{
    Choice {
        place,
        kind: Kind::Order,
    }
}

// Adds the places of operands whose order matters.
fn add_operands(
    view: BodyView<'_>,
    touches: &Touches,
    operands: &[Unsequenced],
    choices: &mut Vec<Choice>,
) -> Result<(), NoMemory>
    requires indexed { IsIndexed view }
    requires touches { AreTouches (solved view) touches.now }
    ensures { OnOk result (Adds choices.old.items choices.new.items
        (OfKind Kinds.Order (IsOfOperands (solved view.entry) operands.now))) }
{
    for pair in operands {
        let holds = matters(view, touches, pair.first, pair.second)?;
        add_where(holds, choice_at(pair.place), choices)?;
    }
    Ok(())
}

// Adds the places of assignments whose right side stores what they load.
fn add_reloads(
    touches: &Touches,
    reloads: &[Reload],
    choices: &mut Vec<Choice>,
) -> Result<(), NoMemory>
    requires { AreTables touches.now }
    ensures { OnOk result (Adds choices.old.items choices.new.items
        (OfKind Kinds.Order (IsOfReloads touches.now reloads.now))) }
{
    for reload in reloads {
        let holds = is_reloaded(touches, reload.load, reload.right);
        add_where(holds, choice_at(reload.place), choices)?;
    }
    Ok(())
}

// Adds the places of stores of what an operand stores, with no sequence point between.
fn add_overwrites(
    touches: &Touches,
    overwrites: &[Overwrite],
    choices: &mut Vec<Choice>,
) -> Result<(), NoMemory>
    requires { AreTables touches.now }
    ensures { OnOk result (Adds choices.old.items choices.new.items
        (OfKind Kinds.Order (IsOfOverwrites touches.now overwrites.now))) }
{
    for overwrite in overwrites {
        let holds = is_overwritten(touches, overwrite.store, overwrite.earlier);
        add_where(holds, choice_at(overwrite.place), choices)?;
    }
    Ok(())
}

/// Adds the places of operators, calls and initialisers whose operands stand in an open order that matters, and of
/// assignments that store what one of their operands stores with no sequence point between.
pub fn add_order(view: BodyView<'_>, choices: &mut Vec<Choice>) -> Result<(), NoMemory>
    requires indexed { IsIndexed view }
    ensures { OnOk result (Adds choices.old.items choices.new.items
        (OfKind Kinds.Order (IsOfOrder (solved view.entry)))) }
{
    let touches = touches_of(view)?;
    let operands = view.origins.operands.as_slice();
    let reloads = view.origins.reloads.as_slice();
    let overwrites = view.origins.overwrites.as_slice();
    add_operands(view, &touches, operands, choices)?;
    add_reloads(&touches, reloads, choices)?;
    add_overwrites(&touches, overwrites, choices)
}
