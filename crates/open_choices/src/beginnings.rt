//! LIFETIME, where lifetimes begin: a pointer to an earlier instance is left over.
ghost use Rattle.std.specs.Prelude.{◌≡◌, ◌≢◌, ◌⊎◌, ◌↔◌, ◌≤◌, ◌<◌, ℕ, length, Contains, IsTrue, IfOk, OnOk};
ghost use Rattle.std.specs.FinMap as map;
ghost use Rattle.std.specs.List.Sorted.{IsStrictlyIncreasing};
ghost use Rattle.tm_laid.specs.Layouts.{laid_tree};
ghost use Rattle.post_recheck.specs.transfer_rows.StateForms.{only_pointers};
ghost use Rattle.text_choices.specs.Choices.{Adds};
ghost use Rattle.operand_orders.specs.Reached.{IsReached};
ghost use Rattle.operand_orders.specs.access_races.reading.Ways.{HasOne};
ghost use Rattle.operand_orders.specs.reading.Scopes.{AreLivesOf};
ghost use Rattle.operand_orders.specs.reading.Views.{solved, IsIndexed};
ghost use Rattle.open_choices.specs.Lifetimes.{PointsTo, IsLeftOver};
ghost use Rattle.open_choices.specs.reading.Found.{IsOfSome, IsBegun};
ghost use Rattle.open_choices.specs.reading.Left.{address_of, IsHeldByTemp, IsLeftAt, IsLeftIn, IsHeldByCell};
ghost use Rattle.open_choices.specs.reading.Left.{IsHeldByOthers};
ghost use Rattle.open_choices.specs.reading.Left.{AddsTo, IsHeldBehind, IsLeftHere, AreHeldByOthers, IsPointedIn};
ghost use Rattle.open_choices.specs.reading.Left.{IsHeldIn};

use crate::adding::add_if;
use cell_env::State;
use flow_graph::Operation;
use interfere_set::Store;
use memory_effects::next_cell;
use operand_orders::{BodyView, ObjectLives, is_open};
use path_origins::Life;
use pointer_dom::{AbsValue, PointerSet};
use std::alloc::Global;
use text_choices::{Choice, Kind};
use tm_laid::abstract_at;
use tm_lattice::{Keyed, NoMemory};

// Whether a value may point to an object.
fn points_to(value: &AbsValue, object: u32) -> bool
    ensures { IsTrue result ↔ PointsTo value.now object }
{
    match value.pointers() {
        None => false,
        Some(pointers) => match pointers.offsets_of(object) {
            None => false,
            Some(offsets) => !offsets.set().is_empty(),
        },
    }
}

// The temporary through which an operation stores, if it does.
fn address_of(operation: Operation) -> Option<u32>
    ensures { result ≡ address_of operation }
{
    match operation {
        Operation::Store { address, .. } => Some(address),
        _ => None,
    }
}

// Whether a temporary is not the one through which its parameter is stored, and its value may point to an object.
fn is_holding(own: Option<u32>, temp: u32, value: &AbsValue, object: u32) -> bool
    ensures { IsTrue result ↔ ((own ≡ Some temp → ⊥) × PointsTo value.now object) }
{
    if own == Some(temp) {
        return false;
    }
    points_to(value, object)
}

// Whether a live temporary may point to an object, apart from the one through which its parameter is stored.
fn is_held_by_temp(state: &State<AbsValue>, own: Option<u32>, object: u32) -> bool
    ensures { IsTrue result ↔ IsHeldByTemp state.now own object }
{
    for (temp, entry) in state.temps().entries() {
        if is_holding(own, *temp, &entry.value, object) {
            return true;
        }
    }
    false
}

// Whether an object that is open where a life begins is another one than its own, and a value may point to this one.
fn is_left_at(
    view: BodyView<'_>,
    lives: &ObjectLives,
    life: Life,
    object: u32,
    value: &AbsValue,
) -> bool
    requires { AreLivesOf view.origins.now.lives.items lives.now }
    ensures { IsTrue result ↔ IsLeftAt (solved view.entry) life object value.now }
{
    if object == life.object {
        return false;
    }
    if !points_to(value, life.object) {
        return false;
    }
    is_open(view, lives, life.begins as usize, object)
}

// The same of the object of a cell with this value.
fn is_left_in(
    view: BodyView<'_>,
    lives: &ObjectLives,
    life: Life,
    cell: u32,
    value: &AbsValue,
) -> bool
    requires { AreLivesOf view.origins.now.lives.items lives.now }
    ensures { IsTrue result ↔ IsLeftIn (solved view.entry) life cell value.now }
{
    is_left_at(
        view,
        lives,
        life,
        abstract_at(view.laid, cell).object,
        value,
    )
}

// Whether a cell may point so in a state.
fn is_held_by_cell(
    view: BodyView<'_>,
    lives: &ObjectLives,
    life: Life,
    state: &State<AbsValue>,
) -> Result<bool, NoMemory>
    requires { AreLivesOf view.origins.now.lives.items lives.now }
    ensures { IfOk result (λ is. IsTrue is ↔ IsHeldByCell (solved view.entry) life state.now) }
{
    let mut from = 0;
    'cells: while let Some((cell, entry)) = next_cell(state.cells(), from)? {
        if is_left_in(view, lives, life, cell, &entry.value) {
            return Ok(true);
        }
        from = u64::from(cell) + 1;
    }
    Ok(false)
}

// Whether a pointer may be left over in a state.
fn is_held_in(
    view: BodyView<'_>,
    lives: &ObjectLives,
    life: Life,
    own: Option<u32>,
    state: &State<AbsValue>,
) -> Result<bool, NoMemory>
    requires { AreLivesOf view.origins.now.lives.items lives.now }
    ensures { IfOk result (λ is. IsTrue is
        ↔ (IsHeldByTemp state.now own life.object ⊎ IsHeldByCell (solved view.entry) life state.now)) }
{
    if is_held_by_temp(state, own, life.object) {
        return Ok(true);
    }
    is_held_by_cell(view, lives, life, state)
}

// The same in the state that a copy leaves, if there is one.
fn is_held_behind(
    view: BodyView<'_>,
    lives: &ObjectLives,
    life: Life,
    own: Option<u32>,
    copy: u32,
) -> Result<bool, NoMemory>
    requires { AreLivesOf view.origins.now.lives.items lives.now }
    ensures { IfOk result (λ is. IsTrue is ↔ IsHeldBehind (solved view.entry) life own copy) }
{
    match view.state(copy) {
        Some(state) => is_held_in(view, lives, life, own, state),
        None => Ok(false),
    }
}

// Whether a pointer may be left over in one of the states where a life begins.
fn is_left_here(view: BodyView<'_>, lives: &ObjectLives, life: Life) -> Result<bool, NoMemory>
    requires indexed { IsIndexed view }
    requires lives { AreLivesOf view.origins.now.lives.items lives.now }
    ensures { IfOk result (λ is. IsTrue is ↔ IsLeftHere (solved view.entry) life) }
{
    let edge = life.begins as usize;
    let own = address_of(view.operation(edge));
    for copy in view.copies_of(edge) {
        if is_held_behind(view, lives, life, own, *copy)? {
            return Ok(true);
        }
    }
    Ok(false)
}

// Adds the objects to which some pointers lead.
fn add_named(pointers: &PointerSet, objects: &mut Vec<u32>) -> Result<(), NoMemory>
    ensures { OnOk result (AddsTo objects.old.items objects.new.items (PointsTo (only_pointers pointers.now))) }
{
    for (object, _offsets) in pointers.objects().entries() {
        objects.push(*object)?;
    }
    Ok(())
}

// Adds the objects to which a value may point.
fn add_objects(value: &AbsValue, objects: &mut Vec<u32>) -> Result<(), NoMemory>
    ensures { OnOk result (AddsTo objects.old.items objects.new.items (PointsTo value.now)) }
{
    match value.pointers() {
        Some(pointers) => add_named(pointers, objects),
        None => Ok(()),
    }
}

// Those to which the values of some cells may point.
fn add_cells(cells: &Keyed<AbsValue>, objects: &mut Vec<u32>) -> Result<(), NoMemory>
    ensures { OnOk result (AddsTo objects.old.items objects.new.items (IsPointedIn cells.now)) }
{
    for (cell, value) in cells.entries() {
        let _cell = cell;
        add_objects(value, objects)?;
    }
    Ok(())
}

// The same under each set of mutexes.
fn add_written(written: &Keyed<Keyed<AbsValue>>, objects: &mut Vec<u32>) -> Result<(), NoMemory>
    ensures { OnOk result (AddsTo objects.old.items objects.new.items (IsHeldIn written.now)) }
{
    for (held, cells) in written.entries() {
        let _held = held;
        add_cells(cells, objects)?;
    }
    Ok(())
}

// Those to which what a task wrote may point, if it is another one than this body.
fn add_task(
    writer: u32,
    written: &Keyed<Keyed<AbsValue>>,
    body: u32,
    objects: &mut Vec<u32>,
) -> Result<(), NoMemory>
    ensures { OnOk result (AddsTo objects.old.items objects.new.items
        (λ x. (writer ≢ body) × IsHeldIn written.now x)) }
{
    if writer == body {
        return Ok(());
    }
    add_written(written, objects)
}

// Those to which what tasks other than this body wrote may point.
fn add_others(store: &Store, body: u32, objects: &mut Vec<u32>) -> Result<(), NoMemory>
    ensures { OnOk result (AddsTo objects.old.items objects.new.items (IsHeldByOthers store.now body)) }
{
    for (writer, written) in store.weak().entries() {
        add_task(*writer, written, body, objects)?;
    }
    Ok(())
}

// The same in order.
fn held_by_others(alloc: Global, store: &Store, body: u32) -> Result<Vec<u32>, NoMemory>
    ensures { IfOk result (λ objects. AreHeldByOthers store.now body objects.items) }
{
    let mut objects = Vec::new(alloc);
    add_others(store, body, &mut objects)?;
    objects.sort()?;
    objects.dedup();
    Ok(objects)
}

// Whether a number is among numbers that rise.
fn is_among(numbers: &[u32], number: u32) -> bool
    requires { IsStrictlyIncreasing numbers.now }
    ensures { IsTrue result ↔ Contains numbers.now number }
{
    numbers.binary_search(&number).is_ok()
}

// Whether what another task wrote may point to the object of a life that begins.
fn is_held_over(view: BodyView<'_>, others: &[u32], life: Life) -> bool
    requires indexed { IsIndexed view }
    requires others { AreHeldByOthers view.store.now view.number others.now }
    ensures { IsTrue result ↔ (IsHeldByOthers view.entry.store.now view.entry.number life.object
        × IsReached (solved view.entry) life.begins) }
{
    if !is_among(others, life.object) {
        return false;
    }
    view.is_reached(life.begins as usize)
}

// Whether a pointer may be left over where a life begins.
fn is_left_over(
    view: BodyView<'_>,
    lives: &ObjectLives,
    others: &[u32],
    life: Life,
) -> Result<bool, NoMemory>
    requires indexed { IsIndexed view }
    requires lives { AreLivesOf view.origins.now.lives.items lives.now }
    requires others { AreHeldByOthers view.store.now view.number others.now }
    ensures { IfOk result (λ is. IsTrue is ↔ IsLeftOver (solved view.entry) life) }
{
    if is_held_over(view, others, life) {
        return Ok(true);
    }
    is_left_here(view, lives, life)
}

/// Adds the names of the parameters and local objects to which a pointer may be left over where their lifetime begins:
/// in a cell that can be read there, in what another task wrote, or in a live temporary.
pub(crate) fn add_beginnings(
    view: BodyView<'_>,
    lives: &ObjectLives,
    choices: &mut Vec<Choice>,
) -> Result<(), NoMemory>
    requires indexed { IsIndexed view }
    requires lives { AreLivesOf view.origins.now.lives.items lives.now }
    ensures { OnOk result (let o = view.entry.origins.now in
        Adds choices.old.items choices.new.items (IsOfSome (IsBegun (solved view.entry)) o.lives.items)) }
{
    let others = held_by_others(view.alloc, view.store, view.number)?;
    for life in &view.origins.lives {
        let is = is_left_over(view, lives, &others, *life)?;
        add_if(choices, Kind::Lifetime, life.place, is)?;
    }
    Ok(())
}
