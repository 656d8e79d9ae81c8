//! States that are put together from the lists that their lines are.
ghost use Rattle.std.specs.Prelude.{◌≡◌, ◌^◌, ℕ, false, List, ◌∷◌, Bool, None, Some, drop, get_or, length};
ghost use Rattle.std.specs.Prelude.{IfOk, IsTrue, OnOk};
ghost use Rattle.std.specs.FinMap as map;
ghost use Rattle.std.specs.FinMap.{entries};
ghost use Rattle.std.specs.Vec.Iter.{into_iter_items};
ghost use Rattle.tm_laid.specs.Layouts.{laid_tree};
ghost use Rattle.pointer_dom.specs.Values.{Values};
ghost use Rattle.edge_actions.specs.Layouts.{is_shared_cell};
ghost use Rattle.certificate_reading.specs.reading.Shapes.{RiseFrom};
ghost use Rattle.certificate_reading.specs.reading.Bounds.{AreUnder, IsUnder};
ghost use Rattle.certificate_reading.specs.reading.Parts.{cells_of, or_none, temps_of};
ghost use Rattle.certificate_reading.specs.reading.Cells.{AreSeen, cell_with};
ghost use Rattle.certificate_reading.specs.reading.KeptRows.{values_of};

use crate::kept_rows::KeptRow;
use cell_env::{CellState, TempState};
use edge_actions::is_shared_cell;
use pointer_dom::AbsValue;
use state_tree::Tree;
use std::alloc::Global;
use std::vec::IntoIter;
use tm_laid::Laid;
use tm_lattice::{Keyed, Lattice, NoMemory};

/// The cell of which a temporary is a copy.
fn copy_of(number: Option<u64>) -> Option<u32>
    requires { IsUnder (2 ^ 32) number }
    ensures { result ≡ number }
{
    match number {
        None => None,
        Some(cell) => Some(cell as u32),
    }
}

/// The temporaries of these values and copies, as many as have both.
pub(crate) fn temps_with(
    alloc: Global,
    live: &[u32],
    values: Vec<AbsValue>,
    copies: Vec<Option<u64>>,
) -> Result<Keyed<TempState<AbsValue>>, NoMemory>
    requires rising { RiseFrom 0 live.now }
    requires copies { AreUnder (2 ^ 32) copies.items }
    ensures { IfOk result (λ t. entries t ≡ temps_of live.now values.items copies.items) }
{
    let mut temps = Keyed::new(alloc);
    let mut values_left = values.into_iter();
    let mut copies_left = copies.into_iter();
    for temp in live {
        let Some(value) = values_left.next() else {
            return Ok(temps);
        };
        let Some(copy) = copies_left.next() else {
            return Ok(temps);
        };
        let copy = copy_of(copy);
        temps.put(*temp, TempState { value, copy })?;
    }
    Ok(temps)
}

/// A set of mutexes: that of none is empty.
fn set_of(number: Option<u64>) -> u16
    requires { IsUnder (2 ^ 16) number }
    ensures { result ≡ or_none number }
{
    match number {
        None => 0,
        Some(set) => set as u16,
    }
}

/// What is pending in the next shared cell.
fn next_pending(pending: &mut IntoIter<Option<u64>, Global>) -> u16
    requires { AreUnder (2 ^ 16) (into_iter_items pending.now) }
    ensures set { result ≡ or_none (get_or (into_iter_items pending.old) 0 None) }
    ensures behind { into_iter_items pending.new ≡ drop 1 (into_iter_items pending.old) }
{
    match pending.next() {
        None => 0,
        Some(number) => set_of(number),
    }
}

/// Whether the next local cell is stored.
fn next_stored(stored: &mut IntoIter<bool, Global>) -> bool
    ensures mark { result ≡ get_or (into_iter_items stored.old) 0 false }
    ensures behind { into_iter_items stored.new ≡ drop 1 (into_iter_items stored.old) }
{
    match stored.next() {
        None => false,
        Some(mark) => mark,
    }
}

/// What a state says of a cell beside its value.
#[derive(Clone, Copy)]
pub(crate) struct Marks {
    pub(crate) pending: u16,
    pub(crate) fresh: bool,
    pub(crate) stored: bool,
}

/// What is said of the cell with this number beside its value.
fn next_marks(
    laid: &Laid,
    cell: u32,
    pending: &mut IntoIter<Option<u64>, Global>,
    fresh: bool,
    stored: &mut IntoIter<bool, Global>,
) -> Marks
    requires { AreUnder (2 ^ 16) (into_iter_items pending.now) }
    ensures first { (v : Values) (xs : List ℕ) (vs : List Values) (fs : List Bool)
        → let of = cells_of (is_shared_cell (laid_tree laid.now)) in
        of (cell ∷ xs) (v ∷ vs) (into_iter_items pending.old) (fresh ∷ fs) (into_iter_items stored.old)
        ≡ (cell, cell_with v result) ∷ of xs vs (into_iter_items pending.new) fs (into_iter_items stored.new) }
    ensures sets { AreUnder (2 ^ 16) (into_iter_items pending.new) }
{
    if is_shared_cell(laid, cell) {
        let pending = next_pending(pending);
        return Marks {
            pending,
            fresh,
            stored: false,
        };
    }
    let stored = next_stored(stored);
    Marks {
        pending: 0,
        fresh,
        stored,
    }
}

/// Whether two values are the same.
fn is_same(one: &AbsValue, other: &AbsValue) -> bool
    ensures { IsTrue result → one.now ≡ other.now }
{
    // The calls tell that both are values.
    let _one = one.is_nothing();
    let _other = other.is_nothing();
    if !one.below(other) {
        return false;
    }
    other.below(one)
}

/// Whether a cell has these marks.
fn has_marks(found: &CellState<AbsValue>, marks: Marks) -> bool
    ensures { IsTrue result → found.now ≡ cell_with found.now.value marks }
{
    if found.pending != marks.pending {
        return false;
    }
    if found.fresh != marks.fresh {
        return false;
    }
    found.stored == marks.stored
}

/// Whether a cell with this value and these marks stands in a table already.
fn stands(cells: &Tree<CellState<AbsValue>>, cell: u32, value: &AbsValue, marks: Marks) -> bool
    ensures { IsTrue result → map.get cells.now cell ≡ Some (cell_with value.now marks) }
{
    let Some(found) = cells.get(cell) else {
        return false;
    };
    if !has_marks(found, marks) {
        return false;
    }
    is_same(&found.value, value)
}

/// Puts a cell into a table, unless it stands there already: so a table shares what it has of another.
fn put_over(
    alloc: Global,
    cells: &mut Tree<CellState<AbsValue>>,
    cell: u32,
    value: &AbsValue,
    marks: Marks,
) -> Result<(), NoMemory>
    ensures { OnOk result (cells.new ≡ map.insert cells.old cell (cell_with value.now marks)) }
{
    if stands(cells, cell, value, marks) {
        return Ok(());
    }
    let Marks {
        pending,
        fresh,
        stored,
    } = marks;
    let value = value.copied(alloc)?;
    let state = CellState {
        value,
        pending,
        fresh,
        stored,
    };
    cells.put(cell, state)?;
    Ok(())
}

/// The cells that are seen, with the values of these lines and marks whether they are fresh, with what is pending in those of them
/// that are shared, and whether the others are stored. They share what is the same in a table of cells before, of which
/// each is seen.
pub(crate) fn cells_over(
    alloc: Global,
    laid: &Laid,
    seen: &[u32],
    before: &Tree<CellState<AbsValue>>,
    rows: &[KeptRow],
    pending: Vec<Option<u64>>,
    fresh: &[bool],
    stored: Vec<bool>,
) -> Result<Tree<CellState<AbsValue>>, NoMemory>
    requires rising { RiseFrom 0 seen.now }
    requires before { AreSeen seen.now before.now }
    requires rows { length rows.now ≡ length seen.now }
    requires pending { AreUnder (2 ^ 16) pending.items }
    requires fresh { length fresh.now ≡ length seen.now }
    ensures { IfOk result (λ t. entries t
        ≡ cells_of (is_shared_cell (laid_tree laid.now)) seen.now (values_of rows.now) pending.items fresh.now
        stored.items) }
{
    let mut cells = before.shared()?;
    let mut pending_left = pending.into_iter();
    let mut stored_left = stored.into_iter();
    for at in 0..seen.len() {
        let marks = next_marks(
            laid,
            seen[at],
            &mut pending_left,
            fresh[at],
            &mut stored_left,
        );
        put_over(alloc, &mut cells, seen[at], &rows[at].value, marks)?;
    }
    Ok(cells)
}
