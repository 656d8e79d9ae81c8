//! What the edges of a body touch, and which of them wait, are seen by other tasks or act.
ghost use Rattle.std.specs.Prelude.{◌≡◌, ◌↔◌, ◌<◌, ℕ, length, IfOk, IsTrue};
ghost use Rattle.operand_orders.specs.declared.pairs.Pair.{Pair as APair};
ghost use Rattle.operand_orders.specs.Reached.{operation_at, IsStatic, Loads, Stores};
ghost use Rattle.operand_orders.specs.Order.{IsActing, IsStoredByOthers};
ghost use Rattle.access_races.specs.reading.Ways.{HasOne};
ghost use Rattle.operand_orders.specs.reading.Marks.{IsMarked, AreMarks};
ghost use Rattle.operand_orders.specs.reading.Touches.{is_waiting, is_acting, Changes, WaitsAt, StoresSeen};
ghost use Rattle.operand_orders.specs.reading.Touches.{LoadsSeen, IsSeenAt, IsTableOf, AreMarked, AreMarksOf};
ghost use Rattle.operand_orders.specs.reading.Touches.{IsMarkedIn, AreTouches};
ghost use Rattle.operand_orders.specs.reading.Views.{solved, IsIndexed};

use crate::accesses::{Accesses, accesses_of};
use crate::lists::small;
use crate::marks::{Marks, marks_of};
use crate::others::{is_other, others_of};
use crate::pairs::Pair;
use crate::reached::{all_reached, changes_of};
use crate::views::BodyView;
use edge_actions::is_shared_cell;
use flow_graph::Operation;
use path_origins::Span;
use program_reports::place_of;
use tm_lattice::NoMemory;

/// What the edges of a body touch: loads, stores, and of these those by expressions and not by initialisers; and which
/// edges wait or ask for a mutex, which do what other tasks see or see what they do, and at which an error or an access
/// may stand, be they reached or not.
pub(crate) struct Touches {
    pub(crate) loads: Accesses,
    pub(crate) stores: Accesses,
    pub(crate) changes: Accesses,
    pub(crate) waits: Marks,
    pub(crate) seen: Marks,
    pub(crate) acting: Marks,
}

// By hand: a function that lets one go calls this, and its check does not go through the fields.
impl Drop for Touches {
    fn drop(self) {
        let Touches {
            loads: _loads,
            stores: _stores,
            changes: _changes,
            waits: _waits,
            seen: _seen,
            acting: _acting,
        } = self;
    }
}

// Whether an operation waits, or asks for a mutex.
#[tactic(auto, unfolding(crate::specs::reading::Touches::is_waiting))]
fn is_waiting(operation: Operation) -> bool
    ensures { result ≡ is_waiting operation }
{
    match operation {
        Operation::Lock { .. }
        | Operation::Unlock { .. }
        | Operation::Yield
        | Operation::Probe { .. } => true,
        _ => false,
    }
}

// Whether an error or an access may stand at an operation, or it waits.
fn is_acting(operation: Operation) -> bool
    ensures { result ≡ is_acting operation }
{
    is_waiting(operation) || place_of(operation).is_some()
}

// Whether an edge waits, or asks for a mutex.
fn waits_at(view: BodyView<'_>, edge: usize) -> bool
    requires indexed { IsIndexed view }
    ensures { IsTrue result ↔ WaitsAt (solved view.entry) edge }
{
    is_waiting(view.operation(edge)) && view.is_reached(edge)
}

// For each edge whether it waits, or asks for a mutex.
fn all_waits(view: BodyView<'_>) -> Result<Vec<bool>, NoMemory>
    requires indexed { IsIndexed view }
    ensures { IfOk result (λ marks. AreMarked (WaitsAt (solved view.entry)) marks.items) }
{
    let mut marks = Vec::new(view.alloc);
    for edge in 0..view.edges.len() {
        marks.push(waits_at(view, edge))?;
    }
    Ok(marks)
}

// For each edge whether an error or an access may stand there, or it waits.
fn all_acting(view: BodyView<'_>) -> Result<Vec<bool>, NoMemory>
    ensures { IfOk result (λ marks. AreMarked (λ edge. IsActing (operation_at (solved view.entry) edge)) marks.items) }
{
    let mut marks = Vec::new(view.alloc);
    for edge in 0..view.edges.len() {
        marks.push(is_acting(view.operation(edge)))?;
    }
    Ok(marks)
}

// Whether one of these accesses is to a static cell.
fn are_static(view: BodyView<'_>, pairs: &[Pair]) -> bool
    ensures { IsTrue result ↔ HasOne (λ (p : APair). IsStatic (solved view.entry) p.second) pairs.now }
{
    for pair in pairs {
        if is_shared_cell(view.laid, pair.second) {
            return true;
        }
    }
    false
}

// Whether one of these accesses is to a static cell that another task stores.
fn are_static_others(view: BodyView<'_>, others: &[bool], pairs: &[Pair]) -> bool
    requires known { (k : ℕ) → k < length others.now → IsMarked others.now k ↔ IsStoredByOthers (solved view) k }
    ensures { IsTrue result ↔ HasOne (λ (p : APair). IsStatic (solved view.entry) p.second
        × IsStoredByOthers (solved view.entry) p.second) pairs.now }
{
    for pair in pairs {
        if is_shared_cell(view.laid, pair.second) && is_other(view, others, pair.second) {
            return true;
        }
    }
    false
}

// Whether an edge stores a static cell.
fn stores_seen(view: BodyView<'_>, stores: &Accesses, edge: u32) -> bool
    requires { IsTableOf (Stores (solved view)) stores.now }
    ensures { IsTrue result ↔ StoresSeen (solved view.entry) edge }
{
    are_static(view, stores.of_edge(edge))
}

// Whether an edge loads a static cell that another task stores.
fn loads_seen(view: BodyView<'_>, others: &[bool], loads: &Accesses, edge: u32) -> bool
    requires known { (k : ℕ) → k < length others.now → IsMarked others.now k ↔ IsStoredByOthers (solved view) k }
    requires loads { IsTableOf (Loads (solved view)) loads.now }
    ensures { IsTrue result ↔ LoadsSeen (solved view.entry) edge }
{
    are_static_others(view, others, loads.of_edge(edge))
}

// Whether an edge does what other tasks may see, or sees what they do.
fn seen_at(
    view: BodyView<'_>,
    others: &[bool],
    loads: &Accesses,
    stores: &Accesses,
    edge: u32,
) -> bool
    requires indexed { IsIndexed view }
    requires known { (k : ℕ) → k < length others.now → IsMarked others.now k ↔ IsStoredByOthers (solved view) k }
    requires loads { IsTableOf (Loads (solved view)) loads.now }
    requires stores { IsTableOf (Stores (solved view)) stores.now }
    ensures { IsTrue result ↔ IsSeenAt (solved view.entry) edge }
{
    waits_at(view, edge as usize)
        || stores_seen(view, stores, edge)
        || loads_seen(view, others, loads, edge)
}

// For each edge whether it does what other tasks may see, or sees what they do.
fn all_seen(view: BodyView<'_>, loads: &Accesses, stores: &Accesses) -> Result<Vec<bool>, NoMemory>
    requires indexed { IsIndexed view }
    requires loads { IsTableOf (Loads (solved view)) loads.now }
    requires stores { IsTableOf (Stores (solved view)) stores.now }
    ensures { IfOk result (λ marks. AreMarked (IsSeenAt (solved view.entry)) marks.items) }
{
    let others = others_of(view)?;
    let mut marks = Vec::new(view.alloc);
    for edge in 0..view.edges.len() {
        let held = small(edge)?;
        marks.push(seen_at(view, &others, loads, stores, held))?;
    }
    Ok(marks)
}

// The loads of the edges.
fn loads_of(view: BodyView<'_>) -> Result<Accesses, NoMemory>
    requires indexed { IsIndexed view }
    ensures { IfOk result (λ made. IsTableOf (Loads (solved view.entry)) made) }
{
    let pairs = all_reached(view, false)?;
    accesses_of(view.alloc, pairs)
}

// The stores of the edges.
fn stores_of(view: BodyView<'_>) -> Result<Accesses, NoMemory>
    requires indexed { IsIndexed view }
    ensures { IfOk result (λ made. IsTableOf (Stores (solved view.entry)) made) }
{
    let pairs = all_reached(view, true)?;
    accesses_of(view.alloc, pairs)
}

// Those of the stores that are not by initialisers.
fn stores_by_expressions(view: BodyView<'_>, stores: &Accesses) -> Result<Accesses, NoMemory>
    requires { IsTableOf (Stores (solved view)) stores.now }
    ensures { IfOk result (λ made. IsTableOf (Changes (solved view.entry)) made) }
{
    let pairs = changes_of(view, stores.all())?;
    accesses_of(view.alloc, pairs)
}

// The edges that wait, or ask for a mutex.
fn waits_of(view: BodyView<'_>) -> Result<Marks, NoMemory>
    requires indexed { IsIndexed view }
    ensures { IfOk result (λ made. AreMarksOf (WaitsAt (solved view.entry)) made) }
{
    let marks = all_waits(view)?;
    marks_of(view.alloc, marks)
}

// The edges that do what other tasks may see, or see what they do.
fn seen_of(view: BodyView<'_>, loads: &Accesses, stores: &Accesses) -> Result<Marks, NoMemory>
    requires indexed { IsIndexed view }
    requires loads { IsTableOf (Loads (solved view)) loads.now }
    requires stores { IsTableOf (Stores (solved view)) stores.now }
    ensures { IfOk result (λ made. AreMarksOf (IsSeenAt (solved view.entry)) made) }
{
    let marks = all_seen(view, loads, stores)?;
    marks_of(view.alloc, marks)
}

// The edges at which an error or an access may stand, or that wait.
fn acting_of(view: BodyView<'_>) -> Result<Marks, NoMemory>
    ensures { IfOk result (λ made. AreMarksOf (λ edge. IsActing (operation_at (solved view.entry) edge)) made) }
{
    let marks = all_acting(view)?;
    marks_of(view.alloc, marks)
}

/// What the edges of a body touch.
pub(crate) fn touches_of(view: BodyView<'_>) -> Result<Touches, NoMemory>
    requires indexed { IsIndexed view }
    ensures { IfOk result (λ touches. AreTouches (solved view.entry) touches) }
{
    let loads = loads_of(view)?;
    let stores = stores_of(view)?;
    let changes = stores_by_expressions(view, &stores)?;
    let waits = waits_of(view)?;
    let seen = seen_of(view, &loads, &stores)?;
    let acting = acting_of(view)?;
    Ok(Touches {
        loads,
        stores,
        changes,
        waits,
        seen,
        acting,
    })
}

/// Whether an edge of a span is marked.
pub(crate) fn is_marked_in(marks: &Marks, span: Span) -> bool
    requires { AreMarks marks.now.marks.items marks.now }
    ensures { IsTrue result ↔ IsMarkedIn marks.now span }
{
    marks.is_between(span.first, span.end)
}
