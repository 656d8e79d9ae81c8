//! What is left open at the edges of a body, copy by copy.
ghost use Rattle.std.specs.Prelude.{◌≡◌, ◌↔◌, ◌≤◌, length, IsTrue, IfOk, OnOk};
ghost use Rattle.tm_laid.specs.tm_typed.TypedFiles.{typed_file_tree};
ghost use Rattle.tm_laid.specs.Layable.{IsLayable};
ghost use Rattle.tm_laid.specs.Layouts.{laid_tree};
ghost use Rattle.post_recheck.specs.transfer_rows.StateForms.{State as AState};
ghost use Rattle.text_choices.specs.Choices.{Adds};
ghost use Rattle.operand_orders.specs.reading.Scopes.{AreLivesOf};
ghost use Rattle.operand_orders.specs.reading.Views.{solved, state_at, IsIndexed};
ghost use Rattle.open_choices.specs.reading.Looks.{is_nothing};
ghost use Rattle.open_choices.specs.reading.Marks.{AreCellMarks};
ghost use Rattle.open_choices.specs.reading.Found.{kind_of, place_at, Finds, IsFound, IsCounted, IsCountedAt};
ghost use Rattle.open_choices.specs.reading.Found.{AreCounted, IsOfCopy, IsOfEdge, IsOpenAt, IsEnumeratedAt};
ghost use Rattle.open_choices.specs.reading.Found.{IsOfNumber};

use crate::adding::add_if;
use crate::constants::stores_constant;
use crate::conversions::{has_beyond, has_negative};
use crate::enumerations::{
    either_negative, enumerated_look_of, is_negative_binary, is_negative_store, is_negative_unary,
};
use crate::looks::{Look, look_of};
use crate::marks::CellMarks;
use crate::members::{is_meeting, is_moved_away};
use crate::unset::loads_unset;
use crate::uses::pointer_leads_out;
use calculations::numbers_of;
use cell_env::State;
use operand_orders::{BodyView, ObjectLives};
use pointer_dom::AbsValue;
use text_choices::{Choice, Kind};
use tm_lattice::NoMemory;
use tm_terms::Place;

/// What is known of objects and cells: the lives of objects, and the marks of cells.
#[derive(Clone, Copy)]
pub struct Known<'a> {
    pub lives: &'a ObjectLives,
    pub marks: &'a CellMarks,
}

// Whether nothing is looked for.
fn is_nothing(look: Look) -> bool
    ensures { result ≡ is_nothing look }
{
    match look {
        Look::Nothing => true,
        _ => false,
    }
}

// The kind of what is looked for.
fn kind_of(look: Look) -> Kind
    ensures { result ≡ kind_of look }
{
    match look {
        Look::Nothing | Look::Load { .. } => Kind::Unset,
        Look::Store { .. } => Kind::Const,
        Look::Conversion { .. } | Look::Shift { .. } => Kind::Implementation,
        Look::Use { .. } => Kind::Lifetime,
        Look::Move { .. } | Look::Comparison { .. } => Kind::Member,
        Look::Negative { .. } | Look::Unary { .. } | Look::Binary { .. } | Look::Branch { .. } =>
            Kind::Enum,
    }
}

// The place of what is looked for at an edge.
fn place_at(view: BodyView<'_>, edge: usize, look: Look) -> Place
    ensures { result ≡ place_at (solved view.entry) edge look }
{
    match look {
        Look::Load { place, .. }
        | Look::Store { place, .. }
        | Look::Shift { place, .. }
        | Look::Move { place, .. }
        | Look::Use { place, .. } => place,
        Look::Nothing
        | Look::Conversion { .. }
        | Look::Comparison { .. }
        | Look::Negative { .. }
        | Look::Unary { .. }
        | Look::Binary { .. }
        | Look::Branch { .. } => view.origin(edge).place,
    }
}

// Whether what is looked for at an edge is there in a state.
fn finds(
    view: BodyView<'_>,
    known: Known<'_>,
    edge: usize,
    state: &State<AbsValue>,
    look: Look,
) -> Result<bool, NoMemory>
    requires layable { IsLayable (typed_file_tree view.laid.now.file) view.laid.now.file.order.items }
    requires few { length view.laid.now.cells.items ≤ 65536 }
    requires lives { AreLivesOf view.origins.now.lives.items known.lives.now }
    requires marks { AreCellMarks (laid_tree view.laid.now) known.marks.now }
    requires counted { IsCounted state.now look }
    ensures { IfOk result (λ is. IsTrue is ↔ Finds (solved view.entry) edge state.now look) }
{
    match look {
        Look::Nothing => Ok(false),
        Look::Load {
            address,
            scalar,
            ..
        } => loads_unset(view, known.lives, edge, state, address, scalar),
        Look::Store {
            address,
            scalar,
            ..
        } => stores_constant(view, &known.marks.constants, state, address, scalar),
        Look::Conversion { of, from } => Ok(has_beyond(of, &numbers_of(state, from))),
        Look::Shift { left, .. } => Ok(has_negative(&numbers_of(state, left))),
        Look::Move {
            from,
            cells,
            minus,
            by,
            ..
        } => is_moved_away(view, edge, state, from, cells, minus, by),
        Look::Use { pointer, .. } => {
            Ok(pointer_leads_out(view, known.lives, edge, state, pointer))
        }
        Look::Comparison { left, right } => Ok(is_meeting(view.alloc, state, left, right)),
        Look::Negative {
            address,
            value,
            scalar,
        } => is_negative_store(view, &known.marks.enumerated, state, address, value, scalar),
        Look::Unary { operator, value } => {
            Ok(is_negative_unary(operator, &numbers_of(state, value)))
        }
        Look::Binary {
            operator,
            left,
            right,
        } => Ok(is_negative_binary(
            operator,
            &numbers_of(state, left),
            &numbers_of(state, right),
        )),
        Look::Branch { left, right } => Ok(either_negative(
            &numbers_of(state, left),
            &numbers_of(state, right),
        )),
    }
}

// Adds what is looked for at an edge, if it is there in a state.
fn add_found(
    view: BodyView<'_>,
    known: Known<'_>,
    edge: usize,
    state: &State<AbsValue>,
    look: Look,
    choices: &mut Vec<Choice>,
) -> Result<(), NoMemory>
    requires layable { IsLayable (typed_file_tree view.laid.now.file) view.laid.now.file.order.items }
    requires few { length view.laid.now.cells.items ≤ 65536 }
    requires lives { AreLivesOf view.origins.now.lives.items known.lives.now }
    requires marks { AreCellMarks (laid_tree view.laid.now) known.marks.now }
    requires counted { IsCounted state.now look }
    ensures { OnOk result (Adds choices.old.items choices.new.items
        (IsFound (solved view.entry) edge state.now look)) }
{
    let found = finds(view, known, edge, state, look)?;
    add_if(choices, kind_of(look), place_at(view, edge, look), found)
}

// Adds what is looked for at an edge, if a copy of it leaves a node with a state where it is there.
fn add_of_copy(
    view: BodyView<'_>,
    known: Known<'_>,
    edge: usize,
    look: Look,
    copy: u32,
    choices: &mut Vec<Choice>,
) -> Result<(), NoMemory>
    requires layable { IsLayable (typed_file_tree view.laid.now.file) view.laid.now.file.order.items }
    requires few { length view.laid.now.cells.items ≤ 65536 }
    requires lives { AreLivesOf view.origins.now.lives.items known.lives.now }
    requires marks { AreCellMarks (laid_tree view.laid.now) known.marks.now }
    requires counted { (s : AState) → state_at (solved view) copy ≡ Some s → IsCounted s look }
    ensures { OnOk result (Adds choices.old.items choices.new.items (IsOfCopy (solved view.entry) edge look copy)) }
{
    match view.state(copy) {
        Some(state) => add_found(view, known, edge, state, look, choices),
        None => Ok(()),
    }
}

// Adds what is looked for at an edge, in each of its states.
fn add_at_edge(
    view: BodyView<'_>,
    known: Known<'_>,
    edge: usize,
    look: Look,
    choices: &mut Vec<Choice>,
) -> Result<(), NoMemory>
    requires layable { IsLayable (typed_file_tree view.laid.now.file) view.laid.now.file.order.items }
    requires few { length view.laid.now.cells.items ≤ 65536 }
    requires indexed { IsIndexed view }
    requires lives { AreLivesOf view.origins.now.lives.items known.lives.now }
    requires marks { AreCellMarks (laid_tree view.laid.now) known.marks.now }
    requires counted { IsCountedAt (solved view) edge look }
    ensures { OnOk result (Adds choices.old.items choices.new.items (IsOfEdge (solved view.entry) edge look)) }
{
    if is_nothing(look) {
        return Ok(());
    }
    for copy in view.copies_of(edge) {
        add_of_copy(view, known, edge, look, *copy, choices)?;
    }
    Ok(())
}

/// Adds what is left open at the edges of a body, each by itself.
pub(crate) fn add_at_edges(
    view: BodyView<'_>,
    known: Known<'_>,
    choices: &mut Vec<Choice>,
) -> Result<(), NoMemory>
    requires layable { IsLayable (typed_file_tree view.laid.now.file) view.laid.now.file.order.items }
    requires few { length view.laid.now.cells.items ≤ 65536 }
    requires indexed { IsIndexed view }
    requires lives { AreLivesOf view.origins.now.lives.items known.lives.now }
    requires marks { AreCellMarks (laid_tree view.laid.now) known.marks.now }
    requires counted { AreCounted (solved view) }
    ensures { OnOk result (Adds choices.old.items choices.new.items
        (IsOfNumber (IsOpenAt (solved view.entry)) (length view.entry.edges.now))) }
{
    for edge in 0..view.edges.len() {
        let look = look_of(view.operation(edge));
        add_at_edge(view, known, edge, look, choices)?;
    }
    Ok(())
}

/// Adds what is left open there of enumerations.
pub(crate) fn add_enumerations(
    view: BodyView<'_>,
    known: Known<'_>,
    choices: &mut Vec<Choice>,
) -> Result<(), NoMemory>
    requires layable { IsLayable (typed_file_tree view.laid.now.file) view.laid.now.file.order.items }
    requires few { length view.laid.now.cells.items ≤ 65536 }
    requires indexed { IsIndexed view }
    requires lives { AreLivesOf view.origins.now.lives.items known.lives.now }
    requires marks { AreCellMarks (laid_tree view.laid.now) known.marks.now }
    ensures { OnOk result (Adds choices.old.items choices.new.items
        (IsOfNumber (IsEnumeratedAt (solved view.entry)) (length view.entry.edges.now))) }
{
    for edge in 0..view.edges.len() {
        let look = enumerated_look_of(view.origin(edge).form, view.operation(edge));
        add_at_edge(view, known, edge, look, choices)?;
    }
    Ok(())
}
