//! What a walk notes.
ghost use Rattle.std.specs.Prelude.{◌≡◌, ◌++◌, map, drop, OnOk, IfOk};
ghost use Rattle.path_origins.specs.Types.{differs};
ghost use Rattle.path_origins.specs.Noted.{nothing, behind, one, one_if, tests, skips, called_body, given_if};
ghost use Rattle.path_origins.specs.Noted.{passing_if, ending, overwrites_of};
ghost use Rattle.path_origins.specs.Shown.{shown};
ghost use Rattle.path_origins.specs.reading.Walks.{IsBehind, end_by, decided_by, operands_added, reload_added};
ghost use Rattle.path_origins.specs.reading.Ends.{against_before};
ghost use Rattle.path_origins.specs.reading.Walks.{sequenced_from, scoped_from, stored_from, life_added, fall_added};

use crate::origins::{
    Form, Life, NotedCall, NotedEdge, Notes, Overwrite, Passed, Passing, Reload, Span, Unsequenced,
};
use crate::types::Given;
use crate::walks::Wanted;
use body_builder::more;
use std::alloc::Global;
use tm_lattice::NoMemory;
use tm_terms::Place;
use tm_typed::{CType, Qualified};

/// Nothing.
pub(crate) fn no_notes(alloc: Global) -> Notes
    ensures { shown result ≡ nothing }
{
    Notes {
        size: 0,
        edges: Vec::new(alloc),
        calls: Vec::new(alloc),
        operands: Vec::new(alloc),
        reloads: Vec::new(alloc),
        overwrites: Vec::new(alloc),
        lives: Vec::new(alloc),
        falls: Vec::new(alloc),
        passings: Vec::new(alloc),
        pending: Vec::new(alloc),
        unended: Vec::new(alloc),
    }
}

/// An edge.
pub(crate) fn note(to: &mut Notes, place: Place, form: Form) -> Result<(), NoMemory>
    ensures { OnOk result (IsBehind to.old to.new (one place form)) }
{
    let at = to.size;
    to.edges.push(NotedEdge { at, place, form })?;
    to.size = more(at, 1)?;
    Ok(())
}

/// So many edges on which control goes on.
pub(crate) fn note_skips(to: &mut Notes, place: Place, count: u32) -> Result<(), NoMemory>
    ensures { OnOk result (IsBehind to.old to.new (skips place count)) }
{
    for _ in 0..count {
        note(to, place, Form::Skip)?;
    }
    Ok(())
}

/// A test and its opposite.
pub(crate) fn note_tests(to: &mut Notes, place: Place, form: Form) -> Result<(), NoMemory>
    ensures { OnOk result (IsBehind to.old to.new (tests place form)) }
{
    note(to, place, form)?;
    note(to, place, form)
}

/// An edge, if it is so.
pub(crate) fn note_if(to: &mut Notes, is: bool, place: Place, form: Form) -> Result<(), NoMemory>
    ensures { OnOk result (IsBehind to.old to.new (one_if is place form)) }
{
    if is {
        return note(to, place, form);
    }
    Ok(())
}

/// The body of a path, which has so many edges, where its value is used or is not.
pub(crate) fn note_body(to: &mut Notes, path: u32, size: u32, used: bool) -> Result<(), NoMemory>
    ensures { OnOk result (IsBehind to.old to.new (called_body size path used)) }
{
    let at = to.size;
    to.calls.push(NotedCall { path, at, used })?;
    to.size = more(at, size)?;
    Ok(())
}

/// A value is there, which is tested where a branch is wanted: a pointer once it is known to be usable.
pub(crate) fn note_end(
    to: &mut Notes,
    wanted: Wanted,
    pointer: bool,
    place: Place,
) -> Result<(), NoMemory>
    ensures { OnOk result (IsBehind to.old to.new (end_by wanted pointer place)) }
{
    match wanted {
        Wanted::Value | Wanted::Bare => Ok(()),
        Wanted::Branch => {
            if pointer {
                note(to, place, Form::Usable)?;
            }
            note_tests(to, place, Form::Test(false))
        }
    }
}

/// The same, of a value that gives this.
pub(crate) fn end_with(
    to: &mut Notes,
    wanted: Wanted,
    pointer: bool,
    place: Place,
    gives: Given,
) -> Result<Given, NoMemory>
    ensures noted { OnOk result (IsBehind to.old to.new (end_by wanted pointer place)) }
    ensures given { IfOk result (λ g. g ≡ gives) }
{
    note_end(to, wanted, pointer, place)?;
    Ok(gives)
}

/// The same behind an edge.
pub(crate) fn note_value(
    to: &mut Notes,
    place: Place,
    edge: Form,
    wanted: Wanted,
    pointer: bool,
    gives: Given,
) -> Result<Given, NoMemory>
    ensures noted { OnOk result (IsBehind to.old to.new (behind (one place edge) (end_by wanted pointer place))) }
    ensures given { IfOk result (λ g. g ≡ gives) }
{
    note(to, place, edge)?;
    end_with(to, wanted, pointer, place, gives)
}

/// An edge behind which an lvalue is known, with the type of what it designates.
pub(crate) fn note_type(
    to: &mut Notes,
    place: Place,
    edge: Form,
    of: Qualified,
) -> Result<Qualified, NoMemory>
    ensures noted { OnOk result (IsBehind to.old to.new (one place edge)) }
    ensures typed { IfOk result (λ q. q ≡ of) }
{
    note(to, place, edge)?;
    Ok(of)
}

/// The same behind another edge.
pub(crate) fn note_type_behind(
    to: &mut Notes,
    place: Place,
    first: Form,
    form: Form,
    of: Qualified,
) -> Result<Qualified, NoMemory>
    ensures noted { OnOk result (IsBehind to.old to.new (behind (one place first) (one place form))) }
    ensures typed { IfOk result (λ q. q ≡ of) }
{
    note(to, place, first)?;
    note_type(to, place, form, of)
}

/// Control goes one of two ways, and for a value 1 and 0 meet.
pub(crate) fn note_fork_end(to: &mut Notes, wanted: Wanted, place: Place) -> Result<(), NoMemory>
    ensures { OnOk result (IsBehind to.old to.new (decided_by wanted place)) }
{
    match wanted {
        Wanted::Value | Wanted::Bare => {
            note(to, place, Form::Constant)?;
            note(to, place, Form::Constant)?;
            note_skips(to, place, 2)
        }
        Wanted::Branch => Ok(()),
    }
}

/// The edges from one on.
pub(crate) fn since(to: &Notes, first: u32) -> Span
    ensures first { result.first ≡ first }
    ensures end { result.end ≡ to.now.size }
{
    Span {
        first,
        end: to.size,
    }
}

/// Two unsequenced operands.
pub(crate) fn note_operands(
    to: &mut Notes,
    place: Place,
    first: Span,
    second: Span,
) -> Result<(), NoMemory>
    ensures { OnOk result (shown to.new ≡ operands_added place first second (shown to.old)) }
{
    to.operands.push(Unsequenced {
        place,
        first,
        second,
    })?;
    Ok(())
}

/// What is not the first one in a row stands against those before it.
pub(crate) fn note_against(
    to: &mut Notes,
    place: Place,
    number: usize,
    before: Span,
    edges: Span,
) -> Result<(), NoMemory>
    ensures { OnOk result (shown to.new ≡ against_before number place before edges (shown to.old)) }
{
    if number == 0 {
        return Ok(());
    }
    note_operands(to, place, before, edges)
}

/// A load of what `op=` changes, and its right side.
pub(crate) fn note_reload(
    to: &mut Notes,
    place: Place,
    load: u32,
    right: Span,
) -> Result<(), NoMemory>
    ensures { OnOk result (shown to.new ≡ reload_added place load right (shown to.old)) }
{
    to.reloads.push(Reload { place, load, right })?;
    Ok(())
}

/// A sequence point follows the stores behind so many pending ones.
pub(crate) fn sequence(to: &mut Notes, pending: usize)
    ensures { shown to.new ≡ sequenced_from pending (shown to.old) }
{
    to.pending.truncate(pending);
}

// The earlier stores behind so many are overwritten by this one.
#[tactic(auto, using(std::proofs::lemmas::List::append_assoc))]
fn add_overwrites(
    to: &mut Vec<Overwrite>,
    place: Place,
    store: u32,
    pending: &[u32],
    first: usize,
) -> Result<(), NoMemory>
    ensures { OnOk result (to.new.items ≡ to.old.items ++ overwrites_of place store (drop first pending.now)) }
{
    for index in first..pending.len() {
        to.push(Overwrite {
            place,
            store,
            earlier: pending[index],
        })?;
    }
    Ok(())
}

/// The store of an assignment, `++` or `--`, whose operands left those pending that stand behind so many others.
pub(crate) fn note_store(to: &mut Notes, place: Place, pending: usize) -> Result<(), NoMemory>
    ensures { OnOk result (shown to.new ≡ stored_from pending place (shown to.old)) }
{
    let store = to.size;
    note(to, place, Form::Store)?;
    add_overwrites(&mut to.overwrites, place, store, &to.pending, pending)?;
    to.pending.push(store)?;
    Ok(())
}

/// Something is given at a place, if it is so.
pub(crate) fn note_given(
    to: &mut Notes,
    is: bool,
    passed: Passed,
    place: Place,
) -> Result<(), NoMemory>
    ensures { OnOk result (shown to.new ≡ given_if is passed place (shown to.old)) }
{
    if is {
        to.passings.push(Passing { place, passed })?;
    }
    Ok(())
}

/// A pointer that is given to what has this type, if that has another target.
pub(crate) fn note_passing(
    to: &mut Notes,
    place: Place,
    given: Given,
    of: CType,
) -> Result<(), NoMemory>
    ensures { OnOk result (shown to.new ≡ passing_if (differs given of) place (shown to.old)) }
{
    note_given(to, given.differs(of), Passed::Pointer, place)
}

/// An end of a function without `return` stands here.
pub(crate) fn note_fall(to: &mut Notes) -> Result<(), NoMemory>
    ensures { OnOk result (shown to.new ≡ fall_added (shown to.old)) }
{
    let at = to.size;
    to.falls.push(at)?;
    Ok(())
}

/// A lifetime begins, in a scope that has not ended.
pub(crate) fn note_life(to: &mut Notes, life: Life) -> Result<(), NoMemory>
    ensures { OnOk result (shown to.new ≡ life_added life (shown to.old)) }
{
    to.unended.push(life)?;
    Ok(())
}

// The lives behind so many go on up to an end.
#[tactic(auto, using(std::proofs::lemmas::List::append_assoc))]
fn add_ended(to: &mut Vec<Life>, unended: &[Life], first: usize, end: u32) -> Result<(), NoMemory>
    ensures { OnOk result (to.new.items ≡ to.old.items ++ map (ending end) (drop first unended.now)) }
{
    for index in first..unended.len() {
        let mut life = unended[index];
        life.scope.end = end;
        to.push(life)?;
    }
    Ok(())
}

/// The scopes behind so many open ones end.
pub(crate) fn end_scopes(to: &mut Notes, outer: usize) -> Result<(), NoMemory>
    ensures { OnOk result (shown to.new ≡ scoped_from outer (shown to.old)) }
{
    let end = to.size;
    add_ended(&mut to.lives, &to.unended, outer, end)?;
    to.unended.truncate(outer);
    Ok(())
}
