//! Objects of static storage and the names that are linked with them (C99 6.2.2).
ghost use Rattle.std.specs.Prelude.{◌≡◌, ◌||◌, IfOk, OnOk, is_some, map, length};
ghost use Rattle.tm_trees.specs.DeclarationTrees.{initialiser_tree};
ghost use Rattle.tm_typed.specs.Scopes.{named_here};
ghost use Rattle.tm_typed.specs.TypedStatements.{given_tree};
ghost use Rattle.tm_typed.specs.Declarations.{is_same_object, clashes, is_other, is_function, bound_unless, redeclared};
ghost use Rattle.tm_typed.specs.Declarations.{new_static, linked, linked_object, static_cell_of};
ghost use Rattle.tm_typed.specs.Declarations.{value_or_null, initialised_static};
ghost use Rattle.c_typing_state.specs.Steps.{MovesTo};
ghost use Rattle.c_declarations.specs.reading.Declared.{with_value};

use crate::declared::Declared;
use c_initialisers::{initial, static_value};
use c_scope::Scope;
use c_typing_state::State;
use std::alloc::Global;
use tm_lattice::NoMemory;
use tm_terms::Fail;
use tm_trees::Initialiser;
use tm_typed::{GivenCell, Named, ObjectNumber, Qualified, StaticCell, StaticValue, TypedStatic};

// The same type, `const` being ignored, but not `volatile`.
fn is_same_object(scope: &Scope, left: Qualified, right: Qualified) -> bool
    ensures { result ≡ is_same_object scope.now left right }
{
    scope.is_same_type(left.number, right.number) && left.volatile == right.volatile
}

/// Whether a further declaration of an object is not of the same type, or has a further initialiser.
pub(crate) fn clashes(
    state: &State,
    declared: Declared,
    initialiser: &Option<Initialiser>,
    linked: Option<u32>,
) -> bool
    ensures { result ≡ clashes state.now (with_value declared initialiser.now) linked }
{
    match linked {
        None => false,
        Some(number) => {
            let of = state.static_type(number);
            declared.shape.is_open
                || !is_same_object(state.scope(), of, declared.shape.of)
                || (state.is_initialised(number) && initialiser.is_some())
        }
    }
}

/// Whether a name of the present block names something other than the object that is linked with it.
pub(crate) fn is_other(named: Option<Named>, linked: Option<u32>) -> bool
    ensures { result ≡ is_other named linked }
{
    match (named, linked) {
        (None, _) => false,
        (
            Some(
                Named::Object {
                    object: ObjectNumber::Static(number),
                    of: _,
                },
            ),
            Some(linked),
        ) => number != linked,
        (Some(_), _) => true,
    }
}

/// Whether a name names a function or a task.
pub(crate) fn is_function(named: Option<Named>) -> bool
    ensures { result ≡ is_function named }
{
    match named {
        Some(Named::Function(_) | Named::Task) => true,
        Some(Named::Object { .. } | Named::Alias(_) | Named::Mutex(_) | Named::Enumerator(_))
        | None => false,
    }
}

/// A further object of static storage.
pub(crate) fn add_object(
    alloc: Global,
    state: &mut State,
    declared: Declared,
    defined: bool,
    initialiser: &Option<Initialiser>,
) -> Result<u32, NoMemory>
    ensures state { OnOk result (state.new ≡ new_static state.old (with_value declared initialiser.now) defined) }
    ensures number { IfOk result (λ k. k ≡ length state.old.statics) }
{
    state.add_static(TypedStatic {
        name: declared.name,
        place: declared.place,
        of: declared.shape.of,
        defined,
        initialised: initialiser.is_some(),
        given: Vec::new(alloc),
    })
}

// The name of the present block names the object, unless it names something.
fn bind_unless(
    state: &mut State,
    declared: Declared,
    initialiser: &Option<Initialiser>,
    number: u32,
    here: Option<Named>,
) -> Result<(), NoMemory>
    ensures { OnOk result (state.new ≡ bound_unless state.old (with_value declared initialiser.now) number here) }
{
    match here {
        None => {
            let of = state.static_type(number);
            state.add_name(
                declared.name,
                Named::Object {
                    object: ObjectNumber::Static(number),
                    of,
                },
            )
        }
        Some(_) => Ok(()),
    }
}

/// The object that is linked with the name, or a new one, named in the present block; its number.
pub(crate) fn linked_object(
    alloc: Global,
    state: &mut State,
    declared: Declared,
    defined: bool,
    initialiser: &Option<Initialiser>,
) -> Result<u32, NoMemory>
    ensures { IfOk result (λ k.
        linked_object state.old (with_value declared initialiser.now) defined (linked state.old declared.name)
        ≡ (k, state.new)) }
{
    let here = state.scope().named_here(declared.name);
    match state.linked(declared.name) {
        Some(number) => {
            state.redeclare_static(number, defined, initialiser.is_some());
            bind_unless(state, declared, initialiser, number, here)?;
            Ok(number)
        }
        None => {
            let number = add_object(alloc, state, declared, defined, initialiser)?;
            state.link(declared.name, number, declared.shape.of)?;
            bind_unless(state, declared, initialiser, number, here)?;
            Ok(number)
        }
    }
}

// What a cell that an initialiser gives holds before the program runs.
fn static_cell_of(state: &State, cell: &GivenCell) -> StaticCell
    ensures { result ≡ static_cell_of state.now (given_tree cell.now) }
{
    let value = match static_value(state, &cell.value) {
        Some(value) => value,
        None => StaticValue::Null,
    };
    StaticCell {
        cell: cell.cell,
        value,
    }
}

// What the cells hold before the program runs.
fn static_cells(
    alloc: Global,
    state: &State,
    cells: &[GivenCell],
) -> Result<Vec<StaticCell>, NoMemory>
    ensures { IfOk result (λ v. v.items ≡ map (static_cell_of state.now) (map given_tree cells.now)) }
{
    let mut values = Vec::new(alloc);
    'cells: for cell in cells {
        match values.push(static_cell_of(state, cell)) {
            Ok(()) => {}
            Err(_) => return Err(NoMemory),
        }
    }
    Ok(values)
}

/// The cells that its initialiser gives to an object of static storage.
#[tactic(auto, using(crate::proofs::Frames::passes, crate::proofs::Frames::goes_on))]
pub(crate) fn initialise_static(
    alloc: Global,
    state: &mut State,
    number: u32,
    initialiser: &Option<Initialiser>,
) -> Result<(), Fail>
    ensures { MovesTo state.new result (initialised_static state.old number (initialiser_tree initialiser.now)) }
{
    match initialiser {
        None => Ok(()),
        Some(value) => {
            let of = state.static_type(number).number;
            match initial(alloc, true, state, of, &value.value) {
                Ok(cells) => {
                    let values = static_cells(alloc, state, &cells)?;
                    state.give_static(number, values);
                    Ok(())
                }
                Err(fail) => Err(fail),
            }
        }
    }
}
