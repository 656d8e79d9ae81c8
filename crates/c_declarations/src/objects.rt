//! Objects at file scope and in blocks (C99 6.7.8, 6.9.2).
ghost use Rattle.std.specs.Prelude.{◌≡◌, OnOk, IfOk, length, [], ◌∷◌};
ghost use Rattle.tm_trees.specs.DeclarationTrees.{initialiser_tree};
ghost use Rattle.tm_typed.specs.Declarations.{file_object, extern_value, extern_object, object_rules};
ghost use Rattle.tm_typed.specs.Declarations.{static_object, initialised_local, new_local, local_object};
ghost use Rattle.tm_typed.specs.TypedStatements.{local_initialiser_tree, local_tree};
ghost use Rattle.c_typing_state.specs.Steps.{MovesTo, StepsTo};
ghost use Rattle.c_declarations.specs.reading.Declared.{with_value};

use crate::declared::Declared;
use crate::linkage::{
    add_object, clashes, initialise_static, is_function, is_other, linked_object,
};
use c_initialisers::initial;
use c_specifiers::is_no_object;
use c_type_names::refusal;
use c_typing_state::{State, is_declared_here};
use std::alloc::Global;
use tm_lattice::NoMemory;
use tm_terms::{Fail, Kind};
use tm_trees::{Initialiser, Value};
use tm_typed::{LocalEntry, LocalInitialiser, LocalObject, Named, ObjectNumber};

/// An object at file scope, which every declaration but a bare `extern` defines.
pub(crate) fn declare_at_file(
    alloc: Global,
    state: &mut State,
    bare_extern: bool,
    declared: Declared,
    initialiser: &Option<Initialiser>,
) -> Result<(), Fail>
    ensures { MovesTo state.new result (file_object state.old bare_extern (with_value declared initialiser.now)) }
{
    if declared.shape.left_out {
        return Err(refusal(Kind::Unsupported, declared.place));
    }
    let linked = state.linked(declared.name);
    let here = state.scope().named_here(declared.name);
    if is_other(here, linked) || clashes(state, declared, initialiser, linked) {
        return Err(refusal(Kind::Redeclared, declared.place));
    }
    if is_no_object(state.scope(), declared.shape) {
        return Err(refusal(Kind::Mismatch, declared.place));
    }
    let number = linked_object(alloc, state, declared, !bare_extern, initialiser)?;
    initialise_static(alloc, state, number, initialiser)
}

// An `extern` declaration in a block has no initialiser.
#[tactic(auto, using(crate::proofs::Frames::passes, crate::proofs::Frames::goes_on))]
fn extern_value(
    alloc: Global,
    state: &mut State,
    initialiser: &Option<Initialiser>,
) -> Result<(), Fail>
    ensures { MovesTo state.new result (extern_value state.old (initialiser_tree initialiser.now)) }
{
    match initialiser {
        None => Ok(()),
        Some(value) => match &value.value {
            Value::Expression(expr) => match state.typed_in(alloc, expr) {
                Ok(_) => Err(refusal(Kind::Mismatch, expr.place())),
                Err(fail) => Err(fail),
            },
            Value::List { place, .. } => Err(refusal(Kind::Mismatch, *place)),
        },
    }
}

/// `extern` in a block: it names the object at file scope, wherever that is declared.
#[tactic(auto, using(crate::proofs::Frames::passes, crate::proofs::Frames::goes_on))]
pub(crate) fn declare_extern(
    alloc: Global,
    state: &mut State,
    declared: Declared,
    initialiser: &Option<Initialiser>,
) -> Result<(), Fail>
    ensures { MovesTo state.new result (extern_object state.old (with_value declared initialiser.now)) }
{
    if declared.shape.left_out {
        return Err(refusal(Kind::Unsupported, declared.place));
    }
    let linked = state.linked(declared.name);
    let here = state.scope().named_here(declared.name);
    if is_other(here, linked)
        || is_function(state.scope().named(declared.name))
        || clashes(state, declared, initialiser, linked)
    {
        return Err(refusal(Kind::Redeclared, declared.place));
    }
    if is_no_object(state.scope(), declared.shape) {
        return Err(refusal(Kind::Mismatch, declared.place));
    }
    match extern_value(alloc, state, initialiser) {
        Ok(()) => {
            let _number = linked_object(alloc, state, declared, false, initialiser)?;
            Ok(())
        }
        Err(fail) => Err(fail),
    }
}

// An object without linkage has one declaration in its block.
fn object_rules(state: &State, declared: Declared) -> Result<(), Fail>
    ensures { MovesTo state.now result (object_rules state.now (with_value declared None) (Ok state.now)) }
{
    if declared.shape.left_out {
        Err(refusal(Kind::Unsupported, declared.place))
    } else if is_declared_here(state, declared.name) {
        Err(refusal(Kind::Redeclared, declared.place))
    } else if is_no_object(state.scope(), declared.shape) {
        Err(refusal(Kind::Mismatch, declared.place))
    } else {
        Ok(())
    }
}

/// `static` in a block: an object of static storage without linkage.
#[tactic(auto, using(crate::proofs::ObjectRows::rows))]
pub(crate) fn declare_static(
    alloc: Global,
    state: &mut State,
    declared: Declared,
    initialiser: &Option<Initialiser>,
) -> Result<(), Fail>
    ensures { MovesTo state.new result (static_object state.old (with_value declared initialiser.now)) }
{
    match object_rules(state, declared) {
        Ok(()) => {
            let number = add_object(alloc, state, declared, true, initialiser)?;
            state.add_name(
                declared.name,
                Named::Object {
                    object: ObjectNumber::Static(number),
                    of: declared.shape.of,
                },
            )?;
            initialise_static(alloc, state, number, initialiser)
        }
        Err(fail) => Err(fail),
    }
}

// What a local object of a type is initialised with.
#[tactic(auto, using(crate::proofs::Frames::passes, crate::proofs::Frames::goes_on))]
fn local_initialiser(
    alloc: Global,
    state: &mut State,
    of: u32,
    initialiser: &Option<Initialiser>,
) -> Result<Option<LocalInitialiser>, Fail>
    ensures { StepsTo local_initialiser_tree state.new result
        (initialised_local state.old of (initialiser_tree initialiser.now)) }
{
    match initialiser {
        None => Ok(None),
        Some(value) => match initial(alloc, false, state, of, &value.value) {
            Ok(given) => Ok(Some(LocalInitialiser {
                given,
                place: value.place,
            })),
            Err(fail) => Err(fail),
        },
    }
}

// A further object of the body, by its number.
fn add_local(state: &mut State, declared: Declared) -> Result<u32, NoMemory>
    ensures state { OnOk result (state.new ≡ new_local state.old (with_value declared None)) }
    ensures number { IfOk result (λ k. k ≡ length state.old.locals) }
{
    let number = state.add_local(LocalEntry {
        name: declared.name,
        place: declared.place,
        of: declared.shape.of,
    })?;
    state.add_name(
        declared.name,
        Named::Object {
            object: ObjectNumber::Local(number),
            of: declared.shape.of,
        },
    )?;
    Ok(number)
}

/// A local object of a body.
#[tactic(auto, using(crate::proofs::ObjectRows::parts))]
pub(crate) fn declare_local(
    alloc: Global,
    state: &mut State,
    declared: Declared,
    initialiser: &Option<Initialiser>,
) -> Result<LocalObject, Fail>
    ensures { StepsTo (λ l. local_tree l ∷ []) state.new result
        (local_object state.old (with_value declared initialiser.now)) }
{
    match object_rules(state, declared) {
        Ok(()) => {
            let object = add_local(state, declared)?;
            match local_initialiser(alloc, state, declared.shape.of.number, initialiser) {
                Ok(initialiser) => Ok(LocalObject {
                    object,
                    initialiser,
                }),
                Err(fail) => Err(fail),
            }
        }
        Err(fail) => Err(fail),
    }
}
