//! Parameters of functions (C99 6.7.5.3).
ghost use Rattle.std.specs.Prelude.{◌≡◌, IfOk, OnOk, map};
ghost use Rattle.tm_trees.specs.DeclarationTrees.{specifier_trees};
ghost use Rattle.tm_trees.specs.FileTrees.{parameter_tree, parameters_tree, a_named_parameter, an_unnamed_parameter};
ghost use Rattle.tm_trees.specs.DeclarationTrees.{declarator_tree};
ghost use Rattle.tm_typed.specs.States.{in_scope};
ghost use Rattle.tm_typed.specs.Functions.{type_in, adjusted, is_structure_type, is_by_value, is_of_void};
ghost use Rattle.tm_typed.specs.Functions.{with_parameter, parameter_rules, no_name, first_place, parameter_in};
ghost use Rattle.tm_typed.specs.Functions.{listed_parameters, parameters_in};
ghost use Rattle.c_typing_state.specs.Steps.{MovesTo};

use c_scope::Scope;
use c_specifiers::{declared, declared_name, declared_place, declared_pointers, specified};
use c_type_names::{base, is_void, plain, refusal};
use c_typing_state::{State, is_declared_here};
use std::alloc::Global;
use tm_lattice::NoMemory;
use tm_terms::{Fail, Kind, Name, Place, PointerWord};
use tm_trees::{Declarator, Parameter, Parameters, Specifier};
use tm_typed::{CType, LocalEntry, Named, ObjectNumber, Qualified, Shape};

/// The name of a parameter without one.
const NO_NAME: Name = Name {
    start: 0,
    length: 0,
};

/// The place of no specifier.
const NOWHERE: Place = Place { line: 0, col: 0 };

// A type without qualifiers, which the table has from now on.
fn type_in(state: &mut State, ctype: CType) -> Result<Qualified, NoMemory>
    ensures of { IfOk result (λ q. q ≡ (type_in state.old.scope ctype).0) }
    ensures state { OnOk result (state.new ≡ in_scope state.old (type_in state.old.scope ctype).1) }
{
    let number = state.add_type(ctype)?;
    Ok(plain(number))
}

// An array as a parameter is a pointer to its first element.
fn adjusted(state: &mut State, shape: Shape) -> Result<Qualified, NoMemory>
    ensures of { IfOk result (λ q. q ≡ (adjusted state.old.scope shape).0) }
    ensures state { OnOk result (state.new ≡ in_scope state.old (adjusted state.old.scope shape).1) }
{
    if shape.is_open {
        return type_in(state, CType::Pointer(shape.of));
    }
    match state.scope().ctype(shape.of.number) {
        CType::Array { element, .. } => {
            let of = Qualified {
                number: element,
                ..shape.of
            };
            type_in(state, CType::Pointer(of))
        }
        CType::Void | CType::Int(_) | CType::Pointer(_) | CType::Struct(_) => Ok(shape.of),
    }
}

fn is_structure_type(ctype: CType) -> bool
    ensures { result ≡ is_structure_type ctype }
{
    match ctype {
        CType::Struct(_) => true,
        CType::Void | CType::Int(_) | CType::Pointer(_) | CType::Array { .. } => false,
    }
}

/// Whether it is a structure by value, which is left out.
pub(crate) fn is_by_value(scope: &Scope, shape: Shape) -> bool
    ensures { result ≡ is_by_value scope.now shape }
{
    !shape.is_open && is_structure_type(scope.ctype(shape.of.number))
}

// Whether it is `void`, but not an array of it, which is a mismatch already.
fn is_of_void(scope: &Scope, shape: Shape) -> bool
    ensures { result ≡ is_of_void scope.now shape }
{
    !shape.is_open && is_void(scope.ctype(shape.of.number))
}

// A further object of the body that is typed, which the name of a parameter names.
fn add_parameter(state: &mut State, is_named: bool, entry: LocalEntry) -> Result<(), NoMemory>
    ensures { OnOk result (state.new ≡ with_parameter state.old is_named entry) }
{
    let number = state.add_local(entry)?;
    if !is_named {
        return Ok(());
    }
    let named = Named::Object {
        object: ObjectNumber::Local(number),
        of: entry.of,
    };
    state.add_name(entry.name, named)
}

// A parameter with this name and place: neither a structure by value nor of type `void`, and two have not one name.
#[tactic(auto, using(c_typing_state::proofs::Frames::passes, c_typing_state::proofs::Frames::goes_on))]
fn parameter_by(
    state: &mut State,
    is_named: bool,
    name: Name,
    place: Place,
    shape: Shape,
) -> Result<(), Fail>
    ensures { MovesTo state.new result (parameter_rules state.old is_named name place shape) }
{
    if shape.left_out || is_by_value(state.scope(), shape) {
        return Err(refusal(Kind::Unsupported, place));
    }
    if is_named && is_declared_here(state, name) {
        return Err(refusal(Kind::Redeclared, place));
    }
    if shape.mismatch || is_of_void(state.scope(), shape) {
        return Err(refusal(Kind::Mismatch, place));
    }
    let of = adjusted(state, shape)?;
    add_parameter(state, is_named, LocalEntry { name, place, of })?;
    Ok(())
}

// The place of the first of some specifiers.
fn first_place(specifiers: &[Specifier]) -> Place
    ensures { result ≡ first_place (specifier_trees specifiers.now) }
{
    match specifiers {
        [] => NOWHERE,
        [Specifier::Plain(spec), ..] => spec.place,
        [Specifier::Struct { place, .. }, ..] => *place,
        [Specifier::Enum { place, .. }, ..] => *place,
    }
}

#[tactic(auto, using(c_typing_state::proofs::Frames::passes, c_typing_state::proofs::Frames::goes_on))]
fn named_parameter(
    alloc: Global,
    state: &mut State,
    specifiers: &[Specifier],
    declarator: &Declarator,
) -> Result<(), Fail>
    ensures { MovesTo state.new result (parameter_in state.old
        (a_named_parameter (specifier_trees specifiers.now) (declarator_tree declarator.now))) }
{
    let said = specified(alloc, state, specifiers)?;
    let shape = declared(alloc, state, base(said), declarator)?;
    parameter_by(
        state,
        true,
        declared_name(declarator),
        declared_place(declarator),
        shape,
    )
}

#[tactic(auto, using(c_typing_state::proofs::Frames::passes, c_typing_state::proofs::Frames::goes_on))]
fn unnamed_parameter(
    alloc: Global,
    state: &mut State,
    specifiers: &[Specifier],
    pointers: &[PointerWord],
) -> Result<(), Fail>
    ensures { MovesTo state.new result (parameter_in state.old
        (an_unnamed_parameter (specifier_trees specifiers.now) pointers.now)) }
{
    let said = specified(alloc, state, specifiers)?;
    let shape = declared_pointers(state, base(said), pointers)?;
    parameter_by(state, false, NO_NAME, first_place(specifiers), shape)
}

fn parameter_in(alloc: Global, state: &mut State, parameter: &Parameter) -> Result<(), Fail>
    ensures { MovesTo state.new result (parameter_in state.old (parameter_tree parameter.now)) }
{
    match parameter {
        Parameter::Named {
            specifiers,
            declarator,
        } => named_parameter(alloc, state, specifiers, declarator),
        Parameter::Unnamed {
            specifiers,
            pointers,
        } => unnamed_parameter(alloc, state, specifiers, pointers),
    }
}

#[tactic(auto, using(c_typing_state::proofs::Frames::passes, c_typing_state::proofs::Frames::goes_on))]
fn listed_parameters(alloc: Global, state: &mut State, parameters: &[Parameter]) -> Result<(), Fail>
    ensures { MovesTo state.new result (listed_parameters state.old (map parameter_tree parameters.now)) }
{
    'parameters: for parameter in parameters {
        parameter_in(alloc, state, parameter)?;
    }
    Ok(())
}

/// The parameters of a function are declared, in the block that has begun.
pub(crate) fn parameters_in(
    alloc: Global,
    state: &mut State,
    parameters: &Parameters,
) -> Result<(), Fail>
    ensures { MovesTo state.new result (parameters_in state.old (parameters_tree parameters.now)) }
{
    match parameters {
        Parameters::Void => Ok(()),
        Parameters::List(parameters) => listed_parameters(alloc, state, parameters),
    }
}
