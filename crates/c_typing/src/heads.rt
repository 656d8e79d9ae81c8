//! What declarations say of functions, and their rules.
ghost use Rattle.std.specs.Prelude.{◌≡◌, IfOk, slice_get};
ghost use Rattle.tm_trees.specs.FileTrees.{function_tree};
ghost use Rattle.tm_typed.specs.Scopes.{function_of};
ghost use Rattle.tm_typed.specs.Refusals.{Gives};
ghost use Rattle.tm_typed.specs.Declarations.{is_typedef};
ghost use Rattle.tm_typed.specs.Functions.{types_of, are_same_types, agrees, disagrees, clashes_with, is_array_type};
ghost use Rattle.tm_typed.specs.Functions.{function_rules};
ghost use Rattle.tm_typed.specs.Files.{head_of};
ghost use Rattle.c_typing.specs.Views.{head_of_code};

use crate::found::push;
use crate::parameters::is_by_value;
use c_scope::Scope;
use c_type_names::refusal;
use c_typing_state::State;
use std::alloc::Global;
use tm_lattice::NoMemory;
use tm_terms::{Fail, Kind, Name, Place, Storage};
use tm_trees::Function;
use tm_typed::{CType, FunctionEntry, LocalEntry, Named, Shape};

/// What a declaration says of a function.
#[derive(Drop)]
pub(crate) struct Head {
    pub(crate) name: Name,
    pub(crate) place: Place,
    pub(crate) result: u32,
    pub(crate) parameters: Vec<u32>,
    pub(crate) is_definition: bool,
}

// The types of some objects.
fn types_of(alloc: Global, locals: &[LocalEntry]) -> Result<Vec<u32>, NoMemory>
    ensures { IfOk result (λ v. v.items ≡ types_of locals.now) }
{
    let mut types = Vec::new(alloc);
    'locals: for local in locals {
        push(&mut types, local.of.number)?;
    }
    Ok(types)
}

/// The head of a function whose result has this shape, and which has these parameters.
pub(crate) fn head_of(
    alloc: Global,
    function: &Function,
    shape: Shape,
    parameters: &[LocalEntry],
) -> Result<Head, NoMemory>
    ensures { IfOk result (λ h. head_of_code h ≡ head_of (function_tree function.now) shape parameters.now) }
{
    let parameters = types_of(alloc, parameters)?;
    Ok(Head {
        name: function.name,
        place: function.place,
        result: shape.of.number,
        parameters,
        is_definition: function.body.is_some(),
    })
}

fn are_same_types(scope: &Scope, left: &[u32], right: &[u32]) -> bool
    ensures { result ≡ are_same_types scope.now left.now right.now }
{
    if left.len() != right.len() {
        return false;
    }
    'types: for i in 0..left.len() {
        if !scope.is_same_type(left[i], right[i]) {
            return false;
        }
    }
    true
}

// Of the same type, where at most one declaration is a definition.
fn agrees(scope: &Scope, head: &Head, function: &FunctionEntry) -> bool
    ensures { result ≡ agrees scope.now (head_of_code head.now) (function_of function.now) }
{
    scope.is_same_type(head.result, function.result)
        && are_same_types(scope, &head.parameters, &function.parameters)
        && !(head.is_definition && function.defined)
}

fn disagrees(scope: &Scope, head: &Head, number: u32) -> bool
    ensures { result ≡ disagrees scope.now (head_of_code head.now) (slice_get scope.now.functions number) }
{
    match scope.function(number) {
        None => true,
        Some(function) => !agrees(scope, head, function),
    }
}

// Whether it is no further declaration of one function, nor a first one of its name.
fn clashes_with(state: &State, head: &Head, already: Option<Named>) -> bool
    ensures { result ≡ clashes_with state.now (head_of_code head.now) already }
{
    match already {
        None => state.linked(head.name).is_some(),
        Some(Named::Function(number)) => disagrees(state.scope(), head, number),
        Some(_) => true,
    }
}

fn is_typedef(storage: Option<Storage>) -> bool
    ensures { result ≡ is_typedef storage }
{
    match storage {
        Some(Storage::Typedef) => true,
        Some(_) | None => false,
    }
}

fn is_array_type(ctype: CType) -> bool
    ensures { result ≡ is_array_type ctype }
{
    match ctype {
        CType::Array { .. } => true,
        CType::Void | CType::Int(_) | CType::Pointer(_) | CType::Struct(_) => false,
    }
}

/// The rows of the function's name: no structure and no array by value, one function of the name, and no typedef.
pub(crate) fn function_rules(
    state: &State,
    head: &Head,
    storage: Option<Storage>,
    shape: Shape,
) -> Result<(), Fail>
    ensures { Gives (λ u. tt) result (function_rules state.now (head_of_code head.now) storage shape) }
{
    if shape.left_out || is_by_value(state.scope(), shape) {
        return Err(refusal(Kind::Unsupported, head.place));
    }
    if clashes_with(state, head, state.scope().named_here(head.name)) {
        return Err(refusal(Kind::Redeclared, head.place));
    }
    if is_typedef(storage) || is_array_type(state.scope().ctype(shape.of.number)) {
        return Err(refusal(Kind::Mismatch, head.place));
    }
    Ok(())
}
